// The public entries of the Injector, over the shared words and one thread record by value and the pool's lent words,
// and the step entry over a lent table of records. None asks anything of its caller: bad input is refused by number,
// and a refused entry changes nothing.
#![tactic(auto)]

pub use audit::audit;
pub use begin::begin;
pub use idle::idle_thread;
pub use machine::{Given, Ran, Request, Started};
pub use pop::pop;
pub use run::run;
pub use start::setup;
pub use step::step;
pub use table::{TableStep, step_table};
