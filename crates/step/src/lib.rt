// One step of a thread's open call, with its refusals.
// (Queue, pool, thread and number stand so in the signature of each public entry, and go on so.)
#![tactic(auto)]

ghost use Rattle.std.specs.Prelude.{◌≡◌};
ghost use Rattle.machine.specs.Entry.{step_entry};

use advance::advance;
use entry::test_open;
use machine::Ran;
use ran::{counted, refused};
use state::{Queue, Thread};

// One shared access of the thread's open call.
pub fn step(q: Queue, pool: &mut [u64], thread: Thread, number: u64) -> Ran
    ensures value { result ≡ (step_entry q pool.old thread number).ran }
    ensures pool_after { pool.new ≡ (step_entry q pool.old thread number).pool }
{
    if let Err(refusal) = test_open(q, pool, thread, number) {
        return refused(q, thread, refusal);
    }
    counted(advance(q, pool, thread))
}
