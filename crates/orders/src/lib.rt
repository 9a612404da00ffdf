// One command of a thread: what it does to the machine, and what is said of it.
#![tactic(auto)]

mod commands;
mod hears;

pub use hears::hear;
