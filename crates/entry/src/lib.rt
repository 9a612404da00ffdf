// BAD_SETUP, BAD_STATE, NO_THREAD: tested first by every entry that is handed a thread. Then IDLE, by an entry that goes
// on with a call, or BUSY, by one that wants none open.
// (Queue, pool, thread and number stand so in the signature of each public entry, and go on so.)
#![tactic(auto)]

ghost use Rattle.std.specs.Prelude.{◌≡◌};
ghost use Rattle.machine.specs.Entry.{tested};
ghost use Rattle.machine.specs.Step.{is_idle};
ghost use Rattle.entry.specs.Standing.{tested_open, tested_idle};

use state::{Call, Queue, Refusal, Thread};

#[tactic(auto, unfolding(machine::specs::Entry::tested))]
pub fn test(q: Queue, pool: &[u64], thread: Thread, number: u64) -> Result<(), Refusal>
    ensures { result ≡ tested q pool.now thread number }
{
    if !list::setup_good(q, pool.len() as u64) {
        return Err(Refusal::BadSetup);
    }
    if !list::state_good(q, pool, thread) {
        return Err(Refusal::BadState);
    }
    if q.threads <= number {
        return Err(Refusal::NoThread);
    }
    Ok(())
}

fn is_idle(call: Call) -> bool
    ensures { result ≡ is_idle call }
{
    matches!(call, Call::Idle)
}

// (Not one with `test_idle`: it would take a flag and a refusal.)
#[tactic(auto, unfolding(crate::specs::Standing::tested_open))]
pub fn test_open(q: Queue, pool: &[u64], thread: Thread, number: u64) -> Result<(), Refusal>
    ensures { result ≡ tested_open q pool.now thread number }
{
    test(q, pool, thread, number)?;
    if is_idle(thread.call) {
        return Err(Refusal::Idle);
    }
    Ok(())
}

#[tactic(auto, unfolding(crate::specs::Standing::tested_idle))]
pub fn test_idle(q: Queue, pool: &[u64], thread: Thread, number: u64) -> Result<(), Refusal>
    ensures { result ≡ tested_idle q pool.now thread number }
{
    test(q, pool, thread, number)?;
    if !is_idle(thread.call) {
        return Err(Refusal::Busy);
    }
    Ok(())
}
