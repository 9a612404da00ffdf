// The owner's ring pop.
// (Queue, pool, thread and number stand so in the signature of each public entry, and go on so.)
#![tactic(auto)]

ghost use Rattle.std.specs.Prelude.{◌≡◌};
ghost use Rattle.machine.specs.Entry.{pop_entry};

use entry::test_idle;
use machine::{Given, not_given};
use state::{Queue, Thread};

// The owner's pop of its own ring; it is no step.
pub fn pop(q: Queue, pool: &[u64], thread: Thread, number: u64) -> Given<Option<u64>>
    ensures { result ≡ pop_entry q pool.now thread number }
{
    if let Err(refusal) = test_idle(q, pool, thread, number) {
        return not_given(thread, refusal);
    }
    let popped = thread.ring.pop();
    Given {
        thread: Thread {
            ring: popped.ring,
            ..thread
        },
        answer: Ok(popped.token),
    }
}
