// One line of the step table: the one at which the thread's call stands.
// The function keeps its types and its `requires`: docs/ARCHITECTURE.md names it as the line where a call stands.
#![tactic(auto)]

ghost use Rattle.std.specs.Prelude.{◌≡◌, true, ◌*◌, ◌≤◌};
ghost use Rattle.index.specs.Position.{position};
ghost use Rattle.memory.specs.Touch.{after};
ghost use Rattle.state.specs.List.{record_good};
ghost use Rattle.machine.specs.Step.{step_of};

use state::{Answer, Call, Queue, Stepped, Thread};

// The entries have tested the list, from which no sum of a line can wrap.
#[tactic(auto, using(crate::proofs::Loads::loads), unfolding(machine::specs::Step::step_of, state::specs::List::record_good))]
pub fn advance(q: Queue, pool: &mut [u64], thread: Thread) -> Stepped
    requires thread_value { record_good q thread ≡ true }
    requires raw_bound { position q.tail.raw ≤ 4294967295 * 64 }
    ensures value { result ≡ (step_of q pool.old thread).stepped }
    ensures pool_after { pool.new ≡ after pool.old (step_of q pool.old thread).touch }
{
    let call = thread.call;
    // a match, not closures: a thread's record keeps its call, and `call_good` and the promise's proofs case on it
    let made = match call {
        Call::Idle => {
            return Stepped {
                queue: q,
                thread,
                answer: Answer::Open,
            };
        }
        Call::Push(line) => push::step(q, pool, line),
        Call::Steal(line) => return steal::step(q, pool, thread, line),
        Call::Length(line) => count::length(q, line),
        Call::Empty(line) => count::empty(q, line),
    };
    state::settle(thread, made)
}
