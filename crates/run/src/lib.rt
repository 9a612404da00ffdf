// A run of one thread. On a line where the thread can only wait nothing changes while it alone moves, so the
// rest of the budget is counted in one go.
// (Queue, pool, thread and number stand so in the signature of each public entry, and go on so.)
#![tactic(auto)]

ghost use Rattle.std.specs.Prelude.{◌≡◌, true, length};
ghost use Rattle.state.specs.List.{setup_good, state_good};
ghost use Rattle.machine.specs.Step.{run_from};
ghost use Rattle.machine.specs.Entry.{run_entry};

use advance::advance;
use entry::test_open;
use going::goes_on;
use machine::Ran;
use ran::refused;
use state::{Answer, Queue, Thread};

// From a state that passed the entry's tests. A turn of the loop costs one step and no look over the pool.
fn go(mut q: Queue, pool: &mut [u64], mut thread: Thread, budget: u64) -> Ran
    requires pool_value { setup_good q (length pool.old) ≡ true }
    requires thread_value { state_good q pool.old thread ≡ true }
    ensures value { result ≡ (run_from budget q pool.old thread).ran }
    ensures pool_after { pool.new ≡ (run_from budget q pool.old thread).pool }
{
    for used in 0..budget {
        // nothing that the thread does can change anything while it alone moves: the whole budget is made
        let wait = wait::wait_of(q, pool, thread.call);
        if wait::waits(wait) {
            let call = wait::waited_call(thread.call, wait, budget - used);
            return Ran {
                queue: q,
                thread: Thread { call, ..thread },
                answer: Answer::Open,
                steps: budget,
            };
        }
        let stepped = advance(q, pool, thread);
        q = stepped.queue;
        thread = stepped.thread;
        if !goes_on(q, thread, stepped.answer) {
            return Ran {
                queue: q,
                thread,
                answer: stepped.answer,
                steps: used + 1,
            };
        }
    }
    Ran {
        queue: q,
        thread,
        answer: Answer::Open,
        steps: budget,
    }
}

// Steps the thread until its call ends or the budget is used. It stops too where its own step left a state on the
// list, and then answers as if the budget were used.
pub fn run(q: Queue, pool: &mut [u64], thread: Thread, number: u64, budget: u64) -> Ran
    ensures value { result ≡ (run_entry q pool.old thread number budget).ran }
    ensures pool_after { pool.new ≡ (run_entry q pool.old thread number budget).pool }
{
    if let Err(refusal) = test_open(q, pool, thread, number) {
        return refused(q, thread, refusal);
    }
    go(q, pool, thread, budget)
}
