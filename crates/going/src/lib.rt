// Whether a run goes on after its own step.
#![tactic(auto)]

ghost use Rattle.std.specs.Prelude.{◌≡◌, ◌&&◌};
ghost use Rattle.state.specs.List.{shared_good, record_good};
ghost use Rattle.machine.specs.Step.{is_open};

use state::{Answer, Queue, Thread};

// A step leaves every next good, so the pool is not looked at again.
pub fn goes_on(q: Queue, thread: Thread, answer: Answer) -> bool
    ensures { result ≡ (is_open answer && (shared_good q && record_good q thread)) }
{
    matches!(answer, Answer::Open) && list::shared_good(q) && list::record_good(q, thread)
}
