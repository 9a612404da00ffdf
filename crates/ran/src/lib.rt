// What a step and a run give back that is refused, and a step that is made.
#![tactic(auto)]

ghost use Rattle.std.specs.Prelude.{◌≡◌};
ghost use Rattle.state.specs.declared.Answer.TheVariants.{Refused};

use machine::Ran;
use state::{Answer, Queue, Refusal, Stepped, Thread};

// (As `tabled::refused`, but with the thread: one literal each.)
pub fn refused(q: Queue, thread: Thread, refusal: Refusal) -> Ran
    ensures { result ≡ record { queue = q; thread = thread; answer = Refused refusal; steps = 0 } }
{
    Ran {
        queue: q,
        thread,
        answer: Answer::Refused(refusal),
        steps: 0,
    }
}

// A step made: one line. It is no `From`, since the count stands in no `Stepped`, and `Ran::from` would not tell of it.
pub fn counted(stepped: Stepped) -> Ran
    ensures { result ≡ record { queue = stepped.queue; thread = stepped.thread; answer = stepped.answer; steps = 1 } }
{
    let Stepped {
        queue,
        thread,
        answer,
    } = stepped;
    Ran {
        queue,
        thread,
        answer,
        steps: 1,
    }
}
