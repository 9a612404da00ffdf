// What the step entry over a lent table gives back. Its definition and the laws about it stand here, apart from the entry's
// own code, so that they are checked by themselves.
#![tactic(auto)]

ghost use Rattle.std.specs.Prelude.{◌≡◌};
ghost use Rattle.tabled.specs.Table.{refusal};

use machine::Ran;
use state::{Answer, Queue, Refusal};

// What a step of the table gives back; `steps` is the number of table lines made.
#[derive(Clone, Copy)]
pub struct TableStep {
    pub queue: Queue,
    pub answer: Answer,
    pub steps: u64,
}

// All that a step of one record gives back, but for the record: that goes to its place in the table.
impl From<Ran> for TableStep {
    ghost use Rattle.tabled.specs.Table.{given};

    ghost from_gives = { λ ran stepped. stepped ≡ given ran };

    fn from(ran: Ran) -> TableStep {
        TableStep {
            queue: ran.queue,
            answer: ran.answer,
            steps: ran.steps,
        }
    }
}

// (As `ran::refused`, but with no thread: one literal each.)
pub fn refused(q: Queue, number: Refusal) -> TableStep
    ensures { result ≡ refusal q number }
{
    TableStep {
        queue: q,
        answer: Answer::Refused(number),
        steps: 0,
    }
}
