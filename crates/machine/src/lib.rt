// The machine's definitions (specs/): every line of the step table, one step, a run, and the entries with their
// refusals. Here are the types of what the entries are asked and answer, and what the lines' functions share.
#![tactic(auto)]

ghost use Rattle.std.specs.Prelude.{◌≡◌};
ghost use Rattle.memory.specs.Touch.{leaves};
ghost use Rattle.state.specs.declared.Answer.TheVariants.{Open};
ghost use Rattle.state.specs.Move as move;
ghost use Rattle.machine.specs.Entry.{not_given};

use state::{
    Answer, Call, EmptyLine, Kind, LengthLine, Line, Made, PushLine, Queue, Refusal, StealLine,
    Thread,
};

pub mod steals;

// The calls that a thread may begin.
#[derive(Clone, Copy)]
pub enum Request {
    Push(u64),
    Steal,
    Batch(u64),
    Take(u64),
    Len,
    Empty,
}

// A begin opens its call at the call's first line.
impl From<Request> for Call {
    ghost use Rattle.machine.specs.Entry.{opened};

    ghost from_gives = { λ what call. call ≡ opened what };

    fn from(what: Request) -> Call {
        match what {
            Request::Push(token) => PushLine::P1(token, None).into(),
            Request::Steal | Request::Batch(_) | Request::Take(_) => {
                StealLine::S1(Kind::from(what)).into()
            }
            Request::Len => LengthLine::L1.into(),
            Request::Empty => EmptyLine::E1.into(),
        }
    }
}

// The kind whose limit and room a begin tests; a call that is no batch is tested as a steal, which has neither.
impl From<Request> for Kind {
    ghost use Rattle.machine.specs.Entry.{tested_as};

    ghost from_gives = { λ what kind. kind ≡ tested_as what };

    fn from(what: Request) -> Kind {
        match what {
            Request::Batch(limit) => Kind::Batch(limit),
            Request::Take(limit) => Kind::Take(limit),
            Request::Push(_) | Request::Steal | Request::Len | Request::Empty => Kind::Steal,
        }
    }
}

// What an entry that makes no step gives back: a begin its Ok alone, a ring pop the token, if there was one.
#[derive(Clone, Copy)]
pub struct Given<T> {
    pub thread: Thread,
    pub answer: Result<T, Refusal>,
}

// What a step or a run gives back; `steps` is the number of table lines made. (No generic of this and the replay's `Done`: one has
// what was answered, the other what is said.)
#[derive(Clone, Copy)]
pub struct Ran {
    pub queue: Queue,
    pub thread: Thread,
    pub answer: Answer,
    pub steps: u64,
}

#[derive(Clone, Copy)]
pub struct Started {
    pub queue: Queue,
    pub answer: Result<(), Refusal>,
}

// A refused entry hands the thread back as it was.
pub fn not_given<T>(thread: Thread, refusal: Refusal) -> Given<T>
    ensures { result ≡ not_given thread refusal }
{
    Given {
        thread,
        answer: Err(refusal),
    }
}

// A line's call goes on at a line of its own kind.
pub fn to<L: Line>(q: Queue, line: L) -> Made
    ensures queue_value { result.queue ≡ q }
    ensures call_value { L.converts line result.call }
    ensures call_equation { result.call ≡ L.call line }
    ensures answer_value { result.answer ≡ Open }
{
    Made {
        queue: q,
        call: line.into(),
        answer: Answer::Open,
    }
}

// A line's call ends.
pub fn ends(q: Queue, answer: Answer) -> Made
    ensures { result ≡ (move.ends q answer leaves).made }
{
    Made {
        queue: q,
        call: Call::Idle,
        answer,
    }
}
