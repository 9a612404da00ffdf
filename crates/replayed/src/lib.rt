// What the replay of a log is: its definition, from the input's bytes to the output's (specs/), and its types.
#![tactic(auto)]

ghost use Rattle.std.specs.Prelude.{◌≡◌};

use state::{Queue, Refusal, Thread};
use text::Word;

// A byte is read only where all that it may make has room in the lent buffer.
pub const ROOM: usize = 256;

// What is said of a command: nothing, a word, or a word with a number. (No Option: the definition `said_bytes` tells three cases.)
#[derive(Clone, Copy)]
pub enum Said {
    Silent,
    Plain(Word),
    Numbered(Word, u64),
}

impl From<Refusal> for Said {
    ghost use Rattle.replayed.specs.Command.{refused_said};

    ghost from_gives = { λ refusal said. said ≡ refused_said refusal };

    fn from(refusal: Refusal) -> Said {
        Said::Numbered(Word::Refused, u64::from(refusal))
    }
}

// What a command of one thread gives back. (No generic of this and `Ran`: one has what is said, the other what was answered.)
#[derive(Clone, Copy)]
pub struct Done {
    pub queue: Queue,
    pub thread: Thread,
    pub said: Said,
    pub steps: u64,
}

// Whether line 1 is still to come, the log is being replayed, or nothing more is read.
#[derive(Clone, Copy)]
pub enum Stage {
    First,
    Open,
    Over,
}

// The replay between two reads. `held` bytes of the line were read, 81 where they are more than 80. (An array with a count: no
// heap, and a line that is too long is told by it, as the definitions `holds` and `line_as` have it. So are the records an array, of
// which the first `queue.threads` are in use.)
#[derive(Clone, Copy)]
pub struct Replay {
    pub queue: Queue,
    pub threads: [Thread; 8],
    pub line: [u8; 80],
    pub held: u64,
    pub number: u64,
    pub steps: u64,
    pub stage: Stage,
}

// What a feed gives back: how many bytes of the piece were read, and how many of the buffer were written.
#[derive(Clone, Copy)]
pub struct Fed {
    pub replay: Replay,
    pub read: usize,
    pub written: usize,
}
