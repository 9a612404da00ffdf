// The types that every layer shares: the Injector's shared words as plain fields, the lines of each call as
// enums, the thread record, the answers (the BAD_STATE list is specs/List.antt, its code the crates `calls` and `list`).
#![tactic(auto)]

ghost use Rattle.std.specs.Prelude.{◌≡◌};
ghost use Rattle.state.specs.Answers.{answered, number};
ghost use Rattle.state.specs.Move.{settle};

use index::Index;
use ring::Ring;

// The Injector: its two `Position`s, and the counts it was set up with.
#[derive(Clone, Copy)]
pub struct Queue {
    pub head: Index,
    pub head_block: u64,
    pub tail: Index,
    pub tail_block: u64,
    pub ceiling: u64,
    pub threads: u64,
    pub blocks: u64,
}

// The lines of a push. Each carries the token; then the tail index it loaded, the tail's block, and the
// block it holds, where it has them.
#[derive(Clone, Copy)]
pub enum PushLine {
    P1(u64, Option<u64>),
    P2(u64, Index, Option<u64>),
    P3(u64, Index, u64),
    P4(u64, Index, u64, Option<u64>),
    P5(u64, Index, u64, u64),
    P6(u64, Index, u64, u64),
    P7(u64, Index, u64, u64),
    P8(u64, Index, u64, Option<u64>),
    P9(u64, Index, u64, Option<u64>),
    // the block to give back, and whether the lap was spent
    P10(u64, bool),
}

// `steal`, `steal_batch_with_limit`, `steal_batch_with_limit_and_pop`, with their limits.
#[derive(Clone, Copy)]
pub enum Kind {
    Steal,
    Batch(u64),
    Take(u64),
}

// The slots that a thief claims or has claimed: the head index it loaded, the head's block, how many.
#[derive(Clone, Copy)]
pub struct Claim {
    pub head: Index,
    pub block: u64,
    pub advance: u64,
}

// What a thief has won, once its tokens are handed over: its answer when the call ends. (No Option: a batch that moved has not
// won nothing.)
#[derive(Clone, Copy)]
pub enum Won {
    Task(u64),
    Moved,
}

// The lines of a steal and of both batches.
#[derive(Clone, Copy)]
pub enum StealLine {
    S1(Kind),
    S2(Kind, Index),
    S3(Kind, Index, u64),
    // whether the new head gets HAS_NEXT
    S4(Kind, Claim, bool),
    S5(Kind, Claim),
    // the next block
    S6(Kind, Claim, u64),
    // the next block, and whether it has a next itself
    S7(Kind, Claim, u64, bool),
    S8(Kind, Claim, bool),
    // the slot to wait for, to read
    S9(Kind, Claim, u64),
    S10(Kind, Claim, u64),
    // the slot to mark
    S11(Won, Claim, u64),
    // the block, and the slot the walk stands at
    S12(Won, u64, u64),
    S13(Won, u64, u64),
    S14(Won, u64),
}

// The loads of `len`: tail, head, tail again.
#[derive(Clone, Copy)]
pub enum LengthLine {
    L1,
    L2(Index),
    L3(Index, Index),
}

// The loads of `is_empty`: head, tail. (Lines of the step table, as those above; no Option.)
#[derive(Clone, Copy)]
pub enum EmptyLine {
    E1,
    E2(Index),
}

#[derive(Clone, Copy)]
pub enum Call {
    Idle,
    Push(PushLine),
    Steal(StealLine),
    Length(LengthLine),
    Empty(EmptyLine),
}

// A line, and by the law the one call that it is converted into: `Into` alone leaves the call open where a type's `From` says
// nothing of it.
pub trait Line: Into<Call> {
    ghost use Rattle.state.specs.declared.Call.{Call};

    ghost call: { Self → Call };

    ghost is_call: { (line : Self) (into : Call) → Self.converts line into → into ≡ call line };
}

// Four types, two impls each: one by a macro of the repository's own is refused.
impl From<PushLine> for Call {
    ghost use Rattle.state.specs.declared.Call.TheVariants.{Push};

    ghost from_gives = { λ line call. call ≡ Push line };

    fn from(line: PushLine) -> Call {
        Call::Push(line)
    }
}

impl Line for PushLine {
    ghost use Rattle.state.specs.declared.Call.TheVariants.{Push};

    ghost call = { Push };

    ghost is_call = { λ _ _ p. p };
}

impl From<StealLine> for Call {
    ghost use Rattle.state.specs.declared.Call.TheVariants.{Steal};

    ghost from_gives = { λ line call. call ≡ Steal line };

    fn from(line: StealLine) -> Call {
        Call::Steal(line)
    }
}

impl Line for StealLine {
    ghost use Rattle.state.specs.declared.Call.TheVariants.{Steal};

    ghost call = { Steal };

    ghost is_call = { λ _ _ p. p };
}

impl From<LengthLine> for Call {
    ghost use Rattle.state.specs.declared.Call.TheVariants.{Length};

    ghost from_gives = { λ line call. call ≡ Length line };

    fn from(line: LengthLine) -> Call {
        Call::Length(line)
    }
}

impl Line for LengthLine {
    ghost use Rattle.state.specs.declared.Call.TheVariants.{Length};

    ghost call = { Length };

    ghost is_call = { λ _ _ p. p };
}

impl From<EmptyLine> for Call {
    ghost use Rattle.state.specs.declared.Call.TheVariants.{Empty};

    ghost from_gives = { λ line call. call ≡ Empty line };

    fn from(line: EmptyLine) -> Call {
        Call::Empty(line)
    }
}

impl Line for EmptyLine {
    ghost use Rattle.state.specs.declared.Call.TheVariants.{Empty};

    ghost call = { Empty };

    ghost is_call = { λ _ _ p. p };
}

// A thread: its ring, where its call stands, and the tokens a claim has read but not yet handed over (an array: no heap).
#[derive(Clone, Copy)]
pub struct Thread {
    pub ring: Ring,
    pub call: Call,
    pub taken: [u64; 63],
}

// Document 01's numbers 1 to 9, in their order.
#[derive(Clone, Copy)]
pub enum Refusal {
    BadSetup,
    BadState,
    NoThread,
    Busy,
    NoLimit,
    NoRoom,
    Idle,
    NoBlock,
    Spent,
}

// The answer of a step or a run. (No Result: a refusal is one of document 01's ten answers, by which the theorems go, and Open
// is no success.)
#[derive(Clone, Copy)]
pub enum Answer {
    Open,
    Pushed,
    Task(u64),
    Moved,
    Empty,
    Retry,
    Len(u64),
    Yes,
    No,
    Refused(Refusal),
}

impl From<Won> for Answer {
    ghost from_gives = { λ won answer. answer ≡ answered won };

    fn from(won: Won) -> Answer {
        match won {
            Won::Task(task) => Answer::Task(task),
            Won::Moved => Answer::Moved,
        }
    }
}

// What one line makes of the shared words and of its own call; `call` is Idle exactly where `answer` is not Open.
#[derive(Clone, Copy)]
pub struct Made {
    pub queue: Queue,
    pub call: Call,
    pub answer: Answer,
}

// What one step makes of the shared words and the thread.
#[derive(Clone, Copy)]
pub struct Stepped {
    pub queue: Queue,
    pub thread: Thread,
    pub answer: Answer,
}

// Document 01, "Numbers given back".
impl From<Refusal> for u64 {
    ghost from_gives = { λ refusal n. n ≡ number refusal };

    fn from(refusal: Refusal) -> u64 {
        match refusal {
            Refusal::BadSetup => 1,
            Refusal::BadState => 2,
            Refusal::NoThread => 3,
            Refusal::Busy => 4,
            Refusal::NoLimit => 5,
            Refusal::NoRoom => 6,
            Refusal::Idle => 7,
            Refusal::NoBlock => 8,
            Refusal::Spent => 9,
        }
    }
}

// A line that changed of its thread the call alone.
pub fn settle(thread: Thread, made: Made) -> Stepped
    ensures { result ≡ settle thread made }
{
    Stepped {
        queue: made.queue,
        thread: Thread {
            call: made.call,
            ..thread
        },
        answer: made.answer,
    }
}
