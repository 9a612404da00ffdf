// Where a call can only wait while no other thread moves, and where it stands after that many steps of waiting.
#![tactic(auto)]

ghost use Rattle.std.specs.Prelude.{◌≡◌, cond};
ghost use Rattle.wait.specs.declared.Wait.TheVariants.{No, Stays};
ghost use Rattle.wait.specs.Wait.{turns_at, push_wait, steal_wait, wait_of, waits, waited_call};

use index::Index;
use memory::Mark;
use state::{Call, PushLine, Queue, StealLine};

// How a call waits, if it can only wait. (No Option of two cases: the definitions and lemmas tell three.)
#[derive(Clone, Copy)]
pub enum Wait {
    No,
    // at S5 and S9 it stays where it is
    Stays,
    // at offset 63 it goes from P1 to P2 and back, or from S1 to S2 and back: the other line, with the index loaded
    Turns(Call),
}

fn turns_at(i: Index, other: Call) -> Wait
    ensures { result ≡ turns_at i.raw other }
{
    if i.offset() == index::BLOCK_CAP {
        Wait::Turns(other)
    } else {
        Wait::No
    }
}

fn push_wait(q: Queue, line: PushLine) -> Wait
    ensures { result ≡ push_wait q line }
{
    match line {
        PushLine::P1(token, held) => {
            turns_at(q.tail, Call::Push(PushLine::P2(token, q.tail, held)))
        }
        _ => Wait::No,
    }
}

fn stays_if(idle: bool) -> Wait
    ensures { result ≡ cond idle Stays No }
{
    if idle { Wait::Stays } else { Wait::No }
}

fn steal_wait(q: Queue, pool: &[u64], line: StealLine) -> Wait
    ensures { result ≡ steal_wait q pool.now line }
{
    match line {
        StealLine::S1(kind) => turns_at(q.head, Call::Steal(StealLine::S2(kind, q.head))),
        StealLine::S5(_, claim) => stays_if(memory::next(pool, claim.block).is_none()),
        StealLine::S9(_, claim, slot) => {
            stays_if(!marks::has(memory::state(pool, claim.block, slot), Mark::Write))
        }
        _ => Wait::No,
    }
}

#[tactic(auto, unfolding(crate::specs::Wait::wait_of))]
pub fn wait_of(q: Queue, pool: &[u64], call: Call) -> Wait
    ensures { result ≡ wait_of q pool.now call }
{
    match call {
        Call::Push(line) => push_wait(q, line),
        Call::Steal(line) => steal_wait(q, pool, line),
        Call::Idle | Call::Length(_) | Call::Empty(_) => Wait::No,
    }
}

// Where the call stands after that many steps of waiting.
pub fn waited_call(call: Call, wait: Wait, left: u64) -> Call
    ensures { result ≡ waited_call call wait left }
{
    match wait {
        Wait::Turns(other) if left % 2 == 1 => other,
        _ => call,
    }
}

pub fn waits(wait: Wait) -> bool
    ensures { result ≡ waits wait }
{
    !matches!(wait, Wait::No)
}
