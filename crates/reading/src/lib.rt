// S9 and S10 of a steal: wait for each claimed slot, read it, and hand the tokens over with the last.
// Each function keeps its types and its `requires`: docs/ARCHITECTURE.md names it as its line's code.
#![tactic(auto)]

ghost use Rattle.std.specs.Prelude.{◌≡◌, true, ◌≤◌};
ghost use Rattle.state.specs.List.{steal_good};
ghost use Rattle.machine.specs.Steal as spec;

use index::BLOCK_CAP;
use machine::steals::{first, past, walk_below};
use machine::to;
use memory::Mark;
use state::{Answer, Call, Claim, Kind, Made, Queue, StealLine, Stepped, Thread, Won};

#[tactic(auto, unfolding(machine::specs::Steal::s9))]
pub fn s9(q: Queue, pool: &[u64], kind: Kind, claim: Claim, slot: u64) -> Made
    ensures { result ≡ (spec.s9 q pool.now kind claim slot).made }
{
    let state = memory::state(pool, claim.block, slot);
    if marks::has(state, Mark::Write) {
        return to(q, StealLine::S10(kind, claim, slot));
    }
    to(q, StealLine::S9(kind, claim, slot))
}

// The first token of a steal or batch-and-pop is the answer.
fn won_of(kind: Kind, taken: [u64; 63]) -> Won
    ensures { result ≡ spec.won_of kind taken }
{
    let task = taken[0];
    match kind {
        Kind::Steal | Kind::Take(_) => Won::Task(task),
        Kind::Batch(_) => Won::Moved,
    }
}

// The place of the first token that enters the ring: a place in `taken`, and no number of the kind.
fn enters_from(kind: Kind) -> u64
    ensures { result ≡ spec.enters_from kind }
{
    match kind {
        Kind::Steal | Kind::Take(_) => 1,
        Kind::Batch(_) => 0,
    }
}

// A claim that ended its block destroys it; another marks its slots.
fn after_reads(won: Won, claim: Claim) -> StealLine
    requires { spec.past claim ≤ 63 }
    ensures { result ≡ spec.after_reads won claim }
{
    let slot = first(claim);
    if past(claim) == BLOCK_CAP {
        return walk_below(won, claim.block, slot);
    }
    StealLine::S11(won, claim, slot)
}

// The list was tested before the step: the slot is one of the claim, so that its place is one of `taken`,
// and the ring has room for what it is handed.
#[tactic(auto, using(machine::specs::StealLaws::reads), unfolding(machine::specs::Steal::s10, state::specs::List::steal_good))]
pub fn s10(q: Queue, pool: &[u64], thread: Thread, kind: Kind, claim: Claim, slot: u64) -> Stepped
    requires slot_value { steal_good q thread.ring.count (StealLine.S10 kind claim slot) ≡ true }
    requires count_bound { thread.ring.count ≤ 64 }
    ensures { result ≡ spec.s10 q pool.now thread kind claim slot }
{
    let task = memory::token(pool, claim.block, slot);
    let mut taken = thread.taken;
    let at = (slot - first(claim)) as usize;
    taken[at] = task;
    let mut ring = thread.ring;
    let mut line = StealLine::S9(kind, claim, slot + 1);
    if slot + 1 == past(claim) {
        ring = ring.enter(taken, enters_from(kind), claim.advance);
        line = after_reads(won_of(kind, taken), claim);
    }
    Stepped {
        queue: q,
        thread: Thread {
            ring,
            call: Call::Steal(line),
            taken,
        },
        answer: Answer::Open,
    }
}
