// S5 to S8 of a steal: a claim that ends its block moves the head on to the next block.
// Each function keeps its types and its `requires`: docs/ARCHITECTURE.md names it as its line's code.
#![tactic(auto)]

ghost use Rattle.std.specs.Prelude.{◌≡◌, true, ◌*◌, ◌≤◌};
ghost use Rattle.index.specs.Position.{position};
ghost use Rattle.state.specs.List.{claim_good};
ghost use Rattle.machine.specs.Steal as spec;

use machine::steals::first;
use machine::to;
use state::{Claim, Kind, Made, Queue, StealLine};

#[tactic(auto, unfolding(machine::specs::Steal::s5))]
pub fn s5(q: Queue, pool: &[u64], kind: Kind, claim: Claim) -> Made
    ensures { result ≡ (spec.s5 q pool.now kind claim).made }
{
    let next = memory::next(pool, claim.block);
    match next {
        None => to(q, StealLine::S5(kind, claim)),
        Some(block) => to(q, StealLine::S6(kind, claim, block)),
    }
}

pub fn s6(q: Queue, pool: &[u64], kind: Kind, claim: Claim, next: u64) -> Made
    ensures { result ≡ (spec.s6 q pool.now kind claim next).made }
{
    let beyond = memory::next(pool, next);
    to(q, StealLine::S7(kind, claim, next, beyond.is_some()))
}

pub fn s7(q: Queue, kind: Kind, claim: Claim, next: u64, more: bool) -> Made
    ensures { result ≡ (spec.s7 q kind claim next more).made }
{
    let moved = Queue {
        head_block: next,
        ..q
    };
    to(moved, StealLine::S8(kind, claim, more))
}

// The next index fits: the claim ends at the tail or before, and the tail's lap is at most the ceiling.
// An entry has tested both on the list.
pub fn s8(q: Queue, kind: Kind, claim: Claim, more: bool) -> Made
    requires claim_value { claim_good q claim ≡ true }
    requires raw_bound { position q.tail.raw ≤ 4294967295 * 64 }
    ensures { result ≡ (spec.s8 q kind claim more).made }
{
    let head = claim.head;
    let next_index = head.advance(claim.advance).leave_lap(more);
    let moved = Queue {
        head: next_index,
        ..q
    };
    let slot = first(claim);
    to(moved, StealLine::S9(kind, claim, slot))
}
