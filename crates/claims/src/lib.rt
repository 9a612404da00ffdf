// S1 to S4 of a steal: load the head, look whether there is something to take, claim it.
// Each function keeps its types and its `requires`: docs/ARCHITECTURE.md names it as its line's code.
#![tactic(auto)]

ghost use Rattle.std.specs.Prelude.{◌≡◌, true, ◌*◌, ◌≤◌};
ghost use Rattle.index.specs.Position.{position};
ghost use Rattle.state.specs.List.{claim_good};
ghost use Rattle.machine.specs.Steal as spec;

use batch::{batch_advance, to_block_end};
use index::{BLOCK_CAP, Index};
use machine::steals::{first, past};
use machine::{ends, to};
use span::same_position;
use state::{Answer, Claim, Kind, Made, Queue, StealLine};

// (Like the loads of `count`, but with its kind: one function of all would take the word and the line.)
pub fn s1(q: Queue, kind: Kind) -> Made
    ensures { result ≡ (spec.s1 q kind).made }
{
    let head = q.head;
    to(q, StealLine::S2(kind, head))
}

// The advance where HAS_NEXT is set: the rest of the block is full.
fn end_advance(kind: Kind, head: Index) -> u64
    ensures { result ≡ spec.end_advance kind head }
{
    match kind {
        Kind::Steal => 1,
        Kind::Batch(limit) | Kind::Take(limit) => to_block_end(head, limit),
    }
}

// The advance with the tail as it was loaded. (Not one with the other: each calls a function of its own, as its definition does.)
fn advance_of(kind: Kind, head: Index, tail: Index) -> u64
    ensures { result ≡ spec.advance_of kind head tail }
{
    match kind {
        Kind::Steal => 1,
        Kind::Batch(limit) | Kind::Take(limit) => batch_advance(head, tail, limit),
    }
}

#[tactic(auto, unfolding(machine::specs::Steal::s2))]
pub fn s2(q: Queue, kind: Kind, head: Index) -> Made
    ensures { result ≡ (spec.s2 q kind head).made }
{
    let block = q.head_block;
    if head.offset() == BLOCK_CAP {
        return to(q, StealLine::S1(kind));
    }
    if head.has_next() {
        let advance = end_advance(kind, head);
        let claim = Claim {
            head,
            block,
            advance,
        };
        return to(q, StealLine::S4(kind, claim, true));
    }
    to(q, StealLine::S3(kind, head, block))
}

#[tactic(auto, unfolding(machine::specs::Steal::s3))]
pub fn s3(q: Queue, kind: Kind, head: Index, block: u64) -> Made
    ensures { result ≡ (spec.s3 q kind head block).made }
{
    let tail = q.tail;
    if same_position(head, tail) {
        return ends(q, Answer::Empty);
    }
    let advance = advance_of(kind, head, tail);
    let claim = Claim {
        head,
        block,
        advance,
    };
    to(q, StealLine::S4(kind, claim, head.lap() != tail.lap()))
}

// The new head fits: the claim ends at the tail or before, and the tail's lap is at most the ceiling.
// An entry has tested both on the list.
#[tactic(auto, unfolding(machine::specs::Steal::s4))]
pub fn s4(q: Queue, kind: Kind, claim: Claim, next: bool) -> Made
    requires claim_value { claim_good q claim ≡ true }
    requires raw_bound { position q.tail.raw ≤ 4294967295 * 64 }
    ensures { result ≡ (spec.s4 q kind claim next).made }
{
    let seen = q.head;
    let head = claim.head;
    if seen != head {
        return ends(q, Answer::Retry);
    }
    let new_head = head.advance(claim.advance).with_next(next);
    let moved = Queue {
        head: new_head,
        ..q
    };
    if past(claim) == BLOCK_CAP {
        return to(moved, StealLine::S5(kind, claim));
    }
    let slot = first(claim);
    to(moved, StealLine::S9(kind, claim, slot))
}
