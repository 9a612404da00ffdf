// The list's items that a record's call carries: its block numbers, the indices it loaded, its claim and its slot.
// Each match tells the cases of an enum and its test for each; none chooses a step to run.
#![tactic(auto)]

ghost use Rattle.std.specs.Prelude.{◌≡◌, ◌&&◌, ◌+◌, min, leb};
ghost use Rattle.state.specs.List.{block_good, held_good, loaded_good, slot_good, holds_at_last, push_good, limit_good, room_good, within_limit, claim_good, in_claim, open_good, claim_open, steal_good, length_good, empty_good};

use index::Index;
use state::{Claim, EmptyLine, Kind, LengthLine, PushLine, Queue, StealLine};

// (A steal has no limit but an advance of 1; the or-pattern says it, here and below, and a function of the kind's limit is no plainer.)
pub fn limit_good(kind: Kind) -> bool
    ensures { result ≡ limit_good kind }
{
    match kind {
        Kind::Steal => true,
        Kind::Batch(limit) | Kind::Take(limit) => 1 <= limit,
    }
}

// Whether a ring of `cells` has room for a batch beside its `count` tokens. The sum of the two might wrap.
fn fits(count: u64, limit: u64, cells: u64) -> bool
    ensures { result ≡ leb (count + min limit 63) cells }
{
    count <= cells && limit.min(index::BLOCK_CAP) <= cells - count
}

pub fn room_good(kind: Kind, count: u64) -> bool
    ensures { result ≡ room_good kind count }
{
    match kind {
        Kind::Steal => true,
        Kind::Batch(limit) => fits(count, limit, ring::RING_CAP),
        // the first token is the answer, and enters no ring
        Kind::Take(limit) => fits(count, limit, ring::RING_CAP + 1),
    }
}

fn block_good(q: Queue, block: u64) -> bool
    ensures { result ≡ block_good q block }
{
    block < q.blocks
}

fn held_good(q: Queue, held: Option<u64>) -> bool
    ensures { result ≡ held_good q held }
{
    held.is_none_or(|block| block_good(q, block))
}

fn loaded_good(q: Queue, i: Index) -> bool
    ensures { result ≡ loaded_good q i }
{
    i.position() <= q.tail.position()
}

fn slot_good(q: Queue, i: Index) -> bool
    ensures { result ≡ slot_good q i }
{
    loaded_good(q, i) && i.offset() < index::BLOCK_CAP
}

// What every line past its P2 or S2 carries.
fn place_good(q: Queue, i: Index, block: u64) -> bool
    ensures { result ≡ (slot_good q i && block_good q block) }
{
    slot_good(q, i) && block_good(q, block)
}

fn holds_at_last(t: Index, held: Option<u64>) -> bool
    ensures { result ≡ holds_at_last t held }
{
    held.is_some() || t.offset() != 62
}

#[tactic(auto, unfolding(state::specs::List::push_good))]
pub fn push_good(q: Queue, line: PushLine) -> bool
    ensures { result ≡ push_good q line }
{
    match line {
        PushLine::P1(_, held) => held_good(q, held),
        PushLine::P2(_, t, held) => loaded_good(q, t) && held_good(q, held),
        PushLine::P3(_, t, block) => place_good(q, t, block),
        PushLine::P4(_, t, block, held) => {
            place_good(q, t, block) && held_good(q, held) && holds_at_last(t, held)
        }
        PushLine::P5(_, t, block, held)
        | PushLine::P6(_, t, block, held)
        | PushLine::P7(_, t, block, held) => place_good(q, t, block) && block_good(q, held),
        PushLine::P8(_, t, block, held) | PushLine::P9(_, t, block, held) => {
            place_good(q, t, block) && held_good(q, held)
        }
        PushLine::P10(held, _) => block_good(q, held),
    }
}

fn within_limit(kind: Kind, advance: u64) -> bool
    ensures { result ≡ within_limit kind advance }
{
    match kind {
        Kind::Steal => advance == 1,
        Kind::Batch(limit) | Kind::Take(limit) => advance <= limit,
    }
}

// The claim's two ends are tested by what is left before each, for a sum with the advance might wrap.
fn claim_good(q: Queue, claim: Claim) -> bool
    ensures { result ≡ claim_good q claim }
{
    let head = claim.head;
    let advance = claim.advance;
    place_good(q, head, claim.block)
        && 1 <= advance
        && advance <= index::BLOCK_CAP - head.offset()
        && advance <= q.tail.position() - head.position()
}

fn in_claim(claim: Claim, slot: u64) -> bool
    ensures { result ≡ in_claim claim slot }
{
    let first = claim.head.offset();
    first <= slot && slot - first < claim.advance
}

fn open_good(kind: Kind, count: u64) -> bool
    ensures { result ≡ open_good kind count }
{
    limit_good(kind) && room_good(kind, count)
}

fn claim_open(q: Queue, count: u64, kind: Kind, claim: Claim) -> bool
    ensures { result ≡ claim_open q count kind claim }
{
    open_good(kind, count) && claim_good(q, claim) && within_limit(kind, claim.advance)
}

#[tactic(auto, unfolding(state::specs::List::steal_good))]
pub fn steal_good(q: Queue, count: u64, line: StealLine) -> bool
    ensures { result ≡ steal_good q count line }
{
    match line {
        StealLine::S1(k) => open_good(k, count),
        StealLine::S2(k, h) => open_good(k, count) && loaded_good(q, h),
        StealLine::S3(k, h, block) => open_good(k, count) && place_good(q, h, block),
        StealLine::S4(k, c, _) | StealLine::S5(k, c) | StealLine::S8(k, c, _) => {
            claim_open(q, count, k, c)
        }
        StealLine::S6(k, c, next) | StealLine::S7(k, c, next, _) => {
            claim_open(q, count, k, c) && block_good(q, next)
        }
        StealLine::S9(k, c, slot) | StealLine::S10(k, c, slot) => {
            claim_open(q, count, k, c) && in_claim(c, slot)
        }
        StealLine::S11(_, c, slot) => claim_good(q, c) && in_claim(c, slot),
        StealLine::S12(_, block, slot) | StealLine::S13(_, block, slot) => {
            block_good(q, block) && slot < index::BLOCK_CAP
        }
        StealLine::S14(_, block) => block_good(q, block),
    }
}

#[tactic(auto, unfolding(state::specs::List::length_good))]
pub fn length_good(q: Queue, line: LengthLine) -> bool
    ensures { result ≡ length_good q line }
{
    match line {
        LengthLine::L1 => true,
        LengthLine::L2(t) => loaded_good(q, t),
        LengthLine::L3(t, h) => loaded_good(q, t) && loaded_good(q, h),
    }
}

#[tactic(auto, unfolding(state::specs::List::empty_good))]
pub fn empty_good(q: Queue, line: EmptyLine) -> bool
    ensures { result ≡ empty_good q line }
{
    match line {
        EmptyLine::E1 => true,
        EmptyLine::E2(h) => loaded_good(q, h),
    }
}
