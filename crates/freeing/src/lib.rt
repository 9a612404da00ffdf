// S11 to S14 of a steal: mark the claimed slots read, and destroy the block: the walk down, and its return to the pool.
// Each function keeps its types and its `requires`: docs/ARCHITECTURE.md names it as its line's code.
#![tactic(auto)]

ghost use Rattle.std.specs.Prelude.{◌≡◌, true};
ghost use Rattle.memory.specs.Touch.{after};
ghost use Rattle.state.specs.List.{claim_good, in_claim};
ghost use Rattle.machine.specs.Steal as spec;

use machine::steals::{first, past, walk_below};
use machine::{ends, to};
use memory::Mark;
use state::{Answer, Claim, Made, Queue, StealLine, Won};

// The slot is one of the claim, and the claim in its block: tested on the list, so that no sum wraps.
#[tactic(auto, unfolding(machine::specs::Steal::s11))]
pub fn s11(q: Queue, pool: &mut [u64], won: Won, claim: Claim, slot: u64) -> Made
    requires claim_value { claim_good q claim ≡ true }
    requires slot_value { in_claim claim slot ≡ true }
    ensures value { result ≡ (spec.s11 q pool.old won claim slot).made }
    ensures pool_after { pool.new ≡ after pool.old (spec.s11 q pool.old won claim slot).touch }
{
    let before = marks::fetch_or(pool, claim.block, slot, Mark::Read);
    if marks::has(before, Mark::Destroy) {
        let lowest = first(claim);
        return to(q, walk_below(won, claim.block, lowest));
    }
    if slot + 1 == past(claim) {
        return ends(q, Answer::from(won));
    }
    to(q, StealLine::S11(won, claim, slot + 1))
}

#[tactic(auto, unfolding(machine::specs::Steal::s12))]
pub fn s12(q: Queue, pool: &[u64], won: Won, block: u64, slot: u64) -> Made
    ensures { result ≡ (spec.s12 q pool.now won block slot).made }
{
    let state = memory::state(pool, block, slot);
    if marks::has(state, Mark::Read) {
        return to(q, walk_below(won, block, slot));
    }
    to(q, StealLine::S13(won, block, slot))
}

#[tactic(auto, unfolding(machine::specs::Steal::s13))]
pub fn s13(q: Queue, pool: &mut [u64], won: Won, block: u64, slot: u64) -> Made
    ensures value { result ≡ (spec.s13 q pool.old won block slot).made }
    ensures pool_after { pool.new ≡ after pool.old (spec.s13 q pool.old won block slot).touch }
{
    let before = marks::fetch_or(pool, block, slot, Mark::Destroy);
    if marks::has(before, Mark::Read) {
        return to(q, walk_below(won, block, slot));
    }
    ends(q, Answer::from(won))
}

pub fn s14(q: Queue, pool: &mut [u64], won: Won, block: u64) -> Made
    ensures value { result ≡ (spec.s14 q won block).made }
    ensures pool_after { pool.new ≡ after pool.old (spec.s14 q won block).touch }
{
    memory::give_back(pool, block);
    ends(q, Answer::from(won))
}
