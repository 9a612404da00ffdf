// The lines of a steal and of both batches, S1 to S14: one function a line, one shared access each.
// The function keeps its types and its `requires`: docs/ARCHITECTURE.md names it as the step of a steal or a batch.
#![tactic(auto)]

ghost use Rattle.std.specs.Prelude.{◌≡◌, true, ◌*◌, ◌≤◌};
ghost use Rattle.index.specs.Position.{position};
ghost use Rattle.memory.specs.Touch.{after};
ghost use Rattle.state.specs.List.{steal_good};
ghost use Rattle.machine.specs.Steal as spec;

use claims::{s1, s2, s3, s4};
use freeing::{s11, s12, s13, s14};
use leaving::{s5, s6, s7, s8};
use reading::{s9, s10};
use state::{Queue, StealLine, Stepped, Thread, settle};

// One step of a call that stands at `line`. What it asks is of the list, which an entry tests before it
// makes a step: the line's claim and slot, the room in the ring, and a tail that is not past the last lap.
#[tactic(auto, using(crate::proofs::Loads::loads), unfolding(state::specs::List::steal_good))]
pub fn step(q: Queue, pool: &mut [u64], thread: Thread, line: StealLine) -> Stepped
    requires line_value { steal_good q thread.ring.count line ≡ true }
    requires count_bound { thread.ring.count ≤ 64 }
    requires raw_bound { position q.tail.raw ≤ 4294967295 * 64 }
    ensures value { result ≡ (spec.steal q pool.old thread line).stepped }
    ensures pool_after { pool.new ≡ after pool.old (spec.steal q pool.old thread line).touch }
{
    // a match, not closures: a thread's record keeps its line, and `steal_good` and the promise's proofs case on it
    // one call after it: a call in every arm costs the proof twice the time
    let landed = match line {
        StealLine::S1(kind) => s1(q, kind),
        StealLine::S2(kind, head) => s2(q, kind, head),
        StealLine::S3(kind, head, block) => s3(q, kind, head, block),
        StealLine::S4(kind, claim, next) => s4(q, kind, claim, next),
        StealLine::S5(kind, claim) => s5(q, pool, kind, claim),
        StealLine::S6(kind, claim, next) => s6(q, pool, kind, claim, next),
        StealLine::S7(kind, claim, next, more) => s7(q, kind, claim, next, more),
        StealLine::S8(kind, claim, more) => s8(q, kind, claim, more),
        StealLine::S9(kind, claim, slot) => s9(q, pool, kind, claim, slot),
        StealLine::S10(kind, claim, slot) => return s10(q, pool, thread, kind, claim, slot),
        StealLine::S11(won, claim, slot) => s11(q, pool, won, claim, slot),
        StealLine::S12(won, block, slot) => s12(q, pool, won, block, slot),
        StealLine::S13(won, block, slot) => s13(q, pool, won, block, slot),
        StealLine::S14(won, block) => s14(q, pool, won, block),
    };
    settle(thread, landed)
}
