// The lines of a push, P1 to P10: one function a line, one shared access each.
// The function keeps its types and its `requires`: docs/ARCHITECTURE.md names it as the step of a push.
#![tactic(auto)]

ghost use Rattle.std.specs.Prelude.{◌≡◌, true, ◌*◌, ◌≤◌};
ghost use Rattle.index.specs.Position.{position};
ghost use Rattle.memory.specs.Touch.{after};
ghost use Rattle.state.specs.List.{push_good};
ghost use Rattle.machine.specs.Push as spec;

use state::{Made, PushLine, Queue};

// Both `requires` say that no sum of a line wraps. The entries test the BAD_STATE list, which has both,
// before they make a step.
#[tactic(auto, using(crate::proofs::Loads::loads))]
pub fn step(q: Queue, pool: &mut [u64], line: PushLine) -> Made
    requires line_value { push_good q line ≡ true }
    requires raw_bound { position q.tail.raw ≤ 4294967295 * 64 }
    ensures value { result ≡ (spec.push q pool.old line).made }
    ensures pool_after { pool.new ≡ after pool.old (spec.push q pool.old line).touch }
{
    // a match, not closures: a thread's record keeps its line, and `push_good` and the promise's proofs case on it
    match line {
        PushLine::P1(token, held) => loading::p1(q, token, held),
        PushLine::P2(token, t, held) => loading::p2(q, token, t, held),
        PushLine::P3(token, t, b) => ticket::p3(q, pool, token, t, b),
        PushLine::P4(token, t, b, held) => ticket::p4(q, token, t, b, held),
        PushLine::P5(token, t, b, held) => deliver::p5(q, token, t, b, held),
        PushLine::P6(token, t, b, held) => deliver::p6(q, token, t, b, held),
        PushLine::P7(token, t, b, held) => deliver::p7(q, pool, token, t, b, held),
        PushLine::P8(token, t, b, held) => deliver::p8(q, pool, token, t, b, held),
        PushLine::P9(token, t, b, held) => deliver::p9(q, pool, token, t, b, held),
        PushLine::P10(held, spent) => deliver::p10(q, pool, held, spent),
    }
}
