// P5 to P7: whoever took the block's last ticket installs the next block, its index after it.
// Each function keeps its types and its `requires`: docs/ARCHITECTURE.md names it as its line's code.
ghost use Rattle.std.specs.Prelude.{◌≡◌, true, ◌*◌, ◌≤◌};
ghost use Rattle.index.specs.Position.{position};
ghost use Rattle.memory.specs.Touch.{after};
ghost use Rattle.state.specs.List.{push_good};
ghost use Rattle.machine.specs.Push as spec;

use index::Index;
use machine::to;
use state::{Made, PushLine, Queue};

pub fn p5(q: Queue, token: u64, t: Index, b: u64, next: u64) -> Made
    ensures { result ≡ (spec.p5 q token t b next).made }
{
    let stored = Queue {
        tail_block: next,
        ..q
    };
    to(stored, PushLine::P6(token, t, b, next))
}

// Past the offset that holds no token. The index fits, as at P4.
#[tactic(auto, unfolding(state::specs::List::push_good))]
pub fn p6(q: Queue, token: u64, t: Index, b: u64, next: u64) -> Made
    requires next_value { push_good q (PushLine.P6 token t b next) ≡ true }
    requires raw_bound { position q.tail.raw ≤ 4294967295 * 64 }
    ensures { result ≡ (spec.p6 q token t b next).made }
{
    let next_index = t.advance(2);
    let stored = Queue {
        tail: next_index,
        ..q
    };
    to(stored, PushLine::P7(token, t, b, next))
}

// The block's word is one more than its number, and fits: `push_good` has it below the pool size.
#[tactic(auto, unfolding(state::specs::List::push_good))]
pub fn p7(q: Queue, pool: &mut [u64], token: u64, t: Index, b: u64, next: u64) -> Made
    requires { push_good q (PushLine.P7 token t b next) ≡ true }
    ensures value { result ≡ (spec.p7 q token t b next).made }
    ensures pool_after { pool.new ≡ after pool.old (spec.p7 q token t b next).touch }
{
    memory::set_next(pool, b, next);
    to(q, PushLine::P8(token, t, b, None))
}
