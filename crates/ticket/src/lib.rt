// P3 and P4: a block taken where one will be needed, and the ticket.
// Each function keeps its types and its `requires`: docs/ARCHITECTURE.md names it as its line's code.
#![tactic(auto)]

ghost use Rattle.std.specs.Prelude.{◌≡◌, ◌*◌, ◌≤◌};
ghost use Rattle.index.specs.Position.{position};
ghost use Rattle.memory.specs.Touch.{after};
ghost use Rattle.machine.specs.Push as spec;

use index::{BLOCK_CAP, Index};
use machine::{ends, to};
use state::{Answer, Made, PushLine, Queue, Refusal};

#[tactic(auto, unfolding(machine::specs::Push::p3))]
pub fn p3(q: Queue, pool: &mut [u64], token: u64, t: Index, b: u64) -> Made
    ensures value { result ≡ (spec.p3 q pool.old token t b).made }
    ensures pool_after { pool.new ≡ after pool.old (spec.p3 q pool.old token t b).touch }
{
    let took = supply::take(pool, q.blocks);
    match took {
        None => ends(q, Answer::Refused(Refusal::NoBlock)),
        Some(_) => to(q, PushLine::P4(token, t, b, took)),
    }
}

// The Rust's compare-exchange on the tail index. The bound is the BAD_STATE list's, which the entries
// test first: with it the new index fits.
#[tactic(auto, unfolding(machine::specs::Push::p4))]
pub fn p4(q: Queue, token: u64, t: Index, b: u64, held: Option<u64>) -> Made
    requires { position q.tail.raw ≤ 4294967295 * 64 }
    ensures { result ≡ (spec.p4 q token t b held).made }
{
    let seen = q.tail;
    if seen != t {
        return to(q, PushLine::P2(token, seen, held));
    }
    let new_tail = t.advance(1);
    let won = Queue {
        tail: new_tail,
        ..q
    };
    if t.offset() == BLOCK_CAP - 1 {
        if let Some(x) = held {
            return to(won, PushLine::P5(token, t, b, x));
        }
    }
    to(won, PushLine::P8(token, t, b, held))
}
