// P8 to P10: the token into its slot, the slot's mark, and a block still held back to the pool.
// Each function keeps its types: docs/ARCHITECTURE.md names it as its line's code.
ghost use Rattle.std.specs.Prelude.{◌≡◌};
ghost use Rattle.memory.specs.Touch.{after};
ghost use Rattle.machine.specs.Push as spec;

use index::Index;
use machine::{ends, to};
use memory::Mark;
use state::{Answer, Made, PushLine, Queue, Refusal};

pub fn p8(q: Queue, pool: &mut [u64], token: u64, t: Index, b: u64, held: Option<u64>) -> Made
    ensures value { result ≡ (spec.p8 q token t b held).made }
    ensures pool_after { pool.new ≡ after pool.old (spec.p8 q token t b held).touch }
{
    memory::write_token(pool, b, t.offset(), token);
    to(q, PushLine::P9(token, t, b, held))
}

#[tactic(auto, unfolding(machine::specs::Push::p9))]
pub fn p9(q: Queue, pool: &mut [u64], token: u64, t: Index, b: u64, held: Option<u64>) -> Made
    ensures value { result ≡ (spec.p9 q pool.old token t b held).made }
    ensures pool_after { pool.new ≡ after pool.old (spec.p9 q pool.old token t b held).touch }
{
    marks::fetch_or(pool, b, t.offset(), Mark::Write);
    match held {
        None => ends(q, Answer::Pushed),
        Some(x) => to(q, PushLine::P10(x, false)),
    }
}

pub fn p10(q: Queue, pool: &mut [u64], held: u64, spent: bool) -> Made
    ensures value { result ≡ (spec.p10 q held spent).made }
    ensures pool_after { pool.new ≡ after pool.old (spec.p10 q held spent).touch }
{
    memory::give_back(pool, held);
    if spent {
        return ends(q, Answer::Refused(Refusal::Spent));
    }
    ends(q, Answer::Pushed)
}
