// P1 and P2: the loads of the tail.
// Each function keeps its types: docs/ARCHITECTURE.md names it as its line's code. The match of `p2` tells cases and chooses no line.
#![tactic(auto)]

ghost use Rattle.std.specs.Prelude.{◌≡◌};
ghost use Rattle.machine.specs.Push as spec;

use index::{BLOCK_CAP, Index};
use machine::{ends, to};
use state::{Answer, Made, PushLine, Queue, Refusal};

pub fn p1(q: Queue, token: u64, held: Option<u64>) -> Made
    ensures { result ≡ (spec.p1 q token held).made }
{
    let t = q.tail;
    to(q, PushLine::P2(token, t, held))
}

#[tactic(auto, unfolding(machine::specs::Push::p2))]
pub fn p2(q: Queue, token: u64, t: Index, held: Option<u64>) -> Made
    ensures { result ≡ (spec.p2 q token t held).made }
{
    let b = q.tail_block;
    let offset = t.offset();
    if offset == BLOCK_CAP {
        return to(q, PushLine::P1(token, held));
    }
    if q.ceiling <= t.lap() {
        return match held {
            None => ends(q, Answer::Refused(Refusal::Spent)),
            Some(x) => to(q, PushLine::P10(x, true)),
        };
    }
    if offset == BLOCK_CAP - 1 {
        return match held {
            None => to(q, PushLine::P3(token, t, b)),
            Some(_) => to(q, PushLine::P4(token, t, b, held)),
        };
    }
    to(q, PushLine::P4(token, t, b, held))
}
