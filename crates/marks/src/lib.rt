// The marks of a slot: the Rust's `fetch_or` on its state, and the bits of a state that was seen.
#![tactic(auto)]

ghost use Rattle.std.specs.Prelude.{◌≡◌};
ghost use Rattle.memory.specs.Layout.{state, bit, or, has};
ghost use Rattle.memory.specs.Touch.{after, writes_state};

use memory::{Mark, state, store};

// The value before is the answer.
pub fn fetch_or(pool: &mut [u64], block: u64, slot: u64, mark: Mark) -> u64
    ensures value { result ≡ state pool.old block slot }
    ensures pool_after { pool.new ≡ after pool.old (writes_state block slot (or (state pool.old block slot) mark)) }
{
    let before = state(pool, block, slot);
    let word = with_mark(before, mark);
    store(pool, block, slot.saturating_add(64), word);
    before
}

#[tactic(auto, using(crate::proofs::Bits::or_bit))]
fn with_mark(word: u64, mark: Mark) -> u64
    ensures { result ≡ or word mark }
{
    word | bit(mark)
}

// Whether a state that was seen has the bit.
#[tactic(auto, using(crate::proofs::Bits::and_bit))]
pub fn has(word: u64, mark: Mark) -> bool
    ensures { result ≡ has mark word }
{
    word & bit(mark) != 0
}

// (Named for its equation; the cast is all there is.)
fn bit(mark: Mark) -> u64
    ensures { result ≡ bit mark }
{
    mark as u64
}
