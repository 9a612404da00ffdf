// How much of what lies between two indices a batch claims.
#![tactic(auto)]

ghost use Rattle.std.specs.Prelude.{◌≡◌};
ghost use Rattle.index.specs.Position.{position};
ghost use Rattle.index.specs.Length.{batch_advance, to_block_end};

use index::{BLOCK_CAP, Index};

// What a batch takes where the rest of the block is full: HAS_NEXT is set, or the tail is laps ahead.
pub fn to_block_end(head: Index, limit: u64) -> u64
    ensures { result ≡ to_block_end (position head.raw) limit }
{
    BLOCK_CAP.saturating_sub(head.offset()).min(limit)
}

// How many positions a batch claims from `head`, with the tail as it was loaded.
pub fn batch_advance(head: Index, tail: Index, limit: u64) -> u64
    ensures { result ≡ batch_advance head.raw tail.raw limit }
{
    if head.has_next() || head.lap() != tail.lap() {
        return to_block_end(head, limit);
    }
    let between = tail.position().saturating_sub(head.position());
    ((between + 1) / 2).min(limit)
}
