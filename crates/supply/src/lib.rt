// The pool's supply of blocks: the lowest free one is taken, cleared; and the pool as setup leaves it.
#![tactic(auto)]

ghost use Rattle.std.specs.Prelude.{◌≡◌, length};
ghost use Rattle.memory.specs.Touch.{after, clears};
ghost use Rattle.memory.specs.Pool.{pick, taking, fresh};

use memory::{BLOCK_WORDS, give_back, is_free, store};

#[tactic(auto, using(memory::specs::Lists::sets_more), unfolding(memory::specs::Touch::cleared))]
fn clear(pool: &mut [u64], block: u64)
    ensures { pool.new ≡ after pool.old (clears block) }
{
    // no `fill`: both ends of the part would have to be cut to the pool's, where a store past the end changes nothing
    for place in 0..BLOCK_WORDS {
        store(pool, block, place, 0);
    }
}

fn find_free(pool: &[u64], blocks: u64) -> Option<u64>
    ensures { result ≡ pick pool.now blocks }
{
    (0..blocks).find(|&block| is_free(pool, block))
}

// The lowest-numbered free block of `blocks`, cleared to zeros and no next, and so not free any more.
pub fn take(pool: &mut [u64], blocks: u64) -> Option<u64>
    ensures value { result ≡ pick pool.old blocks }
    ensures pool_after { pool.new ≡ after pool.old (taking (pick pool.old blocks)) }
{
    let found = find_free(pool, blocks);
    if let Some(block) = found {
        clear(pool, block);
    }
    found
}

// The words of a pool with block 0 in use and all others free.
#[tactic(auto, using(crate::proofs::Searching::freed_more), unfolding(memory::specs::Pool::freed))]
pub fn reset(pool: &mut [u64], blocks: u64)
    ensures { pool.new ≡ fresh (length pool.old) blocks }
{
    pool.fill(0);
    for block in 1..blocks {
        give_back(pool, block);
    }
}
