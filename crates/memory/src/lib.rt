// The lent words of the pool. A read past the end is 0 and a store past the end changes nothing, so that
// no function here asks anything of its caller but that a sum or a product fits.
// Blocks are named by number: the memory is lent, its layout is published (specs/Layout.antt), and there is no heap.
#![tactic(auto)]

ghost use Rattle.std.specs.Prelude.{◌≡◌, ℕ, ◌+◌, ◌*◌, ◌<◌, ◌≤◌, ◌-◌, ◌^◌, get_or, set, min};
ghost use Rattle.memory.specs.Layout.{token, state, next, is_free};
ghost use Rattle.memory.specs.Touch.{after, writes_token, links, frees};
ghost use Rattle.memory.specs.Pool.{pool_len, table_len};

pub const BLOCK_WORDS: u64 = 128;

// The bits of a slot's state.
#[derive(Clone, Copy)]
pub enum Mark {
    Write = 1,
    Read = 2,
    Destroy = 4,
}

// Where a word of a block stands. No lent memory reaches as far as the largest number.
fn address(block: u64, place: u64) -> usize
    ensures { result ≡ min (block * 128 + place) (2 ^ 64 - 1) }
{
    block.saturating_mul(BLOCK_WORDS).saturating_add(place) as usize
}

fn read(pool: &[u64], block: u64, place: u64) -> u64
    ensures { result ≡ get_or pool.now (block * 128 + place) 0 }
{
    pool.get(address(block, place)).copied().unwrap_or(0)
}

pub fn store(pool: &mut [u64], block: u64, place: u64, word: u64)
    ensures { pool.new ≡ set pool.old (block * 128 + place) word }
{
    let at = address(block, place);
    // an index: `get_mut` of a slice says nothing of what the slice ends as
    if at < pool.len() {
        pool[at] = word;
    }
}

pub fn token(pool: &[u64], block: u64, slot: u64) -> u64
    ensures { result ≡ token pool.now block slot }
{
    read(pool, block, slot)
}

pub fn write_token(pool: &mut [u64], block: u64, slot: u64, token: u64)
    ensures { pool.new ≡ after pool.old (writes_token block slot token) }
{
    store(pool, block, slot, token);
}

pub fn state(pool: &[u64], block: u64, slot: u64) -> u64
    ensures { result ≡ state pool.now block slot }
{
    read(pool, block, slot.saturating_add(64))
}

pub fn next(pool: &[u64], block: u64) -> Option<u64>
    ensures { result ≡ next pool.now block }
{
    read(pool, block, 63).checked_sub(1)
}

// `next` is stored as one more. The sum must fit, and a block's number is below the pool's size, far below the largest.
pub fn set_next(pool: &mut [u64], block: u64, next: u64)
    requires { next + 1 < 2 ^ 64 }
    ensures { pool.new ≡ after pool.old (links block next) }
{
    store(pool, block, 63, next + 1);
}

pub fn is_free(pool: &[u64], block: u64) -> bool
    ensures { result ≡ is_free pool.now block }
{
    read(pool, block, 127) == 1
}

// Only the free mark changes: a block is cleared when it is taken.
pub fn give_back(pool: &mut [u64], block: u64)
    ensures { pool.new ≡ after pool.old (frees block) }
{
    store(pool, block, 127, 1);
}

// The right length of the pool's words. The product must fit: 8192 blocks are the most that 1,048,576 words hold.
pub fn pool_len(threads: u64, blocks: u64) -> u64
    requires { blocks ≤ 8192 }
    ensures { result ≡ pool_len threads blocks }
{
    blocks * BLOCK_WORDS
}

// The right length of the table of thread records. (Both lengths take both counts, as the definitions do: they are published so.)
pub fn table_len(threads: u64, blocks: u64) -> u64
    ensures { result ≡ table_len threads blocks }
{
    threads
}
