// A new queue over lent words.
#![tactic(auto)]

ghost use Rattle.std.specs.Prelude.{◌≡◌, length};
ghost use Rattle.machine.specs.Entry.{at_start, set_up, set_up_pool};

use index::Index;
use machine::Started;
use state::{Queue, Refusal};

fn at_start(threads: u64, blocks: u64, ceiling: u64) -> Queue
    ensures { result ≡ at_start threads blocks ceiling }
{
    Queue {
        head: Index { raw: 0 },
        head_block: 0,
        tail: Index { raw: 0 },
        tail_block: 0,
        ceiling,
        threads,
        blocks,
    }
}

// Block 0 is taken, head and tail stand at index 0 on it, all other blocks are free. (Three numbers and no struct of them: they
// go into the queue at once, one by one, and stand so in line 1 of a log.)
pub fn setup(threads: u64, blocks: u64, ceiling: u64, pool: &mut [u64]) -> Started
    ensures value { result ≡ set_up threads blocks ceiling (length pool.old) }
    ensures pool_after { pool.new ≡ set_up_pool threads blocks ceiling pool.old }
{
    let queue = at_start(threads, blocks, ceiling);
    if !list::setup_good(queue, pool.len() as u64) {
        return Started {
            queue,
            answer: Err(Refusal::BadSetup),
        };
    }
    supply::reset(pool, blocks);
    Started {
        queue,
        answer: Ok(()),
    }
}
