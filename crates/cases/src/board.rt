// The board: the shared words and what is lent; and the table of the threads' records, of which the first few are lent to the
// step entry.
ghost use Rattle.std.specs.Prelude.{◌≡◌, ◌++◌, ◌≤◌, length, take, drop};
ghost use Rattle.tabled.specs.Table.{table_entry};

use crate::reads::or_largest;
use index::Index;
use injector::TableStep;
use state::{Queue, Thread};

#[derive(Clone, Copy)]
pub(crate) struct Board {
    pub(crate) queue: Queue,
    // how many records and words are lent
    pub(crate) records: u64,
    pub(crate) words: u64,
    // in the ring of a thread of its own
    pub(crate) tokens: u64,
}

impl Board {
    // The numbers of a `Board` line.
    pub(crate) fn of(numbers: [Option<u64>; 10]) -> Board {
        let [
            head,
            head_block,
            tail,
            tail_block,
            ceiling,
            threads,
            blocks,
            records,
            words,
            tokens,
        ] = numbers.map(or_largest);
        Board {
            queue: Queue {
                head: Index { raw: head },
                head_block,
                tail: Index { raw: tail },
                tail_block,
                ceiling,
                threads,
                blocks,
            },
            records,
            words,
            tokens,
        }
    }

    // So many words of the pool, and not more than it has.
    pub(crate) fn lent(self, pool: &mut [u64]) -> &mut [u64] {
        let most = pool.len();
        &mut pool[..most.min(self.words as usize)]
    }
}

// What the step entry gave back, and the table.
#[derive(Clone, Copy)]
pub(crate) struct Lent {
    pub(crate) step: TableStep,
    pub(crate) table: [Thread; 8],
}

// The owner of a table lends the first `records` of it. (An array and a count: its contract is over both.)
pub(crate) fn lend(
    q: Queue,
    records: usize,
    all: [Thread; 8],
    pool: &mut [u64],
    number: u64,
) -> Lent
    requires { records ≤ 8 }
    ensures { (result.step ≡ (table_entry q (take records all) pool.old number).stepped) × ((result.table ≡ (table_entry q (take records all) pool.old number).table ++ drop records all) × (pool.new ≡ (table_entry q (take records all) pool.old number).pool)) }
{
    let mut own = all;
    let step = injector::step_table(q, &mut own[..records], pool, number);
    Lent { step, table: own }
}
