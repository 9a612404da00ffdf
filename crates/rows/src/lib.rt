// What the table's entry tests before it takes a record out: the sizes of what is lent, the list over every record, and
// the thread's number.
#![tactic(auto)]

ghost use Rattle.std.specs.Prelude.{◌≡◌, ◌&&◌, ltb, drop};
ghost use Rattle.state.specs.List.{shared_good, nexts_good};
ghost use Rattle.rows.specs.Rows.{sizes_good, all_good};

use state::{Queue, Thread};

#[tactic(auto, unfolding(crate::specs::Rows::sizes_good))]
pub fn sizes_good(q: Queue, records: u64, words: u64) -> bool
    ensures { result ≡ sizes_good q records words }
{
    list::setup_good(q, words) && records == memory::table_len(q.threads, q.blocks)
}

pub fn shared_good(q: Queue, pool: &[u64]) -> bool
    ensures { result ≡ (shared_good q && nexts_good pool.now q.blocks q.blocks) }
{
    list::shared_good(q) && list::nexts_good(pool, q.blocks)
}

// Every record from the i-th on: its theorem in outcome, `says_is`, names `i`, so it stays.
pub fn all_good(q: Queue, table: &[Thread], i: usize) -> bool
    ensures { result ≡ all_good q (drop i table.now) }
{
    table
        .iter()
        .skip(i)
        .all(|thread| list::record_good(q, *thread))
}

pub fn has_thread(q: Queue, number: u64) -> bool
    ensures { result ≡ ltb number q.threads }
{
    number < q.threads
}
