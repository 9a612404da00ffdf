// The thin step entry over a lent table of thread records: it takes one record out, steps it by value and stores it
// back. It asks nothing of its caller, and a refused entry changes neither the table nor the pool.
#![tactic(auto)]

ghost use Rattle.std.specs.Prelude.{◌≡◌};
ghost use Rattle.tabled.specs.Table.{table_entry};

use rows::{all_good, has_thread, shared_good, sizes_good};
use state::{Queue, Refusal, Thread};
pub use tabled::TableStep;
use tabled::refused;

// One shared access of the open call of the table's record `number`. That no call is open is refused by the step.
#[tactic(auto, using(tabled::proofs::Laws::within), unfolding(tabled::specs::Table::table_entry))]
pub fn step_table(q: Queue, table: &mut [Thread], pool: &mut [u64], number: u64) -> TableStep
    ensures { (result ≡ (table_entry q table.old pool.old number).stepped) × ((table.new ≡ (table_entry q table.old pool.old number).table) × (pool.new ≡ (table_entry q table.old pool.old number).pool)) }
{
    if !sizes_good(q, table.len() as u64, pool.len() as u64) {
        return refused(q, Refusal::BadSetup);
    }
    if !shared_good(q, pool) || !all_good(q, table, 0) {
        return refused(q, Refusal::BadState);
    }
    if !has_thread(q, number) {
        return refused(q, Refusal::NoThread);
    }
    let at = number as usize;
    let ran = step::step(q, pool, table[at], number);
    table[at] = ran.thread;
    ran.into()
}
