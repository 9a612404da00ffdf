// How long the chain of blocks is: the links are followed from the head's block to the tail's.
#![tactic(auto)]

ghost use Rattle.std.specs.Prelude.{◌≡◌, ◌+◌, ◌<◌, ◌^◌};
ghost use Rattle.machine.specs.Audit.{chase, audit_entry};

use state::{Queue, Refusal};

// `met` blocks were met, `at` the last of them; the links left fall with each call. What is asked is that the
// count fits: both together are the pool's blocks. (A call and no loop: document 01 names this form for this place.)
fn chase(pool: &[u64], at: u64, tail: u64, met: u64, left: u64) -> Result<Option<u64>, Refusal>
    requires { met + left < 2 ^ 64 }
    ensures { result ≡ chase left pool.now at tail met }
{
    if at == tail {
        return Ok(Some(met));
    }
    if left == 0 {
        return Ok(None);
    }
    match memory::next(pool, at) {
        None => Ok(None),
        Some(block) => chase(pool, block, tail, met + 1, left - 1),
    }
}

// It changes nothing.
#[tactic(auto, using(machine::specs::TestLaws::counted), unfolding(machine::specs::Audit::audit_entry))]
pub fn audit(q: Queue, pool: &[u64]) -> Result<Option<u64>, Refusal>
    ensures { result ≡ audit_entry q pool.now }
{
    if !list::setup_good(q, pool.len() as u64) {
        return Err(Refusal::BadSetup);
    }
    if !list::shared_good(q) || !list::nexts_good(pool, q.blocks) {
        return Err(Refusal::BadState);
    }
    chase(pool, q.head_block, q.tail_block, 1, q.blocks - 1)
}
