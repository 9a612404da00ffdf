// The begins of each call.
// (Queue, pool, thread and number stand so in the signature of each public entry, and go on so.)
#![tactic(auto)]

ghost use Rattle.std.specs.Prelude.{◌≡◌};
ghost use Rattle.machine.specs.Entry.{begin_entry};
ghost use Rattle.begin.specs.Asked.{tested_begin};

use calling::begun;
use entry::test_idle;
use machine::{Given, Request, not_given};
use state::{Kind, Queue, Refusal, Thread};

// Every refusal of a begin, in order.
#[tactic(auto, unfolding(crate::specs::Asked::tested_begin))]
fn test_begin(
    q: Queue,
    pool: &[u64],
    thread: Thread,
    number: u64,
    what: Request,
) -> Result<(), Refusal>
    ensures { result ≡ tested_begin q pool.now thread number what }
{
    test_idle(q, pool, thread, number)?;
    let kind = Kind::from(what);
    if !list::limit_good(kind) {
        return Err(Refusal::NoLimit);
    }
    if !list::room_good(kind, thread.ring.count) {
        return Err(Refusal::NoRoom);
    }
    Ok(())
}

// Opens a call at its first line; it makes no step.
#[tactic(auto, using(crate::specs::Asked::begin_refused, crate::specs::Asked::begin_begun))]
pub fn begin(q: Queue, pool: &[u64], thread: Thread, number: u64, what: Request) -> Given<()>
    ensures { result ≡ begin_entry q pool.now thread number what }
{
    if let Err(refusal) = test_begin(q, pool, thread, number, what) {
        return not_given(thread, refusal);
    }
    begun(thread, what)
}
