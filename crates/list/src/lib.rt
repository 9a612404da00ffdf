// The BAD_STATE list, tested item by item in the order of its definition (state, specs/List.antt), and BAD_SETUP before it. Each
// function answers true where its part of the list is not broken, and no test asks anything of what it is handed.
// The match of `call_good` tells the kinds of calls, as those of `calls` tell lines; it chooses no step to run.
#![tactic(auto)]

ghost use Rattle.std.specs.Prelude.{◌≡◌};
ghost use Rattle.state.specs.List.{counts_good, setup_good, nexts_good, shared_good, call_good, record_good, state_good};

pub use calls::{limit_good, room_good};
use state::{Call, Queue, Thread};

// (Three numbers and no struct of them, as at setup, whose signature they are.)
pub fn counts_good(threads: u64, blocks: u64, ceiling: u64) -> bool
    ensures { result ≡ counts_good threads blocks ceiling }
{
    (1..=8).contains(&threads) && (2..=32).contains(&blocks) && (1..=4294967295).contains(&ceiling)
}

#[tactic(auto, unfolding(state::specs::List::setup_good))]
pub fn setup_good(q: Queue, len: u64) -> bool
    ensures { result ≡ setup_good q len }
{
    counts_good(q.threads, q.blocks, q.ceiling) && len == memory::pool_len(q.threads, q.blocks)
}

// Every block's next, of free blocks too, from the last down.
pub fn nexts_good(pool: &[u64], blocks: u64) -> bool
    ensures { result ≡ nexts_good pool.now blocks blocks }
{
    (0..blocks).rev().all(|n| memory::next(pool, n).is_none_or(|block| block < blocks))
}

#[tactic(auto, unfolding(state::specs::List::shared_good))]
pub fn shared_good(q: Queue) -> bool
    ensures { result ≡ shared_good q }
{
    let tail = q.tail.position();
    // the tail in laps, rounded up: L × 64 wraps where L is out of its range
    q.head_block < q.blocks
        && q.tail_block < q.blocks
        && (tail + 63) / 64 <= q.ceiling
        && q.head.position() <= tail
}

pub fn call_good(q: Queue, count: u64, call: Call) -> bool
    ensures { result ≡ call_good q count call }
{
    match call {
        Call::Idle => true,
        Call::Push(line) => calls::push_good(q, line),
        Call::Steal(line) => calls::steal_good(q, count, line),
        Call::Length(line) => calls::length_good(q, line),
        Call::Empty(line) => calls::empty_good(q, line),
    }
}

#[tactic(auto, unfolding(state::specs::List::record_good))]
pub fn record_good(q: Queue, thread: Thread) -> bool
    ensures { result ≡ record_good q thread }
{
    let count = thread.ring.count;
    count <= ring::RING_CAP && call_good(q, count, thread.call)
}

pub fn state_good(q: Queue, pool: &[u64], thread: Thread) -> bool
    ensures { result ≡ state_good q pool.now thread }
{
    shared_good(q) && nexts_good(pool, q.blocks) && record_good(q, thread)
}
