// The replay as a whole: at its start, once line 1 is read, and over.
#![tactic(auto)]

ghost use Rattle.std.specs.Prelude.{◌≡◌};
ghost use Rattle.replayed.specs.Replay.{over, opens, at_first};

use idle::idle_thread;
use index::Index;
use replayed::{Replay, Stage};
use ring::Flavor;
use state::{Queue, Thread};

// Nothing more is read or run.
pub fn over(replay: Replay) -> Replay
    ensures { result ≡ over replay }
{
    Replay {
        held: 0,
        stage: Stage::Over,
        ..replay
    }
}

// Line 1 has set the queue up: all threads idle, all rings Fifo.
pub fn opened(replay: Replay, queue: Queue) -> Replay
    ensures { result ≡ opens replay queue }
{
    let idle = idle_thread(Flavor::Fifo);
    Replay {
        queue,
        threads: [idle; 8],
        held: 0,
        number: 2,
        steps: 0,
        stage: Stage::Open,
        ..replay
    }
}

// Before anything was read.
pub fn new() -> Replay
    ensures { result ≡ at_first }
{
    let idle = idle_thread(Flavor::Fifo);
    let queue = Queue {
        head: Index { raw: 0 },
        head_block: 0,
        tail: Index { raw: 0 },
        tail_block: 0,
        ceiling: 0,
        threads: 0,
        blocks: 0,
    };
    Replay {
        queue,
        threads: [idle; 8],
        line: [0; 80],
        held: 0,
        number: 1,
        steps: 0,
        stage: Stage::First,
    }
}
