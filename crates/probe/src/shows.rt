// How the machine stands.
use crate::stands::At;
use journal::Replay;
use ring::RING_CAP;
use state::{Call, Queue};
use std::fmt;
use std::io::{Print, Stdout};

// The tokens, from front to back.
#[derive(Clone, Copy)]
struct Row<'a>(&'a [u64]);

impl fmt::Display for Row<'_> {
    fn fmt<W: fmt::Write>(&self, f: &mut fmt::Formatter<W>) -> fmt::Result {
        for token in self.0 {
            write!(f, "\t{token}")?;
        }
        Ok(())
    }
}

// A block's next, the states of its slots, and their tokens.
#[derive(Clone, Copy)]
struct Block<'a> {
    pool: &'a [u64],
    block: u64,
}

impl fmt::Display for Block<'_> {
    fn fmt<W: fmt::Write>(&self, f: &mut fmt::Formatter<W>) -> fmt::Result {
        match memory::next(self.pool, self.block) {
            Some(next) => write!(f, "{next}\t")?,
            None => write!(f, "-\t")?,
        }
        for slot in 0..63 {
            write!(f, "{}", memory::state(self.pool, self.block, slot))?;
        }
        for slot in 0..63 {
            write!(f, "\t{}", memory::token(self.pool, self.block, slot))?;
        }
        Ok(())
    }
}

// Where line `number` was a command, what the thread and the shared words came to. Only a command changes the number of the
// next line. A number that names no thread stands for one that is idle.
pub(crate) fn command(output: Stdout, replay: &Replay, pool: &[u64], number: u64, thread: u64) {
    if number == 1 || replay.number == number {
        return;
    }
    let (call, count) = replay
        .threads
        .get(thread as usize)
        .map_or((Call::Idle, 0), |thread| (thread.call, thread.ring.count));
    let Queue {
        head,
        head_block,
        tail,
        tail_block,
        blocks,
        ..
    } = replay.queue;
    let taken = (0..blocks)
        .filter(|block| !memory::is_free(pool, *block))
        .count();
    let _ = println!(output;
        "#\t{number}\t{thread}\t{}\t{}\t{}\t{head_block}\t{}\t{tail_block}\t{taken}\t{count}",
        At(call),
        replay.steps,
        head.raw,
        tail.raw
    );
}

// The last lines of the replay, the blocks that are taken, and the rings. A queue that was not set up has neither.
pub(crate) fn at_end(output: Stdout, replay: Replay, pool: &[u64], out: &mut [u8]) {
    let written = journal::finish(replay, out);
    say::text(output, &out[..written]);
    let queue = replay.queue;
    for block in 0..queue.blocks {
        if !memory::is_free(pool, block) {
            let _ = println!(output; "#block\t{block}\t{}", Block { pool, block });
        }
    }
    let threads = replay.threads.iter().take(queue.threads as usize);
    for (number, thread) in threads.enumerate() {
        let ring = &thread.ring;
        let tokens = &ring.tokens[..ring.count.min(RING_CAP) as usize];
        let _ = println!(output; "#ring\t{number}{}", Row(tokens));
    }
}
