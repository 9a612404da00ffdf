// Lines are fed one at a time, so that the machine can be shown in between.
use crate::{flavors, shows};
use journal::Replay;
use std::env::Env;
use std::io;
use std::io::{Read, Stdout};

// The thread of the line that is held. Nothing is shown after a malformed one.
fn thread_held(replay: &Replay) -> u64 {
    lines::later_line(replay).map_or(0, places::thread_number)
}

// The bytes before a line feed, or the line feed. The buffer has room for what one line makes, so that every byte is read.
fn feed(
    rt: &impl Env,
    output: Stdout,
    replay: Replay,
    pool: &mut [u64],
    part: &[u8],
    out: &mut [u8],
) -> Replay {
    let thread = thread_held(&replay);
    let fed = journal::feed(replay, pool, part, out);
    say::text(output, &out[..fed.written]);
    let next = flavors::after_first(rt, fed.replay, replay.number);
    shows::command(output, &next, pool, replay.number, thread);
    next
}

// (Not one with the replay program's: what is done with a piece would be a closure that may fail and borrows the buffers.)
// A proved loop has to end, and nothing says that the input does: it takes more turns than any run does.
pub(crate) fn feed_all(
    rt: &impl Env,
    input: &mut impl Read,
    output: Stdout,
    pool: &mut [u64],
    piece: &mut [u8],
    out: &mut [u8],
) -> io::Result<()> {
    let mut replay = journal::new();
    for _ in 0..u64::MAX {
        let n = input.read(piece)?;
        if n == 0 {
            break;
        }
        for part in piece[..n].chunk_by(|a, b| *a != b'\n' && *b != b'\n') {
            replay = feed(rt, output, replay, pool, part, out);
        }
    }
    shows::at_end(output, replay, pool, out);
    Ok(())
}
