// Replays the log on standard input, and says on standard output what happened.
#![tactic(auto)]

ghost use Rattle.std.specs.Prelude.{◌≤◌, length};

use journal::{LARGEST_POOL, Replay};
use std::io;
use std::io::{Read, Write};

// The most that is read at once, and the most that is written at once.
const PIECE_BYTES: usize = 65536;

// One feed leaves bytes unread where the buffer ran out of room: they are fed again, into the buffer written out. (A while, with
// no index: what is left shrinks by as much as a feed reads.)
fn feed_all(
    mut replay: Replay,
    output: &mut impl Write,
    pool: &mut [u64],
    piece: &[u8],
    out: &mut [u8],
) -> io::Result<Replay>
    // with so much lent a feed reads a byte or more
    requires pool_room { 4096 ≤ length pool.old }
    requires out_room { 256 ≤ length out.old }
{
    let mut rest = piece;
    while !rest.is_empty() {
        let fed = journal::feed(replay, pool, rest, out);
        output.write_all(&out[..fed.written])?;
        rest = &rest[fed.read..];
        replay = fed.replay;
    }
    Ok(replay)
}

// (Not one with the probe's: what is done with a piece would be a closure that may fail and borrows the buffers. The pool is lent as
// the library is lent it, with no type for its room.)
// A proved loop has to end, and nothing says that the input does: it takes more turns than any run does.
fn replay_all(
    input: &mut impl Read,
    output: &mut impl Write,
    pool: &mut [u64],
    piece: &mut [u8],
    out: &mut [u8],
) -> io::Result<()>
    requires pool_room { 4096 ≤ length pool.old }
    requires out_room { 256 ≤ length out.old }
{
    let mut replay = journal::new();
    for _ in 0..u64::MAX {
        let n = input.read(piece)?;
        if n == 0 {
            break;
        }
        replay = feed_all(replay, output, pool, &piece[..n], out)?;
    }
    let written = journal::finish(replay, out);
    output.write_all(&out[..written])
}

// Arrays, and no `BufReader`: nothing is asked of the heap.
fn main(rt: HostRuntime) -> io::Result<()> {
    let mut pool = [0u64; LARGEST_POOL];
    let mut piece = [0u8; PIECE_BYTES];
    let mut out = [0u8; PIECE_BYTES];
    let mut input = rt.stdin();
    let mut output = rt.stdout();
    replay_all(&mut input, &mut output, &mut pool, &mut piece, &mut out)
}
