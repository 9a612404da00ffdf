// Replays the log on standard input, and writes how the machine stands, too: after each command and at the end, in lines
// that start with `#`. A digit in an argument names a thread that has a Lifo ring.
#![tactic(auto)]

mod feeds;
mod flavors;
mod shows;
mod stands;

use journal::LARGEST_POOL;
use std::io;

// The most that is read at once.
const PIECE_BYTES: usize = 65536;

// Room for what one line of the log makes.
const OUT_BYTES: usize = 4096;

fn main(rt: HostRuntime) -> io::Result<()> {
    let mut pool = [0u64; LARGEST_POOL];
    let mut piece = [0u8; PIECE_BYTES];
    let mut out = [0u8; OUT_BYTES];
    let mut input = rt.stdin();
    let output = rt.stdout();
    feeds::feed_all(&rt, &mut input, output, &mut pool, &mut piece, &mut out)
}
