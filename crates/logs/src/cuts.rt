// A log fed in pieces: no cut may change a byte of what comes out.
use journal::LARGEST_POOL;

// A longer log is cut at its first bytes only, or the gate would wait for it.
const MOST_CUTS: usize = 600;

// The room for what one feed makes.
const OUT_BYTES: usize = 65536;

// What a piece of the long line has.
const PIECE_BYTES: usize = 65536;

// Each feed reads its whole piece, and all that comes out is what is owed.
fn same(pieces: &[&[u8]], expected: &[u8], pool: &mut [u64], out: &mut [u8]) -> bool {
    let mut replay = journal::new();
    let mut owed = expected;
    for piece in pieces {
        let fed = journal::feed(replay, pool, piece, out);
        if fed.read < piece.len() {
            return false;
        }
        let Some(rest) = owed.strip_prefix(&out[..fed.written]) else {
            return false;
        };
        owed = rest;
        replay = fed.replay;
    }
    let written = journal::finish(replay, out);
    owed == &out[..written]
}

// Whole, and cut in two after each byte.
pub(crate) fn all_same(log: &[u8], expected: &[u8]) -> bool {
    let mut pool = [0; LARGEST_POOL];
    let mut out = [0; OUT_BYTES];
    for cut in 0..MOST_CUTS.min(log.len() + 1) {
        let (front, back) = log.split_at(cut);
        if !same(&[front, back], expected, &mut pool, &mut out) {
            return false;
        }
    }
    true
}

// Line 2 is longer than any buffer and has no line feed.
pub(crate) fn long_line_same() -> bool {
    let zeros = [0u8; PIECE_BYTES];
    let mut pieces = [&zeros[..]; 17];
    pieces[0] = b"queue\t1\t2\t1\n";
    let mut pool = [0; LARGEST_POOL];
    let mut out = [0; OUT_BYTES];
    same(
        &pieces,
        b"queue\t1\t2\t1\n2\tbad\nend\t0\n",
        &mut pool,
        &mut out,
    )
}
