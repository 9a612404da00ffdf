// The replay of a log as a library: text goes in, in pieces of any size, and what happened comes out.
#![tactic(auto)]

ghost use Rattle.std.specs.Prelude.{◌≡◌, false, ◌≤◌, length};
ghost use Rattle.std.proofs.lemmas.List.Edits.{sets};
ghost use Rattle.replayed.specs.declared.Stage.TheVariants.{First};
ghost use Rattle.replayed.specs.Feed.{reads, fed, is_first, Came};

pub use ending::finish;
use later::feed_open;
use lines::{Output, hold};
use opening::open_line;
use replayed::ROOM;
pub use replayed::{Fed, Replay, Stage};
pub use whole::new;

// No queue uses more of the lent words. (No type that has them: `feed` is lent any slice, and pool, piece and buffer go on as they stand
// in its signature.)
pub const LARGEST_POOL: usize = 4096;

// From a place of the piece on, with line 1 read. Once the replay is over, the rest of the piece is passed over.
#[tactic(auto, using(crate::proofs::Bytes::bytes))]
fn go_on(fed: Fed, pool: &mut [u64], piece: &[u8], out: &mut [u8]) -> Fed
    requires { (is_first fed.replay.stage ≡ false) × (fed.read ≤ length piece.now) × (fed.written ≤ length out.old) }
    ensures { Came piece.now fed.replay pool.old fed.read out.old fed.written result pool.new out.new }
{
    match fed.replay.stage {
        Stage::Open => feed_open(fed, pool, piece, out),
        _ => Fed {
            read: piece.len(),
            ..fed
        },
    }
}

// Line 1, which opens the queue or ends the replay, and what follows it.
#[tactic(auto, using(crate::proofs::Bytes::bytes))]
fn feed_first(mut replay: Replay, pool: &mut [u64], piece: &[u8], out: &mut [u8]) -> Fed
    requires stage_value { replay.stage ≡ First }
    requires in_bounds { 4096 ≤ length pool.old }
    ensures { Came piece.now replay pool.old 0 out.old 0 result pool.new out.new }
{
    if out.len() < ROOM {
        return Fed {
            replay,
            read: 0,
            written: 0,
        };
    }
    for (read, &byte) in piece.iter().enumerate() {
        if byte == b'\n' {
            let mut output = Output {
                bytes: out,
                written: 0,
            };
            open_line(&mut replay, pool, &mut output);
            let fed = Fed {
                replay,
                read: read + 1,
                written: output.written,
            };
            return go_on(fed, pool, piece, out);
        }
        hold(&mut replay, byte);
    }
    Fed {
        replay,
        read: piece.len(),
        written: 0,
    }
}

// Reads bytes from the front of the piece while the buffer has room, and writes what they make at its front. What is
// not read is for the caller to feed again. With less lent than the largest pool needs nothing is read.
#[tactic(auto, using(crate::proofs::Feeds::feeds))]
pub fn feed(replay: Replay, pool: &mut [u64], piece: &[u8], out: &mut [u8]) -> Fed
    ensures read_value { result.read ≡ reads replay pool.old piece.now (length out.old) }
    ensures replay_value { result.replay ≡ (fed replay pool.old piece.now (length out.old)).replay }
    ensures pool_after { pool.new ≡ (fed replay pool.old piece.now (length out.old)).pool }
    ensures out_after { out.new ≡ sets out.old 0 (fed replay pool.old piece.now (length out.old)).out }
    ensures written_value { result.written ≡ length (fed replay pool.old piece.now (length out.old)).out }
    ensures read_in_bounds { result.read ≤ length piece.now }
    ensures written_in_bounds { result.written ≤ length out.old }
{
    let fed = Fed {
        replay,
        read: 0,
        written: 0,
    };
    if pool.len() < LARGEST_POOL {
        return fed;
    }
    match replay.stage {
        Stage::First => feed_first(replay, pool, piece, out),
        _ => go_on(fed, pool, piece, out),
    }
}
