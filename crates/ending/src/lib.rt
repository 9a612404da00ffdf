// The replay at the end of its input.
#![tactic(auto)]

ghost use Rattle.std.specs.Prelude.{◌≡◌, ◌≤◌, length};
ghost use Rattle.std.proofs.lemmas.List.Edits.{sets};
ghost use Rattle.replayed.specs.Feed.{ends};

use lines::{Output, say_bad, say_end};
use replayed::{ROOM, Replay, Stage};

// The last lines of the output, at the front of a buffer with room for them. Answers how many bytes were written.
pub fn finish(replay: Replay, out: &mut [u8]) -> usize
    ensures out_after { out.new ≡ sets out.old 0 (ends replay (length out.old)) }
    ensures value { result ≡ length (ends replay (length out.old)) }
    ensures upper_bound { result ≤ length out.old }
{
    if out.len() < ROOM {
        return 0;
    }
    let mut output = Output {
        bytes: out,
        written: 0,
    };
    match replay.stage {
        Stage::Open if replay.held == 0 => say_end(&mut output, replay.steps),
        Stage::First | Stage::Open => say_bad(&mut output, replay.number, replay.steps),
        Stage::Over => {}
    }
    output.written
}
