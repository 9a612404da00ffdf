// The lines after line 1: each a command of one thread.
#![tactic(auto)]

ghost use Rattle.std.specs.Prelude.{◌≡◌, ◌≤◌, length};
ghost use Rattle.replayed.specs.declared.Stage.TheVariants.{Open};
ghost use Rattle.replayed.specs.Feed.{Came};

use lines::{Output, hold_next, later_line, say_bad};
use orders::hear;
use replayed::{Fed, ROOM};
use whole::over;

// From a place of the piece and of the buffer on. A malformed line ends the replay: the rest of the piece is passed over.
// The library has looked at the stage, and hands places inside the piece and the buffer over. (Pool, piece and buffer stand so in the
// signature of `feed`, and go on so.)
#[tactic(auto, using(crate::proofs::Bytes::bytes))]
pub fn feed_open(fed: Fed, pool: &mut [u64], piece: &[u8], out: &mut [u8]) -> Fed
    requires { (fed.replay.stage ≡ Open) × (fed.read ≤ length piece.now) × (fed.written ≤ length out.old) }
    ensures { Came piece.now fed.replay pool.old fed.read out.old fed.written result pool.new out.new }
{
    let mut replay = fed.replay;
    // beside the replay and the output: no byte but a line feed changes the room, and the count need not go through memory
    let mut held = replay.held;
    let mut output = Output {
        bytes: out,
        written: fed.written,
    };
    let mut room = output.bytes.len() - output.written;
    // a range, and no iterator: the place is what is answered
    for read in fed.read..piece.len() {
        if room < ROOM {
            replay.held = held;
            return Fed {
                replay,
                read,
                written: output.written,
            };
        }
        let byte = piece[read];
        if byte != b'\n' {
            held = hold_next(&mut replay.line, held, byte);
            continue;
        }
        replay.held = held;
        let Some(command) = later_line(&replay) else {
            say_bad(&mut output, replay.number, replay.steps);
            return Fed {
                replay: over(replay),
                read: piece.len(),
                written: output.written,
            };
        };
        hear(&mut replay, command, pool, &mut output);
        held = replay.held;
        room = output.bytes.len() - output.written;
    }
    replay.held = held;
    Fed {
        replay,
        read: piece.len(),
        written: output.written,
    }
}
