// The line that is being read: `replay.held` bytes of it stand in the replay's array of 80.
ghost use Rattle.std.specs.Prelude.{◌≡◌, ◌+◌, min, set};
ghost use Rattle.replayed.specs.Replay.{holds, line_of};
ghost use Rattle.replayed.specs.Feed.{later_of, opening_of};

use replayed::Replay;
use text::Command;

// A byte is held, of a line that is too long no more than that it is. Answers how many are held now: a loop over bytes has the
// count beside the replay, so that it does not go through memory for each.
pub fn hold_next(line: &mut [u8; 80], held: u64, byte: u8) -> u64
    ensures value { result ≡ min (held + 1) 81 }
    ensures line_after { line.new ≡ set line.old held byte }
{
    if held < 80 {
        line[held as usize] = byte;
        held + 1
    } else {
        81
    }
}

pub fn hold(replay: &mut Replay, byte: u8)
    ensures { replay.new ≡ holds replay.old byte }
{
    replay.held = hold_next(&mut replay.line, replay.held, byte);
}

// The line that was held, without its line feed.
fn held_line(replay: &Replay) -> Option<Command>
    ensures { result ≡ line_of replay.now }
{
    parse::parse(replay.line.get(..replay.held as usize)?)
}

// A line after line 1: a queue line is malformed there.
pub fn later_line(replay: &Replay) -> Option<Command>
    ensures { result ≡ later_of (line_of replay.now) }
{
    match held_line(replay)? {
        Command::Queue(..) => None,
        command => Some(command),
    }
}

// Line 1: anything but a queue line is malformed there.
pub fn first_line(replay: &Replay) -> Option<(u64, u64, u64)>
    ensures { result ≡ opening_of (line_of replay.now) }
{
    match held_line(replay)? {
        Command::Queue(threads, blocks, ceiling) => Some((threads, blocks, ceiling)),
        _ => None,
    }
}
