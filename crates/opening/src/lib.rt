// Line 1: the queue line.
#![tactic(auto)]

ghost use Rattle.std.specs.Prelude.{◌≡◌, ◌+◌, ◌≤◌, length};
ghost use Rattle.print.specs.Output.{Adds};
ghost use Rattle.replayed.specs.Replay.{first_line, line_of};

use lines::{Output, first_line, say_bad, say_refused, words};
use replayed::Replay;
use whole::{opened, over};

// The line that the replay holds is line 1. Counts out of range are echoed and refused, else the queue is set up.
// The library has tested what is asked: as many lent words as the largest pool needs, and 256 free bytes (a type that has
// the room would be made anew for each line).
#[tactic(auto, using(crate::proofs::Room::lengths))]
pub fn open_line(replay: &mut Replay, pool: &mut [u64], output: &mut Output<'_>)
    requires in_bounds { 4096 ≤ length pool.old }
    requires in_bounds_2 { output.old.written + 256 ≤ length output.old.bytes.now }
    ensures replay_after { replay.new ≡ (first_line replay.old pool.old (line_of replay.old)).replay }
    ensures pool_after { pool.new ≡ (first_line replay.old pool.old (line_of replay.old)).pool }
    ensures wrote { Adds output.old (first_line replay.old pool.old (line_of replay.old)).out output.new }
    ensures written_bound { output.new.written ≤ output.old.written + 256 }
{
    let Some((threads, blocks, ceiling)) = first_line(replay) else {
        say_bad(output, replay.number, replay.steps);
        *replay = over(*replay);
        return;
    };
    output.queue(threads, blocks, ceiling);
    if !list::counts_good(threads, blocks, ceiling) {
        say_refused(output);
        *replay = over(*replay);
        return;
    }
    let used = words(blocks, pool.len());
    let started = start::setup(threads, blocks, ceiling, &mut pool[..used]);
    *replay = opened(*replay, started.queue);
}
