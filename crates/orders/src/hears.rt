// One line after line 1, well-formed: a command of one thread, over its record.
ghost use Rattle.std.specs.Prelude.{◌≡◌, ◌+◌, ◌≤◌, length};
ghost use Rattle.print.specs.Output.{Adds};
ghost use Rattle.replayed.specs.Replay.{ordered_by};

use crate::commands::obey;
use lines::{Output, say, words};
use places::{place_of, thread_number};
use replayed::{Replay, Stage};
use text::Command;

// A byte is read only where 256 bytes of the buffer are free, so the room that is asked for is there (a type that has it would be made
// anew for each line).
#[tactic(auto, using(std::proofs::lemmas::List::take_min, std::proofs::lemmas::List::get_or_default))]
pub fn hear(replay: &mut Replay, command: Command, pool: &mut [u64], output: &mut Output<'_>)
    requires { output.old.written + 256 ≤ length output.old.bytes.now }
    ensures replay_after { replay.new ≡ (ordered_by replay.old pool.old command).replay }
    ensures pool_after { pool.new ≡ (ordered_by replay.old pool.old command).pool }
    ensures wrote { Adds output.old (ordered_by replay.old pool.old command).out output.new }
    ensures written_bound { output.new.written ≤ output.old.written + 256 }
{
    let place = place_of(command);
    let used = words(replay.queue.blocks, pool.len());
    let done = obey(
        replay.queue,
        &mut pool[..used],
        replay.threads[place],
        command,
    );
    say(output, replay.number, thread_number(command), done.said);
    // field by field: a struct update would copy the eight records for each line
    replay.threads[place] = done.thread;
    replay.queue = done.queue;
    replay.held = 0;
    replay.number = replay.number.saturating_add(1);
    replay.steps = replay.steps.saturating_add(done.steps);
    replay.stage = Stage::Open;
}
