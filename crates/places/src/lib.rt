// Which thread a command is for, and where its record stands.
#![tactic(auto)]

ghost use Rattle.std.specs.Prelude.{◌≡◌, ◌<◌};
ghost use Rattle.replayed.specs.Replay.{place_of};
ghost use Rattle.replayed.specs.Command.{thread_number};

use text::Command;

// (A part of a command, and so no From.)
pub fn thread_number(command: Command) -> u64
    ensures { result ≡ thread_number command }
{
    match command {
        Command::Queue(..) => 0,
        Command::Push(n, _)
        | Command::Batch(n, _)
        | Command::Take(n, _)
        | Command::Run(n, _)
        | Command::Steal(n)
        | Command::Len(n)
        | Command::Empty(n)
        | Command::Pop(n)
        | Command::Step(n) => n,
    }
}

// Where the record of the command's thread stands. A number past the eighth names no record: the first is handed over,
// and the entry refuses the number, so it is no Option; the definition `place_of` has it so.
pub fn place_of(command: Command) -> usize
    ensures value { result ≡ place_of (thread_number command) }
    ensures upper_bound { result < 8 }
{
    let n = thread_number(command);
    if n < 8 { n as usize } else { 0 }
}
