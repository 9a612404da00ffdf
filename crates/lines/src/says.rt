// What goes into the output. The room that is asked for is there: the library reads a byte, or ends, only where 256 bytes
// are free (a type that has the room would be made anew for each byte).
ghost use Rattle.std.specs.Prelude.{◌+◌, ◌≤◌, ◌++◌, length};
ghost use Rattle.text.specs.Print.{bad_bytes, end_bytes, refused_bytes};
ghost use Rattle.print.specs.Output.{Adds};
ghost use Rattle.replayed.specs.Command.{said_bytes};

use print::Output;
use replayed::Said;

// The line of output for a command, if there is one.
#[tactic(auto, using(crate::proofs::Room::lengths))]
pub fn say(output: &mut Output<'_>, line: u64, thread: u64, said: Said)
    requires { output.old.written + 256 ≤ length output.old.bytes.now }
    ensures wrote { Adds output.old (said_bytes line thread said) output.new }
    ensures upper_bound { output.new.written ≤ output.old.written + 256 }
{
    match said {
        Said::Silent => {}
        Said::Plain(word) => output.plain(line, thread, word),
        Said::Numbered(word, n) => output.numbered(line, thread, word, n),
    }
}

// A malformed line: its number and `bad`, then the end line.
#[tactic(auto, using(crate::proofs::Room::lengths))]
pub fn say_bad(output: &mut Output<'_>, line: u64, steps: u64)
    requires { output.old.written + 256 ≤ length output.old.bytes.now }
    ensures wrote { Adds output.old (bad_bytes line ++ end_bytes steps) output.new }
    ensures upper_bound { output.new.written ≤ output.old.written + 256 }
{
    output.bad(line);
    output.end(steps);
}

// Line 1 with a count out of range.
#[tactic(auto, using(crate::proofs::Room::lengths))]
pub fn say_refused(output: &mut Output<'_>)
    requires { output.old.written + 150 ≤ length output.old.bytes.now }
    ensures wrote { Adds output.old (refused_bytes 1 1 ++ end_bytes 0) output.new }
    ensures upper_bound { output.new.written ≤ output.old.written + 150 }
{
    output.refused(1, 1);
    output.end(0);
}

#[tactic(auto, using(crate::proofs::Room::lengths))]
pub fn say_end(output: &mut Output<'_>, steps: u64)
    requires { output.old.written + 256 ≤ length output.old.bytes.now }
    ensures wrote { Adds output.old (end_bytes steps) output.new }
    ensures upper_bound { output.new.written ≤ output.old.written + 256 }
{
    output.end(steps);
}
