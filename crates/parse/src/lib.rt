// One line of the text, without its line feed, as a command.
#![tactic(auto)]

ghost use Rattle.std.specs.Prelude.{◌≡◌, ◌==◌, position};
ghost use Rattle.text.specs.Line.{parsed, with_one, with_two, with_three};

use decimal::read_number;
use text::{Command, LINE_CAP};

#[tactic(auto, using(crate::proofs::Places::stops))]
pub fn parse(line: &[u8]) -> Option<Command>
    ensures { result ≡ parsed line.now }
{
    let n = line.len();
    if LINE_CAP < n {
        return None;
    }
    let w = first_tab(line)?;
    let word = &line[..w];
    let (a, x) = read_number(line, w + 1)?;
    if x == n {
        return with_one(word, a);
    }
    let (b, y) = read_number(line, x + 1)?;
    if y == n {
        return with_two(word, a, b);
    }
    let (c, z) = read_number(line, y + 1)?;
    if z == n {
        return with_three(word, a, b, c);
    }
    None
}

fn first_tab(line: &[u8]) -> Option<usize>
    ensures { result ≡ position (λ b. b == 9) line.now }
{
    line.iter().position(|b| *b == b'\t')
}

// One function for each count of numbers, as the definitions are: a command's case takes just its own.
#[tactic(auto, using(crate::proofs::Words::words), unfolding(text::specs::Line::with_one))]
fn with_one(word: &[u8], a: u64) -> Option<Command>
    ensures { result ≡ with_one word.now a }
{
    match word {
        b"step" => Some(Command::Step(a)),
        b"steal" => Some(Command::Steal(a)),
        b"pop" => Some(Command::Pop(a)),
        b"len" => Some(Command::Len(a)),
        b"empty" => Some(Command::Empty(a)),
        _ => None,
    }
}

#[tactic(auto, using(crate::proofs::Words::words), unfolding(text::specs::Line::with_two))]
fn with_two(word: &[u8], a: u64, b: u64) -> Option<Command>
    ensures { result ≡ with_two word.now a b }
{
    match word {
        b"push" => Some(Command::Push(a, b)),
        b"run" => Some(Command::Run(a, b)),
        b"batch" => Some(Command::Batch(a, b)),
        b"take" => Some(Command::Take(a, b)),
        _ => None,
    }
}

#[tactic(auto, using(crate::proofs::Words::words), unfolding(text::specs::Line::with_three))]
fn with_three(word: &[u8], a: u64, b: u64, c: u64) -> Option<Command>
    ensures { result ≡ with_three word.now a b c }
{
    match word {
        b"queue" => Some(Command::Queue(a, b, c)),
        _ => None,
    }
}
