// What a line asks.
use crate::board::Board;
use crate::reads::{Line, or_largest};
use crate::stands;
use injector::Request;
use state::Call;

#[derive(Clone, Copy)]
pub(crate) enum Case {
    Nothing,
    // threads, blocks, laps
    New(u64, u64, u64),
    Board(Board),
    // its place, and what it is
    Word(u64, u64),
    Audit,
    Stand(Call),
    // from here on of the record of that number
    Begin(u64, Request),
    Fill(u64, u64),
    Row(u64),
}

// The one place where a letter becomes a case; no TryFrom, since any letter is taken. Another large letter, and what is no
// letter, asks nothing; another small one begins `empty`.
pub(crate) fn asked(line: Line) -> Case {
    let [first, second, third, ..] = line.numbers;
    let first = or_largest(first);
    let second = or_largest(second);
    match line.letter {
        b'N' => Case::New(first, second, or_largest(third)),
        b'B' => Case::Board(Board::of(line.numbers)),
        b'W' => Case::Word(first, second),
        b'A' => Case::Audit,
        b'P' | b'S' | b'L' | b'E' | b'I' => Case::Stand(stands::call(line)),
        b'r' => Case::Row(first),
        b'f' => Case::Fill(first, second),
        b'p' => Case::Begin(first, Request::Push(second)),
        b's' => Case::Begin(first, Request::Steal),
        b'c' => Case::Begin(first, Request::Len),
        b'a'.. => Case::Begin(first, Request::Empty),
        _ => Case::Nothing,
    }
}
