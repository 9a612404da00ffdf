// Where a thread stands: the line of the step table that a case names, with its numbers. A number that is not there is no block
// held, `steal` where a limit stands, and `Moved` where a task won stands.
//   P line: token, tail index, block, block held or next (P10: whether the lap was spent)
//   S line: limit or task, head index, block, slots claimed, slot or next block, flag
//   L line: tail index, head index
//   E line: head index
// Here a letter and a number become a line, once for all, in a match each; no TryFrom, since any number is taken.
use crate::reads::{Line, or_largest};
use index::Index;
use state::{Call, Claim, EmptyLine, Kind, LengthLine, PushLine, StealLine, Won};

fn index(raw: Option<u64>) -> Index {
    Index {
        raw: or_largest(raw),
    }
}

fn push_line(line: Line) -> PushLine {
    let [token, tail, block, held, ..] = line.numbers;
    let token = or_largest(token);
    let tail = index(tail);
    let block = or_largest(block);
    let next = or_largest(held);
    match line.own {
        Some(1) => PushLine::P1(token, held),
        Some(2) => PushLine::P2(token, tail, held),
        Some(3) => PushLine::P3(token, tail, block),
        Some(4) => PushLine::P4(token, tail, block, held),
        Some(5) => PushLine::P5(token, tail, block, next),
        Some(6) => PushLine::P6(token, tail, block, next),
        Some(7) => PushLine::P7(token, tail, block, next),
        Some(8) => PushLine::P8(token, tail, block, held),
        Some(9) => PushLine::P9(token, tail, block, held),
        _ => PushLine::P10(block, held == Some(1)),
    }
}

fn steal_line(line: Line) -> StealLine {
    let [first, head, block, advance, place, flag, ..] = line.numbers;
    let kind = first.map_or(Kind::Steal, Kind::Batch);
    let won = first.map_or(Won::Moved, Won::Task);
    let head = index(head);
    let block = or_largest(block);
    let advance = or_largest(advance);
    let claim = Claim {
        head,
        block,
        advance,
    };
    let place = or_largest(place);
    let flag = flag == Some(1);
    match line.own {
        Some(1) => StealLine::S1(kind),
        Some(2) => StealLine::S2(kind, head),
        Some(3) => StealLine::S3(kind, head, block),
        Some(4) => StealLine::S4(kind, claim, flag),
        Some(5) => StealLine::S5(kind, claim),
        Some(6) => StealLine::S6(kind, claim, place),
        Some(7) => StealLine::S7(kind, claim, place, flag),
        Some(8) => StealLine::S8(kind, claim, flag),
        Some(9) => StealLine::S9(kind, claim, place),
        Some(10) => StealLine::S10(kind, claim, place),
        Some(11) => StealLine::S11(won, claim, place),
        Some(12) => StealLine::S12(won, block, place),
        Some(13) => StealLine::S13(won, block, place),
        _ => StealLine::S14(won, block),
    }
}

fn length_line(line: Line) -> LengthLine {
    let [tail, head, ..] = line.numbers;
    match line.own {
        Some(1) => LengthLine::L1,
        Some(2) => LengthLine::L2(index(tail)),
        _ => LengthLine::L3(index(tail), index(head)),
    }
}

fn empty_line(line: Line) -> EmptyLine {
    let [head, ..] = line.numbers;
    match line.own {
        Some(1) => EmptyLine::E1,
        _ => EmptyLine::E2(index(head)),
    }
}

// Any other letter is no call.
pub(crate) fn call(line: Line) -> Call {
    match line.letter {
        b'P' => push_line(line).into(),
        b'S' => steal_line(line).into(),
        b'L' => length_line(line).into(),
        b'E' => empty_line(line).into(),
        _ => Call::Idle,
    }
}
