// The loads of a length, L1 to L3, and of an empty, E1 and E2: one function a line, one shared access each.
// None touches the lent memory (machine, specs/CountLaws.antt). L1, L2 and E1 load one word each and stay three: as one function
// they would take the word and the line, and each is its definition's code.
#![tactic(auto)]

ghost use Rattle.std.specs.Prelude.{◌≡◌};
ghost use Rattle.machine.specs.Count as spec;

use index::Index;
use machine::{ends, to};
use state::{Answer, EmptyLine, LengthLine, Made, Queue};

fn l1(q: Queue) -> Made
    ensures { result ≡ (spec.l1 q).made }
{
    let tail = q.tail;
    to(q, LengthLine::L2(tail))
}

fn l2(q: Queue, tail: Index) -> Made
    ensures { result ≡ (spec.l2 q tail).made }
{
    let head = q.head;
    to(q, LengthLine::L3(tail, head))
}

#[tactic(auto, unfolding(machine::specs::Count::l3))]
fn l3(q: Queue, tail: Index, head: Index) -> Made
    ensures { result ≡ (spec.l3 q tail head).made }
{
    let seen = q.tail;
    if seen == tail {
        let length = span::length(tail, head);
        return ends(q, Answer::Len(length));
    }
    to(q, LengthLine::L1)
}

fn e1(q: Queue) -> Made
    ensures { result ≡ (spec.e1 q).made }
{
    let head = q.head;
    to(q, EmptyLine::E2(head))
}

#[tactic(auto, unfolding(machine::specs::Count::e2))]
fn e2(q: Queue, head: Index) -> Made
    ensures { result ≡ (spec.e2 q head).made }
{
    let tail = q.tail;
    if span::same_position(head, tail) {
        return ends(q, Answer::Yes);
    }
    ends(q, Answer::No)
}

pub fn length(q: Queue, line: LengthLine) -> Made
    ensures { result ≡ (spec.length q line).made }
{
    // a match, not closures: a thread's record keeps its line, and `length_good` and the promise's proofs case on it
    match line {
        LengthLine::L1 => l1(q),
        LengthLine::L2(tail) => l2(q, tail),
        LengthLine::L3(tail, head) => l3(q, tail, head),
    }
}

pub fn empty(q: Queue, line: EmptyLine) -> Made
    ensures { result ≡ (spec.empty q line).made }
{
    // a match, not closures: a thread's record keeps its line, and `empty_good` and the promise's proofs case on it
    match line {
        EmptyLine::E1 => e1(q),
        EmptyLine::E2(head) => e2(q, head),
    }
}
