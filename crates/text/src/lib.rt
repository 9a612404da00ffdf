// The replay text's definition (specs/): what a line is as a command, and how answers are spelt. Nothing here knows the
// machine. Here are its types.
#![tactic(auto)]

// No line of the input is longer, before its line feed.
pub const LINE_CAP: usize = 80;

// The room for one line of the output, which every function that writes one asks for. No line is longer.
pub const LINE_ROOM: usize = 100;

// A well-formed line, with its numbers in the order in which they stand.
#[derive(Clone, Copy)]
pub enum Command {
    Queue(u64, u64, u64),
    Push(u64, u64),
    Steal(u64),
    Batch(u64, u64),
    Take(u64, u64),
    Len(u64),
    Empty(u64),
    Pop(u64),
    Step(u64),
    Run(u64, u64),
}

// The words of the output.
#[derive(Clone, Copy)]
pub enum Word {
    Pushed,
    Task,
    Moved,
    Empty,
    Retry,
    Len,
    Yes,
    No,
    Open,
    Nothing,
    Refused,
    Bad,
    End,
    Queue,
}
