// Where a thread stands: the line of the step table that its call is at, as P4, and `-` where none is open.
use state::{Call, EmptyLine, LengthLine, PushLine, StealLine};
use std::fmt;

#[derive(Clone, Copy)]
pub(crate) struct At(pub(crate) Call);

impl fmt::Display for At {
    fn fmt<W: fmt::Write>(&self, f: &mut fmt::Formatter<W>) -> fmt::Result {
        f.write_str(match self.0 {
            Call::Idle => "-",
            Call::Push(line) => push_line(line),
            Call::Steal(line) => steal_line(line),
            Call::Length(line) => length_line(line),
            Call::Empty(line) => empty_line(line),
        })
    }
}

fn push_line(line: PushLine) -> &'static str {
    match line {
        PushLine::P1(..) => "P1",
        PushLine::P2(..) => "P2",
        PushLine::P3(..) => "P3",
        PushLine::P4(..) => "P4",
        PushLine::P5(..) => "P5",
        PushLine::P6(..) => "P6",
        PushLine::P7(..) => "P7",
        PushLine::P8(..) => "P8",
        PushLine::P9(..) => "P9",
        PushLine::P10(..) => "P10",
    }
}

fn steal_line(line: StealLine) -> &'static str {
    match line {
        StealLine::S1(..) => "S1",
        StealLine::S2(..) => "S2",
        StealLine::S3(..) => "S3",
        StealLine::S4(..) => "S4",
        StealLine::S5(..) => "S5",
        StealLine::S6(..) => "S6",
        StealLine::S7(..) => "S7",
        StealLine::S8(..) => "S8",
        StealLine::S9(..) => "S9",
        StealLine::S10(..) => "S10",
        StealLine::S11(..) => "S11",
        StealLine::S12(..) => "S12",
        StealLine::S13(..) => "S13",
        StealLine::S14(..) => "S14",
    }
}

fn length_line(line: LengthLine) -> &'static str {
    match line {
        LengthLine::L1 => "L1",
        LengthLine::L2(..) => "L2",
        LengthLine::L3(..) => "L3",
    }
}

fn empty_line(line: EmptyLine) -> &'static str {
    match line {
        EmptyLine::E1 => "E1",
        EmptyLine::E2(..) => "E2",
    }
}
