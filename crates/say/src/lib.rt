// What the test programs print with: bytes that need not be text, and answers in words. A write that fails goes unsaid, here and
// in the lines that the programs print themselves: what is missing shows where the output is compared.
#![tactic(auto)]

use state::Answer;
use std::fmt;
use std::io::{Print, Stdout};

pub fn text(out: Stdout, bytes: &[u8]) {
    let _ = out.write_all(bytes);
}

// An answer in words. It is no `Display` of the type itself, since the machine's crates print nothing.
#[derive(Clone, Copy)]
pub struct Said(pub Answer);

impl fmt::Display for Said {
    fn fmt<W: fmt::Write>(&self, f: &mut fmt::Formatter<W>) -> fmt::Result {
        match self.0 {
            Answer::Open => write!(f, "open"),
            Answer::Pushed => write!(f, "pushed"),
            Answer::Task(token) => write!(f, "task {token}"),
            Answer::Moved => write!(f, "moved"),
            Answer::Empty => write!(f, "empty"),
            Answer::Retry => write!(f, "retry"),
            Answer::Len(n) => write!(f, "len {n}"),
            Answer::Yes => write!(f, "yes"),
            Answer::No => write!(f, "no"),
            Answer::Refused(refusal) => write!(f, "refused {}", u64::from(refusal)),
        }
    }
}
