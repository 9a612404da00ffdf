// Answers are written as lines of text into a lent buffer.
#![tactic(auto)]

mod output;

pub use output::Output;
