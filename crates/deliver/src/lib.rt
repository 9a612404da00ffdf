// P5 to P10 of a push, from its ticket to its end: the next block where the ticket is the block's last, the token.
#![tactic(auto)]

mod install;
mod write;

pub use install::{p5, p6, p7};
pub use write::{p8, p9, p10};
