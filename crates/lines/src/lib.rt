// The text's side of one line of a log: it is held and parsed, and what is said of it is written.
#![tactic(auto)]

ghost use Rattle.std.specs.Prelude.{◌≡◌, ◌*◌, min};

mod held;
mod says;

pub use held::{first_line, hold, hold_next, later_line};
pub use print::Output;
pub use says::{say, say_bad, say_end, say_refused};

// As many of the lent words as the queue uses.
pub fn words(blocks: u64, len: usize) -> usize
    ensures { result ≡ min (blocks * 128) len }
{
    blocks.saturating_mul(128).min(len as u64) as usize
}
