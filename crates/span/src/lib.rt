// What lies between two indices: whether it is nothing, and how many tokens it holds.
#![tactic(auto)]

ghost use Rattle.std.specs.Prelude.{◌≡◌, ◌<◌, ◌^◌, eqb};
ghost use Rattle.index.specs.Position.{position};
ghost use Rattle.index.specs.Length.{len, moved_on};

use index::{BLOCK_CAP, Index, LAP};

// Whether two indices name one place: the last test of `is_empty`, and of EMPTY at S3.
pub fn same_position(a: Index, b: Index) -> bool
    ensures { result ≡ eqb (position a.raw) (position b.raw) }
{
    a.position() == b.position()
}

// A place past a block's slots is the next lap's first. Half of any 64-bit number meets the bound, so
// that the sum fits.
fn moved_on(position: u64) -> u64
    requires { position < 2 ^ 63 }
    ensures { result ≡ moved_on position }
{
    if position % LAP == BLOCK_CAP {
        return position + 1;
    }
    position
}

// The Rust's `Injector::len`, of the two indices it loaded.
#[tactic(auto, unfolding(index::specs::Length::len))]
pub fn length(tail: Index, head: Index) -> u64
    ensures { result ≡ len (position tail.raw) (position head.raw) }
{
    let t = moved_on(tail.position());
    let h = moved_on(head.position());
    let first = h / LAP * LAP;
    let far = t.saturating_sub(first);
    let near = h - first;
    far.saturating_sub(near).saturating_sub(far / LAP)
}
