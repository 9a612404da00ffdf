// The packed index of the Rust's `Position`: a place in the queue and the HAS_NEXT bit in one number.
// Nothing here is about 64 bits but the two `requires`, which say that a sum fits.
#![tactic(auto)]

ghost use Rattle.std.specs.Prelude.{◌≡◌, Bool, true, false, ℕ, ◌+◌, ◌*◌, ◌<◌, ◌≤◌, ◌^◌};
ghost use Rattle.index.specs.Position.{position, lap, offset, has_next};
ghost use Rattle.index.specs.Claim.{advanced, with_next, left_lap};

pub const SHIFT: u64 = 1;

pub const LAP: u64 = 64;

pub const BLOCK_CAP: u64 = 63;

pub const HAS_NEXT: u64 = 1;

#[derive(Clone, Copy, PartialEq, Eq)]
pub struct Index {
    pub raw: u64,
}

impl Index {
    pub fn position(self) -> u64
        ensures { result ≡ position self.raw }
    {
        self.raw / 2
    }

    pub fn lap(self) -> u64
        ensures { result ≡ lap (position self.raw) }
    {
        self.raw / 2 / LAP
    }

    pub fn offset(self) -> u64
        ensures { result ≡ offset (position self.raw) }
    {
        self.raw / 2 % LAP
    }

    pub fn has_next(self) -> bool
        ensures { result ≡ has_next self.raw }
    {
        self.raw % 2 == HAS_NEXT
    }

    // `n` positions on, HAS_NEXT as it is. An index in use is far below the bound: its position is at
    // most the tail's, which is at most 64 times the lap ceiling.
    pub fn advance(self, n: u64) -> Index
        requires { self.raw + 2 * n < 2 ^ 64 }
        ensures { result.raw ≡ advanced self.raw n }
    {
        Index {
            raw: self.raw + 2 * n,
        }
    }

    // HAS_NEXT kept, or added where `next` says so.
    #[tactic(auto, using(crate::proofs::Bit::or_one))]
    pub fn with_next(self, next: bool) -> Index
        ensures { result.raw ≡ with_next self.raw next }
    {
        if next {
            return Index {
                raw: self.raw | HAS_NEXT,
            };
        }
        self
    }

    // From a block's end to the next lap's first position, with HAS_NEXT anew. The sum fits as at
    // `advance`: specs/Width.antt has both from the lap ceiling.
    pub fn leave_lap(self, next: bool) -> Index
        requires { self.raw + 3 < 2 ^ 64 }
        ensures { result.raw ≡ left_lap self.raw next }
    {
        let left = Index {
            raw: self.raw - self.raw % 2 + 2,
        };
        left.with_next(next)
    }
}
