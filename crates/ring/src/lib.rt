// A thread's own ring: what a batch moved, for its owner alone. The Rust's `Worker`, on which nobody steals.
#![tactic(auto)]

ghost use Rattle.std.specs.Prelude.{◌≡◌, ◌+◌, ◌-◌, ◌≤◌};
ghost use Rattle.ring.specs.Ring.{empty_ring, entered, popped};

pub const RING_CAP: u64 = 64;

#[derive(Clone, Copy)]
pub enum Flavor {
    Fifo,
    Lifo,
}

// An array with its count beside: no heap, and the theorems of specs/Laws.antt speak of both.
#[derive(Clone, Copy)]
pub struct Ring {
    pub tokens: [u64; 64],
    pub count: u64,
    pub flavor: Flavor,
}

#[derive(Clone, Copy)]
pub struct RingPop {
    pub ring: Ring,
    pub token: Option<u64>,
}

impl Ring {
    // (A constructor, and no From: a flavor is no ring.)
    pub fn new(flavor: Flavor) -> Ring
        ensures { result ≡ empty_ring flavor }
    {
        Ring {
            tokens: [0u64; 64],
            count: 0,
            flavor,
        }
    }

    // A batch moves in behind what the ring holds: the tokens of `batch` from `first` up to `end`, Fifo in order, Lifo reversed.
    // Batch and places stay three: for the slice of them the equation would be the longer `entered self batch.now 0 (length batch.now)`.
    // The step machine tests what is required on the list of broken states, before a call's tokens are handed over.
    #[tactic(auto, using(crate::proofs::Entering::enters))]
    #[inline(always)]
    pub fn enter(self, batch: [u64; 63], first: u64, end: u64) -> Ring
        // the places are those of a claim, and a claim lies within one block of 63 slots
        requires first_le_end { (first ≤ end) × (end ≤ 63) }
        // the ring has the room that begin asked for
        requires first_bound { self.count + (end - first) ≤ 64 }
        ensures { result ≡ entered self batch first end }
    {
        let count = self.count as usize;
        let held = count + (end - first) as usize;
        let mut tokens = self.tokens;
        let behind = &mut tokens[count..held];
        behind.copy_from_slice(&batch[first as usize..end as usize]);
        match self.flavor {
            Flavor::Fifo => {}
            Flavor::Lifo => behind.reverse(),
        }
        Ring {
            tokens,
            count: held as u64,
            ..self
        }
    }

    // The owner's pop: Fifo the oldest, Lifo the newest.
    #[tactic(auto, unfolding(crate::specs::Ring::popped))]
    pub fn pop(self) -> RingPop
        ensures { result ≡ popped self }
    {
        let Some(left) = self.count.checked_sub(1) else {
            return RingPop {
                ring: self,
                token: None,
            };
        };
        match self.flavor {
            Flavor::Fifo => {
                let mut ring = self;
                let oldest = ring.tokens[0];
                ring.tokens.copy_within(1.., 0);
                ring.count = left;
                RingPop {
                    ring,
                    token: Some(oldest),
                }
            }
            Flavor::Lifo => {
                let tokens = self.tokens;
                // a count past the ring's end reads 0
                let newest = tokens.get(left as usize).copied().unwrap_or(0);
                RingPop {
                    ring: Ring {
                        count: left,
                        ..self
                    },
                    token: Some(newest),
                }
            }
        }
    }
}
