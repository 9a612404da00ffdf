// (Named as in the definitions, and no From: they are slots of a claim, not what it is.) Of a claim: its slots, and where the walk over them goes.
ghost use Rattle.std.specs.Prelude.{◌≡◌, ◌≤◌};
ghost use Rattle.machine.specs.Steal as spec;

use state::{Claim, StealLine, Won};

pub fn first(claim: Claim) -> u64
    ensures { result ≡ spec.first claim }
{
    claim.head.offset()
}

// The sum fits: a claim on the list does not go past its block's end.
pub fn past(claim: Claim) -> u64
    requires { spec.past claim ≤ 63 }
    ensures { result ≡ spec.past claim }
{
    first(claim) + claim.advance
}

// The slot below the first claimed one is where the walk starts; past slot 0 the block is given back.
pub fn walk_below(won: Won, block: u64, slot: u64) -> StealLine
    ensures { result ≡ spec.walk_below won block slot }
{
    if slot == 0 {
        return StealLine::S14(won, block);
    }
    StealLine::S12(won, block, slot - 1)
}
