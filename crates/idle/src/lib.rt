// A new thread.
#![tactic(auto)]

ghost use Rattle.std.specs.Prelude.{◌≡◌};
ghost use Rattle.machine.specs.Entry.{idle_thread};

use ring::{Flavor, Ring};
use state::{Call, Thread};

// Idle, with an empty ring of the flavour asked for. A public entry by this name, so no `From`.
pub fn idle_thread(flavor: Flavor) -> Thread
    ensures { result ≡ idle_thread flavor }
{
    Thread {
        ring: Ring::new(flavor),
        call: Call::Idle,
        taken: [0; 63],
    }
}
