// What a begin that is not refused gives back: the call at its first line.
#![tactic(auto)]

ghost use Rattle.std.specs.Prelude.{◌≡◌};
ghost use Rattle.machine.specs.Entry.{begun};

use machine::{Given, Request};
use state::Thread;

pub fn begun(thread: Thread, what: Request) -> Given<()>
    ensures { result ≡ begun thread what }
{
    Given {
        thread: Thread {
            call: what.into(),
            ..thread
        },
        answer: Ok(()),
    }
}
