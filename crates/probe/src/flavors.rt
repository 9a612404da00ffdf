// Which threads have a Lifo ring.
use journal::Replay;
use ring::Flavor;
use std::env::Env;

// An argument that is not there, or longer than the buffer, names no thread. (`env::args` has no such limit.)
fn named(rt: &impl Env, argument: usize, digit: u8) -> bool {
    let mut word = [0u8; 64];
    match rt.arg(argument, &mut word) {
        Ok(n) => word[..n].contains(&digit),
        Err(_) => false,
    }
}

fn flavor(rt: &impl Env, digit: u8) -> Flavor {
    if (1..=3).any(|argument| named(rt, argument, digit)) {
        Flavor::Lifo
    } else {
        Flavor::Fifo
    }
}

// Line 1 makes all threads idle, and all rings Fifo: as it is fed, so are they here.
pub(crate) fn after_first(rt: &impl Env, mut replay: Replay, number: u64) -> Replay {
    if number == 1 {
        for (thread, digit) in replay.threads.iter_mut().zip(b'0'..) {
            *thread = injector::idle_thread(flavor(rt, digit));
        }
    }
    replay
}
