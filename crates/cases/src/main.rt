// Hands the entries the cases on standard input, each a line: what no log can say, which they refuse with 1 or 2, beside each a
// neighbour that passes, and the step entry over a lent table. Prints each line, and behind it what the entry answers.
//
// A line is a word, of which the first letter counts, and numbers with a blank before each. `-` is no number, and what stands
// behind a `#` is for who reads the cases. A word with a large letter is about the shared words and the pool:
//   New T B L       setup for T threads, B blocks and L laps over the lent words, none of them 0; T records are lent, all idle
//   Board H HB T TB L N B R W K   head, its block, tail, its block, laps, threads, blocks; R records and W words are lent; K see below
//   Word P X        word P of the pool is X
//   Audit
//   P1 to P10, S1 to S14, L1 to L3, E1, E2, Idle   a thread of its own, with K tokens in its ring, stands at this line of the
//                   step table, with the numbers that `stands` names, and makes a step. Of it only the pool keeps what it did
// and with a small one about the table's records:
//   push T X, steal T, count T, empty T   record T begins a call
//   fill T N        the ring of record T holds N tokens
//   row T           the step entry over the lent records steps record T
#![tactic(auto)]

mod acts;
mod asks;
mod board;
mod reads;
mod stands;

use board::Board;
use std::io;
use std::io::{Print, Read, Stdout};

// The words of the largest pool: 32 blocks of 128. (The replay library, which has this number, is no part of this program.)
const POOL_WORDS: usize = 4096;

// More cases than these bytes hold are not read.
const INPUT_BYTES: u64 = 65536;

fn play(out: Stdout, input: &[u8], pool: &mut [u64]) {
    // no queue, and nothing is lent
    let mut board = Board::of([Some(0); 10]);
    let mut table = acts::idle();
    for line in input.split_inclusive(|byte| *byte == b'\n') {
        let line = line.strip_suffix(b"\n").unwrap_or(line);
        say::text(out, line);
        let case = asks::asked(reads::read(line));
        let reply = acts::act(case, &mut board, &mut table, pool);
        let _ = println!(out; "{reply}");
    }
}

fn main(rt: HostRuntime) -> io::Result<()> {
    let mut input = Vec::new(rt.alloc());
    rt.stdin().take(INPUT_BYTES).read_to_end(&mut input)?;
    let mut pool = [0u64; POOL_WORDS];
    play(rt.stdout(), input.as_slice(), &mut pool);
    Ok(())
}
