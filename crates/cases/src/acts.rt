// What a line makes of the board, the table and the pool, and what is said of it.
use crate::asks::Case;
use crate::board;
use crate::board::{Board, Lent};
use injector::Request;
use ring::{Flavor, Ring};
use say::Said;
use state::{Answer, Call, Refusal, Thread};
use std::fmt;

// What the entry answered, where the line asks one.
// What is said, refused or not, so it is no Result.
#[derive(Clone, Copy)]
pub(crate) enum Reply {
    Nothing,
    SetUp(Result<(), Refusal>),
    Audited(Result<Option<u64>, Refusal>),
    // with the steps that it took
    Stepped(Answer, u64),
}

impl fmt::Display for Reply {
    fn fmt<W: fmt::Write>(&self, f: &mut fmt::Formatter<W>) -> fmt::Result {
        match *self {
            Reply::Nothing => Ok(()),
            Reply::SetUp(Ok(())) => write!(f, " -> ready"),
            Reply::Audited(Ok(Some(n))) => write!(f, " -> blocks {n}"),
            Reply::Audited(Ok(None)) => write!(f, " -> tail not reached"),
            Reply::Stepped(answer, steps) => write!(f, " -> {}, steps {steps}", Said(answer)),
            Reply::SetUp(Err(refusal)) | Reply::Audited(Err(refusal)) => {
                write!(f, " -> {}", Said(Answer::Refused(refusal)))
            }
        }
    }
}

pub(crate) fn idle() -> [Thread; 8] {
    [injector::idle_thread(Flavor::Fifo); 8]
}

pub(crate) fn act(
    case: Case,
    board: &mut Board,
    table: &mut [Thread; 8],
    pool: &mut [u64],
) -> Reply {
    let pool = board.lent(pool);
    match case {
        Case::Nothing => {}
        Case::New(threads, blocks, laps) => {
            *table = idle();
            return set_up(threads, blocks, laps, board, pool);
        }
        Case::Board(next) => *board = next,
        Case::Word(place, word) => set_word(pool, place, word),
        Case::Audit => return Reply::Audited(injector::audit(board.queue, pool)),
        Case::Stand(call) => return stepped(call, *board, pool),
        Case::Begin(number, request) => begin(number, request, *board, table, pool),
        Case::Fill(number, tokens) => table[(number % 8) as usize].ring.count = tokens,
        Case::Row(number) => return row(number, board, table, pool),
    }
    Reply::Nothing
}

// Before a setup no word is 0, so that one which it leaves would be seen. After it all records are idle.
fn set_up(threads: u64, blocks: u64, laps: u64, board: &mut Board, pool: &mut [u64]) -> Reply {
    pool.fill(u64::MAX);
    let started = injector::setup(threads, blocks, laps, pool);
    *board = Board {
        queue: started.queue,
        records: threads,
        tokens: 0,
        ..*board
    };
    Reply::SetUp(started.answer)
}

fn set_word(pool: &mut [u64], place: u64, word: u64) {
    if let Some(old) = pool.get_mut(place as usize) {
        *old = word;
    }
}

// A step of a thread of its own.
fn stepped(call: Call, board: Board, pool: &mut [u64]) -> Reply {
    let mut ring = Ring::new(Flavor::Fifo);
    ring.count = board.tokens;
    let thread = Thread {
        ring,
        call,
        taken: [0; 63],
    };
    let ran = injector::step(board.queue, pool, thread, 0);
    Reply::Stepped(ran.answer, ran.steps)
}

fn begin(number: u64, request: Request, board: Board, table: &mut [Thread; 8], pool: &[u64]) {
    let at = (number % 8) as usize;
    table[at] = injector::begin(board.queue, pool, table[at], number, request).thread;
}

// A step of the table leaves other shared words.
fn row(number: u64, board: &mut Board, table: &mut [Thread; 8], pool: &mut [u64]) -> Reply {
    let records = board.records.min(8) as usize;
    let Lent { step, table: all } = board::lend(board.queue, records, *table, pool, number);
    *table = all;
    board.queue = step.queue;
    Reply::Stepped(step.answer, step.steps)
}
