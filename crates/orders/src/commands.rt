// The commands of one thread, over the shared words and its record by value, and what is said of each.
ghost use Rattle.std.specs.Prelude.{◌≡◌};
ghost use Rattle.replayed.specs.Command.{answer_said, began_said, popped_said, begins, pops, steps_one, runs, request_of, order_of};

use machine::{Ran, Request};
use places::thread_number;
use replayed::{Done, Said};
use state::{Answer, Queue, Refusal, Thread};
use text::{Command, Word};

// `still` is what is said of a call that stays open. (The match tells cases, and chooses nothing to do.)
fn answer_said(still: Said, answer: Answer) -> Said
    ensures { result ≡ answer_said still answer }
{
    match answer {
        Answer::Open => still,
        Answer::Pushed => Said::Plain(Word::Pushed),
        Answer::Task(token) => Said::Numbered(Word::Task, token),
        Answer::Moved => Said::Plain(Word::Moved),
        Answer::Empty => Said::Plain(Word::Empty),
        Answer::Retry => Said::Plain(Word::Retry),
        Answer::Len(n) => Said::Numbered(Word::Len, n),
        Answer::Yes => Said::Plain(Word::Yes),
        Answer::No => Said::Plain(Word::No),
        Answer::Refused(refusal) => refusal.into(),
    }
}

// A begin that opens its call says nothing. (No From, here and below: the same Result might be said otherwise.)
fn began_said(began: Result<(), Refusal>) -> Said
    ensures { result ≡ began_said began }
{
    match began {
        Ok(()) => Said::Silent,
        Err(refusal) => refusal.into(),
    }
}

fn popped_said(popped: Result<Option<u64>, Refusal>) -> Said
    ensures { result ≡ popped_said popped }
{
    match popped {
        Ok(Some(token)) => Said::Numbered(Word::Task, token),
        Ok(None) => Said::Plain(Word::Nothing),
        Err(refusal) => refusal.into(),
    }
}

// A begin and a ring pop make no step and leave the shared words as they are.
fn unmoved(queue: Queue, thread: Thread, said: Said) -> Done
    ensures { result ≡ record { queue = queue; thread = thread; said = said; steps = 0 } }
{
    Done {
        queue,
        thread,
        said,
        steps: 0,
    }
}

// What a step or a run came to; `still` is what is said where the call stays open.
fn ran_done(ran: Ran, still: Said) -> Done
    ensures { result ≡ record { queue = ran.queue; thread = ran.thread; said = answer_said still ran.answer; steps = ran.steps } }
{
    Done {
        queue: ran.queue,
        thread: ran.thread,
        said: answer_said(still, ran.answer),
        steps: ran.steps,
    }
}

// What a command that begins a call asks for. (No `From`: the other commands ask for nothing.)
fn request_of(command: Command) -> Request
    ensures { result ≡ request_of command }
{
    match command {
        Command::Push(_, token) => Request::Push(token),
        Command::Steal(_) => Request::Steal,
        Command::Batch(_, limit) => Request::Batch(limit),
        Command::Take(_, limit) => Request::Take(limit),
        Command::Len(_) => Request::Len,
        _ => Request::Empty,
    }
}

fn begin_one(q: Queue, pool: &[u64], thread: Thread, number: u64, what: Request) -> Done
    ensures { result ≡ (begins q pool.now thread number what).done }
{
    let begun = begin::begin(q, pool, thread, number, what);
    unmoved(q, begun.thread, began_said(begun.answer))
}

fn pop_one(q: Queue, pool: &[u64], thread: Thread, number: u64) -> Done
    ensures { result ≡ (pops q pool.now thread number).done }
{
    let popped = pop::pop(q, pool, thread, number);
    unmoved(q, popped.thread, popped_said(popped.answer))
}

// A step that leaves its call open says nothing.
fn step_one(q: Queue, pool: &mut [u64], thread: Thread, number: u64) -> Done
    ensures value { result ≡ (steps_one q pool.old thread number).done }
    ensures pool_after { pool.new ≡ (steps_one q pool.old thread number).pool }
{
    ran_done(step::step(q, pool, thread, number), Said::Silent)
}

// A run that leaves its call open has used its budget up, and says so.
fn run_one(q: Queue, pool: &mut [u64], thread: Thread, number: u64, budget: u64) -> Done
    ensures value { result ≡ (runs q pool.old thread number budget).done }
    ensures pool_after { pool.new ≡ (runs q pool.old thread number budget).pool }
{
    let ran = run::run(q, pool, thread, number, budget);
    ran_done(ran, Said::Plain(Word::Open))
}

// What a command of a thread does. Nobody asks it of a queue line. Each kind is a function of its own, for speed: a function
// clears the records of all its arms as it is entered. (A match on what is asked, which chooses no line of the step table.)
pub(crate) fn obey(q: Queue, pool: &mut [u64], thread: Thread, command: Command) -> Done
    ensures value { result ≡ (order_of q pool.old thread command).done }
    ensures pool_after { pool.new ≡ (order_of q pool.old thread command).pool }
{
    match command {
        Command::Queue(..) => unmoved(q, thread, Said::Silent),
        Command::Pop(n) => pop_one(q, pool, thread, n),
        Command::Step(n) => step_one(q, pool, thread, n),
        Command::Run(n, budget) => run_one(q, pool, thread, n, budget),
        _ => begin_one(q, pool, thread, thread_number(command), request_of(command)),
    }
}
