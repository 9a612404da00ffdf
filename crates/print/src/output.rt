// Whole lines of the output: fields parted by tabs, and a line feed. A method that writes a line asks for the room of one,
// LINE_ROOM bytes: its caller writes out what it has before less is left (a type that has the room would be made anew for each
// line). No line is longer, so none asks how long its own will be.
ghost use Rattle.std.specs.Prelude.{◌≡◌, ◌+◌, ◌≤◌, length, [], ◌∷◌, ◌++◌};
ghost use Rattle.text.specs.Number.{digits};
ghost use Rattle.text.specs.Print.{Wrote, word_bytes, line_bytes, line_number_bytes, bad_bytes, refused_bytes, end_bytes, queue_bytes};
ghost use Rattle.print.specs.Output.{Adds};

use text::Word;

// A lent buffer, and how many bytes are written at its front. (A write by std's Cursor answers a Result, though there is
// room, and no clause says which bytes `write!` puts into a slice.)
#[derive(Drop)]
pub struct Output<'a> {
    pub bytes: &'a mut [u8],
    pub written: usize,
}

// Here and not as a method of Word: outcome's theorem, one answer for each public function, can't speak of a `&`.
#[tactic(auto, unfolding(text::specs::Print::word_bytes))]
#[inline(always)]
fn spelt(word: Word) -> &'static str
    ensures { result.now ≡ word_bytes word }
{
    match word {
        Word::Pushed => "pushed",
        Word::Task => "task",
        Word::Moved => "moved",
        Word::Empty => "empty",
        Word::Retry => "retry",
        Word::Len => "len",
        Word::Yes => "yes",
        Word::No => "no",
        Word::Open => "open",
        Word::Nothing => "none",
        Word::Refused => "refused",
        Word::Bad => "bad",
        Word::End => "end",
        Word::Queue => "queue",
    }
}

impl Output<'_> {
    #[tactic(auto, using(crate::proofs::Pieces::pieces))]
    #[inline(always)]
    fn put(&mut self, s: &str)
        // the caller has the room: a line's is asked for once, where the line begins
        requires { self.old.written + length s.now ≤ length self.old.bytes.now }
        ensures { Adds self.old s.now self.new }
    {
        let end = self.written + s.len();
        self.bytes[self.written..end].copy_from_slice(s.as_bytes());
        self.written = end;
    }

    #[tactic(auto, using(crate::proofs::Pieces::pieces))]
    #[inline(always)]
    pub fn number(&mut self, n: u64)
        // no number of 64 bits has more than 20 digits
        requires { self.old.written + 20 ≤ length self.old.bytes.now }
        ensures { Adds self.old (digits n) self.new }
    {
        self.written = Self::digits(self.bytes, self.written, n);
    }

    #[tactic(auto, using(crate::proofs::Pieces::pieces))]
    #[inline(always)]
    pub fn word(&mut self, word: Word)
        // no word has more than 7 letters
        requires { self.old.written + 7 ≤ length self.old.bytes.now }
        ensures { Adds self.old (word_bytes word) self.new }
    {
        self.put(spelt(word));
    }

    // The front digits first, those of n / 10, and then the last one. The place goes from call to call: one kept in `self` would
    // be stored and read anew for each digit.
    #[tactic(auto, using(crate::proofs::Pieces::by_digits))]
    fn digits(bytes: &mut [u8], at: usize, n: u64) -> usize
        requires { at + length (digits n) ≤ length bytes.old }
        ensures { Wrote bytes.old at (digits n) bytes.new result }
    {
        if n < 10 {
            bytes[at] = b'0' + n as u8;
            return at + 1;
        }
        let last = Self::digits(bytes, at, n / 10);
        bytes[last] = b'0' + (n % 10) as u8;
        last + 1
    }

    // What parts two fields, or ends a line.
    #[tactic(auto, using(crate::proofs::Pieces::pieces))]
    #[inline(always)]
    fn byte(&mut self, byte: u8)
        requires { self.old.written + 1 ≤ length self.old.bytes.now }
        ensures { Adds self.old (byte ∷ []) self.new }
    {
        self.bytes[self.written] = byte;
        self.written += 1;
    }

    // Line number, thread, word. (One method with `numbered` would take an Option, and its equation be a match of both.)
    #[tactic(auto, using(crate::proofs::Pieces::pieces), unfolding(text::specs::Print::line_bytes))]
    pub fn plain(&mut self, line: u64, thread: u64, word: Word)
        requires { self.old.written + 100 ≤ length self.old.bytes.now }
        ensures { Adds self.old (line_bytes line thread word) self.new }
    {
        self.number(line);
        self.byte(b'\t');
        self.number(thread);
        self.byte(b'\t');
        self.word(word);
        self.byte(b'\n');
    }

    // Line number, thread, word, number.
    #[tactic(auto, using(crate::proofs::Pieces::pieces), unfolding(text::specs::Print::line_number_bytes))]
    pub fn numbered(&mut self, line: u64, thread: u64, word: Word, n: u64)
        requires { self.old.written + 100 ≤ length self.old.bytes.now }
        ensures { Adds self.old (line_number_bytes line thread word n) self.new }
    {
        self.number(line);
        self.byte(b'\t');
        self.number(thread);
        self.byte(b'\t');
        self.word(word);
        self.byte(b'\t');
        self.number(n);
        self.byte(b'\n');
    }

    // The line that ends a replay at a malformed line.
    #[tactic(auto, using(crate::proofs::Pieces::pieces), unfolding(text::specs::Print::bad_bytes))]
    pub fn bad(&mut self, line: u64)
        requires { self.old.written + 100 ≤ length self.old.bytes.now }
        ensures { Adds self.old (bad_bytes line) self.new }
    {
        self.number(line);
        self.byte(b'\t');
        self.word(Word::Bad);
        self.byte(b'\n');
    }

    // A refusal that is no thread's: a queue line with a count out of its range.
    #[tactic(auto, using(crate::proofs::Pieces::pieces), unfolding(text::specs::Print::refused_bytes))]
    pub fn refused(&mut self, line: u64, n: u64)
        requires { self.old.written + 100 ≤ length self.old.bytes.now }
        ensures { Adds self.old (refused_bytes line n) self.new }
    {
        self.number(line);
        self.byte(b'\t');
        self.word(Word::Refused);
        self.byte(b'\t');
        self.number(n);
        self.byte(b'\n');
    }

    #[tactic(auto, using(crate::proofs::Pieces::pieces), unfolding(text::specs::Print::end_bytes))]
    pub fn end(&mut self, steps: u64)
        requires { self.old.written + 100 ≤ length self.old.bytes.now }
        ensures { Adds self.old (end_bytes steps) self.new }
    {
        self.word(Word::End);
        self.byte(b'\t');
        self.number(steps);
        self.byte(b'\n');
    }

    // The queue line again. A number has one spelling only, so these are the very bytes that came in.
    #[tactic(auto, using(crate::proofs::Pieces::pieces), unfolding(text::specs::Print::queue_bytes))]
    pub fn queue(&mut self, threads: u64, blocks: u64, ceiling: u64)
        requires { self.old.written + 100 ≤ length self.old.bytes.now }
        ensures { Adds self.old (queue_bytes threads blocks ceiling ++ (10 ∷ [])) self.new }
    {
        self.word(Word::Queue);
        self.byte(b'\t');
        self.number(threads);
        self.byte(b'\t');
        self.number(blocks);
        self.byte(b'\t');
        self.number(ceiling);
        self.byte(b'\n');
    }
}
