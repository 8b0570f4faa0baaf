// The lines that the program prints, written into a lent buffer: numbers in decimal, and fixed byte strings between them. Each
// method writes behind what stands written, which stays.
#![tactic(auto)]

ghost use Rattle.std.specs.Prelude.{◌≡◌, ◌+◌, ◌≤◌, length};
ghost use Rattle.verdicts.specs.Said.{verdict_case};
ghost use Rattle.text.specs.Text.{decimal, verdict_word, settled_word, last_word, line_text, refusal_text, Fits, Adds};

use verdicts::Verdict;

// Document 01 has fixed byte strings, which are put as they are: a `Display` would need a formatter between.
fn verdict_bytes(verdict: Verdict) -> &'static [u8]
    ensures text { result.now ≡ verdict_word (verdict_case verdict) }
    ensures short { length result.now ≤ 7 }
{
    match verdict {
        Verdict::Yes => b" yes",
        Verdict::No => b" no",
        Verdict::Unsure => b" unsure",
    }
}

fn settled_bytes(settled: bool) -> &'static [u8]
    ensures text { result.now ≡ settled_word settled }
    ensures short { length result.now ≤ 8 }
{
    if settled { b" settled" } else { b" open" }
}

// A lent buffer, whose first `at` bytes stand written: what is promised speaks of the buffer, which its owner reads again. Each method
// asks for the room that it takes, since to put a line cannot fail.
#[derive(Drop)]
pub struct Lines<'a> {
    pub out: &'a mut [u8],
    pub at: usize,
}

impl<'a> Lines<'a> {
    // Nothing stands written.
    pub fn new(out: &'a mut [u8]) -> Lines<'a>
        ensures lent { result.out ≡ out.entry }
        ensures empty { result.at ≡ 0 }
    {
        Lines { out, at: 0 }
    }

    // How many bytes stand written.
    pub fn len(&self) -> usize
        ensures { result ≡ self.now.at }
    {
        self.at
    }

    // The word, byte for byte.
    fn put(&mut self, word: &[u8])
        requires { Fits self.old (length word.now) }
        ensures { Adds self.old word.now self.new }
    {
        let end = self.at + word.len();
        self.out[self.at..end].copy_from_slice(word);
        self.at = end;
    }

    // A number in decimal, at most 5 digits, which stand in a buffer of `io::decimal`'s size before they are put: there is no heap.
    fn put_number(&mut self, n: u16)
        requires { Fits self.old 5 }
        ensures text { Adds self.old (decimal n) self.new }
        ensures short { self.new.at ≤ self.old.at + 5 }
    {
        let mut digits = [0; 20];
        let count = io::decimal(n as u64, &mut digits);
        self.put(&digits[..count]);
    }

    // The number that a line ends with.
    #[tactic(auto, using(crate::proofs::Laws::adds_then))]
    fn put_last(&mut self, n: u8)
        requires { Fits self.old 7 }
        ensures { Adds self.old (last_word n) self.new }
    {
        self.put(b" ");
        self.put_number(n as u16);
        self.put(b"\n");
    }

    // The line of an accepted start or entry.
    #[tactic(auto, using(crate::proofs::Laws::adds_then), unfolding(crate::specs::Text::line_text))]
    pub fn put_line(&mut self, ordinal: u16, verdict: Verdict, settled: bool, count: u8)
        requires { Fits self.old 27 }
        ensures { Adds self.old (line_text ordinal (verdict_case verdict) settled count) self.new }
    {
        self.put_number(ordinal);
        self.put(verdict_bytes(verdict));
        self.put(settled_bytes(settled));
        self.put_last(count);
    }

    // The line of a refused start or entry. Any number is told, also one that no refusal has.
    #[tactic(auto, using(crate::proofs::Laws::adds_then), unfolding(crate::specs::Text::refusal_text))]
    pub fn put_refusal(&mut self, ordinal: u16, number: u8)
        requires { Fits self.old 27 }
        ensures { Adds self.old (refusal_text ordinal number) self.new }
    {
        self.put_number(ordinal);
        self.put(b" refused");
        self.put_last(number);
    }
}
