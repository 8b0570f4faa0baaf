// The reader: it keeps the session and the place reached in it. Thin: it takes itself apart and leaves the work to
// `entries::read_at`, which takes a plain slice. Who has no reader has `entry_at`, whose parameters are plain.
#![tactic(auto)]

ghost use Rattle.std.specs.Prelude.{◌≡◌};
ghost use Rattle.entries.specs.Entries.{read_at};

use entries::Entry;

// A slice and a place in it, as document 01 has it; the clauses below speak of the two.
#[derive(Clone, Copy)]
pub struct Reader<'a> {
    pub src: &'a [u8],
    pub at: usize,
}

impl<'a> Reader<'a> {
    // A reader of the session src that has reached the place `at`.
    pub fn new(src: &'a [u8], at: usize) -> Self
        ensures { (result.src ≡ src.entry) × (result.at ≡ at) }
    {
        Reader { src, at }
    }

    // The entry at the place reached, and the place behind it.
    pub fn next(self, ordinal: u16) -> Option<(Entry, usize)>
        ensures { result ≡ read_at self.entry.src.now self.entry.at ordinal }
    {
        entries::read_at(self.src, self.at, ordinal)
    }

    // The reader once it has come to the place `at`, as behind an entry that was read.
    pub fn moved(self, at: usize) -> Self
        ensures { (result.src ≡ self.entry.src) × (result.at ≡ at) }
    {
        Reader { at, ..self }
    }
}

// The entry at a place of the session s, and the place behind it, read by a reader that has reached it.
pub fn entry_at(s: &[u8], at: usize, ordinal: u16) -> Option<(Entry, usize)>
    ensures { result ≡ read_at s.now at ordinal }
{
    Reader::new(s, at).next(ordinal)
}
