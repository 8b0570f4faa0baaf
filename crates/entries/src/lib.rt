// The entries of a session: what stands at a place of its bytes. Every slice and every place is answered.
#![tactic(auto)]

ghost use Rattle.std.specs.Prelude.{◌≡◌};
ghost use Rattle.entries.specs.Entries.{read_at};

// A letter, so many seconds, or a gap. Nothing is judged: a letter or a span out of its range is read as any other.
#[derive(Clone, Copy, PartialEq, Eq)]
pub enum Symbol {
    Letter(u8),
    Span(u32),
    Gap,
}

// The first entry of a session has the ordinal 1.
#[derive(Clone, Copy, PartialEq, Eq)]
pub struct Entry {
    pub ordinal: u16,
    pub symbol: Symbol,
}

// The entry at that place, by its length byte, its kind byte and its load, and the place behind it. There is none where an entry
// is cut short, of an unknown kind, or with a length that is not its kind's; nor past the end.
#[tactic(auto, using(crate::proofs::Rests::by_rest))]
pub fn read_at(s: &[u8], at: usize, ordinal: u16) -> Option<(Entry, usize)>
    ensures { result ≡ read_at s.now at ordinal }
{
    let (symbol, next) = match *s.get(at..)? {
        [2, 1, letter, ..] => (Symbol::Letter(letter), at + 3),
        [5, 2, a, b, c, d, ..] => (Symbol::Span(table::be32(a, b, c, d)), at + 6),
        [1, 3, ..] => (Symbol::Gap, at + 2),
        _ => return None,
    };
    Some((Entry { ordinal, symbol }, next))
}
