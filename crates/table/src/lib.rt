// Reads a table of bytes: its head, and its lines one by one. Nothing is judged: a number out of its range is read as any
// other. Every slice is answered: where the bytes of the head or of a line are not all there, each of its places reads 0,
// also those whose bytes are there.
#![tactic(auto)]

ghost use Rattle.std.specs.Prelude.{◌≡◌};
ghost use Rattle.table.specs.Numbers.{be16_of, be32_of};
ghost use Rattle.table.specs.Table.{head_of, line_at};

// The first 12 bytes. The sets of states, initial, standing and accepting, have bit i for state i.
#[derive(Clone, Copy, Default)]
pub struct Head {
    pub version: u8,
    pub length: u16,
    pub states: u8,
    pub letters: u8,
    pub initial: u16,
    pub standing: u16,
    pub accepting: u16,
    pub lines: u8,
}

// From a state to a state on a letter, at the ages from least to greatest, both in. A greatest of 4,294,967,295 means no
// upper bound; flag 1 resets the clock.
#[derive(Clone, Copy, Default)]
pub struct Line {
    pub from: u8,
    pub letter: u8,
    pub to: u8,
    pub flags: u8,
    pub least: u32,
    pub greatest: u32,
}

// The number whose two bytes are given, the greatest place first. It and the next are the library's conversion at two widths: one
// generic function over both would be no plainer than these lines.
pub fn be16(high: u8, low: u8) -> u16
    ensures { result ≡ be16_of high low }
{
    u16::from_be_bytes([high, low])
}

// The number whose four bytes are given, the greatest place first.
pub fn be32(a: u8, b: u8, c: u8, d: u8) -> u32
    ensures { result ≡ be32_of a b c d }
{
    u32::from_be_bytes([a, b, c, d])
}

// The head of the table t; all 0 where t has fewer than 12 bytes.
#[tactic(auto, using(crate::proofs::Laws::by_length))]
pub fn head_of(t: &[u8]) -> Head
    ensures { result ≡ head_of t.now }
{
    if t.len() < 12 {
        return Head::default();
    }
    Head {
        version: t[0],
        length: be16(t[1], t[2]),
        states: t[3],
        letters: t[4],
        initial: be16(t[5], t[6]),
        standing: be16(t[7], t[8]),
        accepting: be16(t[9], t[10]),
        lines: t[11],
    }
}

// Line k of the table t, the first being line 0; all 0 where t ends before the line does. The number of lines that the
// head states is not asked: whoever judges a table compares it with the length.
#[tactic(auto, using(crate::proofs::Laws::by_length))]
pub fn line_at(t: &[u8], k: u8) -> Line
    ensures { result ≡ line_at t.now k }
{
    let at = 12 + 12 * (k as usize);
    if t.len() < at + 12 {
        return Line::default();
    }
    Line {
        from: t[at],
        letter: t[at + 1],
        to: t[at + 2],
        flags: t[at + 3],
        least: be32(t[at + 4], t[at + 5], t[at + 6], t[at + 7]),
        greatest: be32(t[at + 8], t[at + 9], t[at + 10], t[at + 11]),
    }
}
