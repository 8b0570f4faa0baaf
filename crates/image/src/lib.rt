// Where a letter leads from the pair of an age, and up to which age it leads to the same states, so that ages can be taken a
// piece at a time.
#![tactic(auto)]

ghost use Rattle.std.specs.Prelude.{◌<◌, ◌≡◌};
ghost use Rattle.base.specs.Masks.{hasb};
ghost use Rattle.meaning.specs.Tables.{table_of};
ghost use Rattle.image.specs.Images.{image_pair, led_pair, piece_of};

use faults::SoundTable;
use record::Pair;
use table::Line;

// State q is in the set; no set has a state above 15.
#[tactic(auto, using(crate::proofs::Laws::has_none, crate::proofs::Laws::has_shifted))]
fn has(states: u16, q: u8) -> bool
    ensures { result ≡ hasb states q }
{
    q < 16 && (states >> q) % 2 == 1
}

// Where a line leads from a pair, whatever it asks, each set by itself.
fn led_pair(l: Line, p: Pair) -> Pair
    requires { l.to < 16 }
    ensures { result ≡ led_pair l p }
{
    let there = 1u16 << l.to;
    Pair {
        sure: if has(p.sure, l.from) { there } else { 0 },
        possible: if has(p.possible, l.from) { there } else { 0 },
    }
}

// The ages from one on up to `end`, at all of which the letter leads to the same states, `led`.
#[derive(Clone, Copy)]
pub struct Piece {
    pub end: u32,
    pub led: Pair,
}

// Where the letter leads from the pair at an age, by the lines that reset the clock or by those that keep it (a flag, as in the
// definition: a closure that picks the lines would say no more), and up to which age, at most `last`, it leads to the same
// states. A line ends the piece before its least age or, where it leads on, with its greatest. The greatest that means no upper
// bound lies above every age, so it needs no test of its own.
pub fn piece_of(
    table: &SoundTable<'_>,
    reset: bool,
    letter: u8,
    age: u32,
    last: u32,
    p: Pair,
) -> Piece
    ensures { result ≡ piece_of (table_of table.now.bytes.now) reset letter age last p }
{
    let mut out = Piece {
        end: last,
        led: Pair::default(),
    };
    for k in 0..table.head.lines {
        let line = table::line_at(table.bytes, k);
        let resets = line.flags == 1;
        if resets == reset && line.letter == letter {
            if age < line.least {
                out.end = out.end.min(line.least - 1);
            } else if age <= line.greatest {
                out.end = out.end.min(line.greatest);
                out.led = out.led.both(led_pair(line, p));
            }
        }
    }
    out
}

// Where the letter leads from the pair at an age, whatever it does at the next. Where the pair has no state, as it often is above H,
// no line is asked.
#[tactic(auto, using(crate::proofs::Laws::image_nothing))]
pub fn image_of(table: &SoundTable<'_>, reset: bool, letter: u8, age: u32, p: Pair) -> Pair
    ensures { result ≡ image_pair (table_of table.now.bytes.now) reset letter age p }
{
    let none = Pair::default();
    if p == none {
        return none;
    }
    piece_of(table, reset, letter, age, age, p).led
}
