// The record after a letter, for a table and a record that are known to pass the checks. Ages are taken a piece at a time: as
// far as they have one pair and the same lines of the letter hold.
#![tactic(auto)]

ghost use Rattle.std.specs.Prelude.{◌<◌, ◌≡◌};
ghost use Rattle.meaning.specs.Tables.{table_of};
ghost use Rattle.record.specs.Records.{pairs_at};
ghost use Rattle.record.specs.Building.{built_of};
ghost use Rattle.letters.specs.Letters.{after_letter, led_back};

use faults::SoundTable;
use known::Known;
use record::{Pair, Record, Stretch};

// ---- a stretch, piece by piece

// The pieces that are left of a stretch, each with where the letter leads from its ages, by the lines that reset the clock or by
// those that keep it. The last age lies below the largest number, so that each age has a next.
#[derive(Drop)]
struct Pieces<'a> {
    table: &'a SoundTable<'a>,
    reset: bool,
    letter: u8,
    rest: Stretch,
    ghost fits: { rest.last < 4294967295 },
}

impl<'a> Iterator for Pieces<'a> {
    ghost use Rattle.std.specs.Prelude.{◌-◌, suc};
    ghost use Rattle.std.specs.Iterator.{at_most};
    ghost use Rattle.letters.specs.Pieces.{GivesPiece};

    type Item = Stretch;

    ghost next_gives = { GivesPiece };

    ghost remaining = { λ s. at_most (suc s.rest.last - s.rest.first) };

    #[tactic(auto, using(image::proofs::Laws::piece_within))]
    fn next(&mut self) -> Option<Stretch> {
        let Stretch { first, last, pair } = self.rest;
        if last < first {
            return None;
        }
        let piece = image::piece_of(self.table, self.reset, self.letter, first, last, pair);
        self.rest.first = piece.end + 1;
        Some(Stretch {
            first,
            last: piece.end,
            pair: piece.led,
        })
    }
}

// ---- age 0

// Where the resetting lines lead from every age, those above H too.
fn led_back(known: &Known<'_>, letter: u8) -> Pair
    ensures { result ≡ led_back (table_of known.now.table.bytes.now) letter (pairs_at known.now.horizon known.now.held) }
{
    let mut out = Pair::default();
    for x in known.held.stretches() {
        let pieces = Pieces {
            table: &known.table,
            reset: true,
            letter,
            rest: *x,
        };
        for piece in pieces {
            out = out.both(piece.pair);
        }
    }
    let above = known.held.above;
    let high = image::image_of(&known.table, true, letter, known.horizon + 1, above);
    out.both(high)
}

// The pair of age 0 after the letter: what is kept there, what is led back to it, and then the standing states.
#[tactic(auto, using(crate::proofs::Laws::newborn_pair), unfolding(meaning::specs::Tables::table_of))]
fn newborn(known: &Known<'_>, letter: u8) -> Pair
    ensures { result ≡ after_letter known.now.table.bytes.now known.now.horizon known.now.held letter 0 }
{
    let standing = known.table.head.standing;
    let joining = Pair {
        sure: standing,
        possible: standing,
    };
    let young = known.held.pair_at(known.horizon, 0);
    let kept = image::image_of(&known.table, false, letter, 0, young);
    let led = led_back(known, letter);
    kept.both(led.both(joining))
}

// ---- the ages above 0

// Both sets stepped by the letter. Where that needs more stretches than the room takes, the count says so.
pub fn after_letter(known: &Known<'_>, letter: u8) -> Record
    ensures { result ≡ built_of known.now.held.room known.now.horizon
        (after_letter known.now.table.bytes.now known.now.horizon known.now.held letter) }
{
    let first = newborn(known, letter);
    let above = known.held.above;
    let high = image::image_of(&known.table, false, letter, known.horizon + 1, above);
    let mut out = Record::empty(known.held.room, high);
    out.push(0, 0, first);
    for x in known.held.stretches() {
        let pieces = Pieces {
            table: &known.table,
            reset: false,
            letter,
            rest: Stretch {
                first: x.first.max(1),
                ..*x
            },
        };
        for piece in pieces {
            out.push(piece.first, piece.last, piece.pair);
        }
    }
    out
}
