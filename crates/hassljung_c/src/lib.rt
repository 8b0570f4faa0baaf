// The exports, by C's calling convention: each is the function of `hassljung` of its name, with the same clause, since a crate that
// C links to is no library that a crate can rest on. A table crosses as
// a pointer and a length, a record by value; include/hassljung.h has the C side.
#![tactic(auto)]

ghost use Rattle.std.specs.Prelude.{◌≡◌};
ghost use Rattle.calls.specs.Calls.{start_of, letter_of, span_of, gap_of, verdict_of, settled_of, count_of};
ghost use Rattle.hassljung.specs.Crossing.{verdict_answer, settled_answer, count_answer};

use calls::Answer;
use hassljung::{CountAnswer, SettledAnswer, VerdictAnswer};
use record::Record;

// A watch begins, in a room of so many stretches.
#[unsafe(no_mangle)]
pub extern "C" fn hassljung_start(t: &[u8], room: u8) -> Answer
    ensures { result ≡ start_of t.now room }
{
    hassljung::hassljung_start(t, room)
}

// A letter arrives.
#[unsafe(no_mangle)]
pub extern "C" fn hassljung_letter(t: &[u8], r: Record, letter: u8) -> Answer
    ensures { result ≡ letter_of t.now r letter }
{
    hassljung::hassljung_letter(t, r, letter)
}

// So many seconds pass.
#[unsafe(no_mangle)]
pub extern "C" fn hassljung_span(t: &[u8], r: Record, seconds: u32) -> Answer
    ensures { result ≡ span_of t.now r seconds }
{
    hassljung::hassljung_span(t, r, seconds)
}

// Some of the stream is lost.
#[unsafe(no_mangle)]
pub extern "C" fn hassljung_gap(t: &[u8], r: Record) -> Answer
    ensures { result ≡ gap_of t.now r }
{
    hassljung::hassljung_gap(t, r)
}

// The verdict.
#[unsafe(no_mangle)]
pub extern "C" fn hassljung_verdict(t: &[u8], r: Record) -> VerdictAnswer
    ensures { result ≡ verdict_answer (verdict_of t.now r) }
{
    hassljung::hassljung_verdict(t, r)
}

// Whether it is settled.
#[unsafe(no_mangle)]
pub extern "C" fn hassljung_settled(t: &[u8], r: Record) -> SettledAnswer
    ensures { result ≡ settled_answer (settled_of t.now r) }
{
    hassljung::hassljung_settled(t, r)
}

// How many stretches the record holds.
#[unsafe(no_mangle)]
pub extern "C" fn hassljung_count(t: &[u8], r: Record) -> CountAnswer
    ensures { result ≡ count_answer (count_of t.now r) }
{
    hassljung::hassljung_count(t, r)
}
