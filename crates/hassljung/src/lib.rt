// The library for a controller's firmware: each call and each question in the form in which it crosses to C, under a name with a
// prefix. Thin: each hands on what it is handed, and answers as `calls` does. Neither a Result nor an enum crosses to C, so a refusal
// crosses as its number, and so does a verdict. `hassljung_c` has the exports.
#![tactic(auto)]

ghost use Rattle.std.specs.Prelude.{◌≡◌};
ghost use Rattle.calls.specs.Calls.{start_of, letter_of, span_of, gap_of, verdict_of, settled_of, count_of};
ghost use Rattle.hassljung.specs.Crossing.{verdict_answer, settled_answer, count_answer};

use calls::Answer;
use record::Record;

// What a question answers: 0 and what was asked, or the number of the first check that failed and nothing else, which is 0. There
// are three of a kind, since C has a name for each and no generic struct.
#[repr(C)]
#[derive(Clone, Copy)]
pub struct VerdictAnswer {
    pub number: u8,
    pub verdict: u8,
}

#[repr(C)]
#[derive(Clone, Copy)]
pub struct SettledAnswer {
    pub number: u8,
    pub settled: bool,
}

#[repr(C)]
#[derive(Clone, Copy)]
pub struct CountAnswer {
    pub number: u8,
    pub count: u8,
}

// ---- the calls

// A watch begins, in a room of so many stretches. A refused start has a record of all zeros.
pub fn hassljung_start(t: &[u8], room: u8) -> Answer
    ensures { result ≡ start_of t.now room }
{
    Answer::of(calls::start(t, room))
}

// A letter arrives.
pub fn hassljung_letter(t: &[u8], r: Record, letter: u8) -> Answer
    ensures { result ≡ letter_of t.now r letter }
{
    Answer::of(calls::letter(t, r, letter))
}

// So many seconds pass.
pub fn hassljung_span(t: &[u8], r: Record, seconds: u32) -> Answer
    ensures { result ≡ span_of t.now r seconds }
{
    Answer::of(calls::span(t, r, seconds))
}

// Some of the stream is lost.
pub fn hassljung_gap(t: &[u8], r: Record) -> Answer
    ensures { result ≡ gap_of t.now r }
{
    Answer::of(calls::gap(t, r))
}

// ---- the questions

// The verdict: 1 for yes, 2 for no, 3 for unsure.
pub fn hassljung_verdict(t: &[u8], r: Record) -> VerdictAnswer
    ensures { result ≡ verdict_answer (verdict_of t.now r) }
{
    match calls::verdict(t, r) {
        Ok(verdict) => VerdictAnswer {
            number: 0,
            verdict: verdict.into(),
        },
        Err(fault) => VerdictAnswer {
            number: fault.into(),
            verdict: 0,
        },
    }
}

// Whether it is settled.
pub fn hassljung_settled(t: &[u8], r: Record) -> SettledAnswer
    ensures { result ≡ settled_answer (settled_of t.now r) }
{
    match calls::settled(t, r) {
        Ok(settled) => SettledAnswer { number: 0, settled },
        Err(fault) => SettledAnswer {
            number: fault.into(),
            settled: false,
        },
    }
}

// How many stretches the record holds.
pub fn hassljung_count(t: &[u8], r: Record) -> CountAnswer
    ensures { result ≡ count_answer (count_of t.now r) }
{
    match calls::count(t, r) {
        Ok(count) => CountAnswer { number: 0, count },
        Err(fault) => CountAnswer {
            number: fault.into(),
            count: 0,
        },
    }
}
