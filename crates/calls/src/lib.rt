// The calls: start, letter, span and gap, and the questions verdict, settled and count. Each may be handed anything: its checks
// come first, in their order, and what fails one is refused. Under the checks of a letter, a span and a gap lie their steps, for
// a caller that knows its table and its record to pass 1 to 8; a start's is that of `spans`, a question's those of `verdicts`.
#![tactic(auto)]

ghost use Rattle.std.specs.Prelude.{◌≡◌, ◌&&◌, ◌||◌, not, true, eqb, leb, ltb, IfOk};
ghost use Rattle.meaning.specs.Tables.{table_of, horizon as horizon_of};
ghost use Rattle.faults.specs.Numbered.{number, number_of};
ghost use Rattle.record.specs.Records.{properb};
ghost use Rattle.calls.specs.Calls.{start_fault, record_fault, start_of, letter_of, span_of, gap_of};
ghost use Rattle.calls.specs.Calls.{letter_step, span_step, gap_step, accepted, refusal, answered};
ghost use Rattle.calls.specs.Calls.{verdict_of, settled_of, count_of, verdict_reply, settled_reply, count_reply};

use faults::{Fault, SoundTable};
use known::Known;
use record::{Pair, Record};
use verdicts::Verdict;

// Why a call is refused, with the record as it was handed in; a refused start has a record of all zeros. The record lies first, where
// that of an accepted call lies: so it is moved as a whole.
#[derive(Clone, Copy)]
pub struct Refusal {
    pub held: Record,
    pub fault: Fault,
}

// What start, letter, span and gap answer where a number is wanted, as in C: 0 with the new record, or the number of the first
// check that failed with the record as it was handed in; a refused start has a record of all zeros.
#[repr(C)]
#[derive(Clone, Copy)]
pub struct Answer {
    pub number: u8,
    pub next: Record,
}

impl Answer {
    pub fn of(outcome: Result<Record, Refusal>) -> Answer
        ensures { result ≡ answered outcome }
    {
        let next = match outcome {
            Ok(next) => next,
            Err(Refusal { held, fault }) => {
                return Answer {
                    number: fault.into(),
                    next: held,
                };
            }
        };
        Answer { number: 0, next }
    }
}

// ---- the checks

// A table that passes, its horizon, and a record that is proper for it: a `Known` whose record is lent, so that none is copied
// where it is refused or only asked.
#[derive(Clone, Copy)]
struct Passed<'a, 'b> {
    table: SoundTable<'a>,
    horizon: u32,
    held: &'b Record,
    ghost reach: { horizon ≡ horizon_of (table_of table.bytes.now) },
    ghost proper: { properb horizon table.head.states held.now ≡ true },
}

impl<'a, 'b> Passed<'a, 'b> {
    fn known(&self) -> Known<'a>
        ensures table { result.table ≡ self.now.table }
        ensures held { result.held ≡ self.now.held.now }
    {
        Known {
            table: self.table,
            horizon: self.horizon,
            held: *self.held,
        }
    }
}

// The table t, and then the record r for that table, where both pass.
fn check<'a, 'b>(t: &'a [u8], r: &'b Record) -> Result<Passed<'a, 'b>, Fault>
    ensures number { number_of result ≡ record_fault t.now r.now }
    ensures table { IfOk result (λ passed. passed.table.bytes ≡ t.entry) }
    ensures held { IfOk result (λ passed. passed.held ≡ r.entry) }
{
    let table = faults::check_table(t)?;
    let horizon = meaning::horizon_of(t);
    if !r.is_proper(horizon, table.head.states) {
        return Err(Fault::Improper);
    }
    Ok(Passed {
        table,
        horizon,
        held: r,
    })
}

// The same of a record that is handed in.
pub fn check_record(t: &[u8], r: Record) -> Result<Known<'_>, Fault>
    ensures number { number_of result ≡ record_fault t.now r }
    ensures table { IfOk result (λ known. known.table.bytes ≡ t.entry) }
    ensures held { IfOk result (λ known. known.held ≡ r) }
{
    Ok(check(t, &r)?.known())
}

// A record has room for 1 to 64 stretches.
#[tactic(auto, using(base::proofs::Rules::tests))]
fn is_room(room: u8) -> bool
    ensures { result ≡ leb 1 room && leb room 64 }
{
    (1..=64).contains(&room)
}

// A span is 1 to 2,147,483,647 seconds long.
#[tactic(auto, using(base::proofs::Rules::tests))]
fn is_span(seconds: u32) -> bool
    ensures { result ≡ not (eqb seconds 0 || ltb 2147483647 seconds) }
{
    (1..=2_147_483_647).contains(&seconds)
}

// The table t, and then the room.
fn check_start(t: &[u8], room: u8) -> Result<(), Fault>
    ensures { number_of result ≡ start_fault t.now room }
{
    faults::check_table(t)?;
    if !is_room(room) {
        return Err(Fault::Improper);
    }
    Ok(())
}

// ---- the calls

// A refusal that hands the record r back.
fn refused(fault: Fault, r: Record) -> Result<Record, Refusal>
    ensures { answered result ≡ refusal (number fault) r }
{
    Err(Refusal { held: r, fault })
}

// A watch begins, in a room of so many stretches.
pub fn start(t: &[u8], room: u8) -> Result<Record, Refusal>
    ensures { answered result ≡ start_of t.now room }
{
    match check_start(t, room) {
        Ok(()) => Ok(spans::at_start(t, room)),
        Err(fault) => refused(fault, Record::empty(0, Pair::default())),
    }
}

// The letter, where the checks 1 to 8 have passed.
pub fn letter_step(known: &Known<'_>, letter: u8) -> Result<Record, Refusal>
    ensures { answered result ≡ letter_step known.now.table.bytes.now known.now.held letter }
{
    if known.table.head.letters <= letter {
        return refused(Fault::Letter, known.held);
    }
    let next = letters::after_letter(known, letter);
    if known.held.room < next.count {
        return refused(Fault::Room, known.held);
    }
    Ok(next)
}

// A letter arrives.
pub fn letter(t: &[u8], r: Record, letter: u8) -> Result<Record, Refusal>
    ensures { answered result ≡ letter_of t.now r letter }
{
    match check(t, &r) {
        Ok(passed) => letter_step(&passed.known(), letter),
        Err(fault) => refused(fault, r),
    }
}

// The span, where the checks 1 to 8 have passed.
pub fn span_step(known: &Known<'_>, seconds: u32) -> Result<Record, Refusal>
    ensures { answered result ≡ span_step known.now.table.bytes.now known.now.held seconds }
{
    if !is_span(seconds) {
        return refused(Fault::Span, known.held);
    }
    Ok(spans::after_span(known.horizon, &known.held, seconds))
}

// So many seconds pass.
pub fn span(t: &[u8], r: Record, seconds: u32) -> Result<Record, Refusal>
    ensures { answered result ≡ span_of t.now r seconds }
{
    match check(t, &r) {
        Ok(passed) => span_step(&passed.known(), seconds),
        Err(fault) => refused(fault, r),
    }
}

// The gap, where the checks 1 to 8 have passed.
pub fn gap_step(known: &Known<'_>) -> Record
    ensures { accepted result ≡ gap_step known.now.table.bytes.now known.now.held }
{
    spans::at_gap(&known.table, known.horizon, known.held.room)
}

// Some of the stream is lost: nothing is assumed of what stands now.
pub fn gap(t: &[u8], r: Record) -> Result<Record, Refusal>
    ensures { answered result ≡ gap_of t.now r }
{
    match check(t, &r) {
        Ok(passed) => Ok(gap_step(&passed.known())),
        Err(fault) => refused(fault, r),
    }
}

// ---- the questions

// Yes if the sure set accepts, no if the possible set does not, unsure otherwise.
#[tactic(auto, using(crate::proofs::Steps::refused_by), unfolding(crate::specs::Calls::verdict_of))]
pub fn verdict(t: &[u8], r: Record) -> Result<Verdict, Fault>
    ensures { verdict_reply result ≡ verdict_of t.now r }
{
    Ok(verdicts::verdict_of(t, check(t, &r)?.held))
}

// Whether the sure and the possible set are the same.
#[tactic(auto, using(crate::proofs::Steps::refused_by), unfolding(crate::specs::Calls::settled_of))]
pub fn settled(t: &[u8], r: Record) -> Result<bool, Fault>
    ensures { settled_reply result ≡ settled_of t.now r }
{
    Ok(verdicts::is_settled(check(t, &r)?.held))
}

// How many stretches the record holds.
#[tactic(auto, using(crate::proofs::Steps::refused_by), unfolding(crate::specs::Calls::count_of))]
pub fn count(t: &[u8], r: Record) -> Result<u8, Fault>
    ensures { count_reply result ≡ count_of t.now r }
{
    Ok(check(t, &r)?.held.count)
}
