// A whole session: from the bytes that the program reads to the bytes that it prints. The table is checked once, at the start;
// from then on the watch is known, and the entries take the steps under the calls' checks.
#![tactic(auto)]

ghost use Rattle.std.specs.Prelude.{◌≤◌, ◌≡◌, length, take, IfOk};
ghost use Rattle.io.specs.Counts.{IsPrefixLen};
ghost use Rattle.calls.specs.Calls.{start_of, answered};
ghost use Rattle.text.specs.Text.{Fits, Adds};
ghost use Rattle.session.specs.Sessions.{framed, table_in, call_of, held_text, answer_text, entries_from, started_text};
ghost use Rattle.session.specs.Sessions.{session_of};
ghost use Rattle.session.specs.Ready.{room_for_lines, begun, Begins, Ready};

use calls::Refusal;
use entries::{Entry, Symbol};
use faults::{Fault, SoundTable};
use known::Known;
use reader::Reader;
use record::Record;
use text::Lines;

// ---- the frame

// Whether there are 2 to 32,768 bytes, of version 1.
#[tactic(auto, using(base::proofs::Rules::tests), unfolding(crate::specs::Sessions::framed))]
fn is_framed(s: &[u8]) -> bool
    ensures { result ≡ framed s.now }
{
    2 <= s.len() && s.len() <= 32_768 && s[0] == 1
}

// The table: as long as its own bytes 1-2 say, but no longer than what is left.
fn table_in(s: &[u8]) -> &[u8]
    requires { 2 ≤ length s.now }
    ensures { result.now ≡ table_in s.now }
{
    let rest = &s[2..];
    let [_, high, low, ..] = *rest else {
        return rest;
    };
    let stated = table::be16(high, low) as usize;
    &rest[..stated.min(rest.len())]
}

// ---- the watch

// The watch that a start begins. A table that a start took has passed the checks, so it is not checked again.
fn begin(t: &[u8], room: u8) -> Result<Known<'_>, Refusal>
    ensures answer { begun result ≡ start_of t.now room }
    ensures table { IfOk result (λ known. known.table.bytes ≡ t.entry) }
{
    let held = calls::start(t, room)?;
    let table = SoundTable {
        bytes: t,
        head: table::head_of(t),
    };
    Ok(Known {
        table,
        horizon: meaning::horizon_of(t),
        held,
    })
}

// What the entry's call answers. A symbol is matched by its case: a closure for each kind would be no plainer.
fn answer_to(known: &Known<'_>, symbol: Symbol) -> Result<Record, Refusal>
    ensures { answered result ≡ call_of known.now.table.bytes.now known.now.held symbol }
{
    match symbol {
        Symbol::Letter(letter) => calls::letter_step(known, letter),
        Symbol::Span(seconds) => calls::span_step(known, seconds),
        Symbol::Gap => Ok(calls::gap_step(known)),
    }
}

// ---- the lines

// The line of what is held.
fn put_held(known: &Known<'_>, ordinal: u16, lines: &mut Lines<'_>)
    requires { Fits lines.old 27 }
    ensures { Adds lines.old (held_text known.now.table.bytes.now ordinal known.now.held) lines.new }
{
    let verdict = verdicts::verdict_of(known.table.bytes, &known.held);
    let settled = verdicts::is_settled(&known.held);
    lines.put_line(ordinal, verdict, settled, known.held.count);
}

// The line of an entry. What its call hands back is held from now on, and a refused one hands back what was held.
fn put_entry(known: &mut Known<'_>, entry: Entry, lines: &mut Lines<'_>)
    requires { Fits lines.old 27 }
    ensures text { Adds lines.old
        (answer_text known.old.table.bytes.now entry.ordinal (call_of known.old.table.bytes.now known.old.held entry.symbol))
        lines.new }
    ensures table { known.new.table.bytes ≡ known.old.table.bytes }
    ensures held { known.new.held ≡ (call_of known.old.table.bytes.now known.old.held entry.symbol).next }
{
    match answer_to(known, entry.symbol) {
        Ok(held) => {
            known.held = held;
            put_held(known, entry.ordinal, lines);
        }
        Err(refusal) => {
            known.held = refusal.held;
            lines.put_refusal(entry.ordinal, refusal.fault.into());
        }
    }
}

// The lines of the entries from the place `from` on, where the table ended; the reader begins there.
fn put_entries(s: &[u8], mut known: Known<'_>, from: usize, lines: &mut Lines<'_>)
    requires { Ready s.now from lines.old.at (length lines.old.out.now) }
    ensures { Adds lines.old (entries_from known.entry.table.bytes.now s.now from known.entry.held) lines.new }
{
    let mut reader = Reader::new(s, from);
    let mut ordinal = 1;
    // Nothing but the bytes left says how many entries there are, and a refused one counts: so no `for` gives the ordinals.
    while reader.at < s.len() {
        let Some((entry, next)) = reader.next(ordinal) else {
            lines.put_refusal(ordinal, Fault::Unreadable.into());
            return;
        };
        put_entry(&mut known, entry, lines);
        reader = reader.moved(next);
        ordinal += 1;
    }
}

// ---- the session

// Room for every line of a session: 27 bytes for each, for the start's and for one for every two of 32,768 bytes. The program lends
// it, since there is no heap.
pub const LINES: usize = 442_395;

pub fn lines_buffer() -> [u8; LINES]
    ensures { room_for_lines ≡ length result }
{
    [0; LINES]
}

// The start's line and, where it is accepted, the entries behind the table t.
fn put_begun(s: &[u8], t: &[u8], room: u8, from: usize, lines: &mut Lines<'_>)
    requires begins { Begins s.now from (length lines.old.out.now) }
    requires empty { lines.old.at ≡ 0 }
    ensures { Adds lines.old (started_text t.now s.now room from) lines.new }
{
    match begin(t, room) {
        Ok(known) => {
            put_held(&known, 0, lines);
            put_entries(s, known, from, lines);
        }
        Err(refusal) => lines.put_refusal(0, refusal.fault.into()),
    }
}

// The lines of a session: where it is framed the table is cut off, and the entries begin behind it.
fn put_session(s: &[u8], lines: &mut Lines<'_>)
    requires roomy { room_for_lines ≤ length lines.old.out.now }
    requires empty { lines.old.at ≡ 0 }
    ensures { Adds lines.old (session_of s.now) lines.new }
{
    if !is_framed(s) {
        lines.put_refusal(0, Fault::Unreadable.into());
        return;
    }
    let table = table_in(s);
    put_begun(s, table, s[1], 2 + table.len(), lines);
}

// The session s: the bytes to print stand at the start of out, as many as is answered.
pub fn session(s: &[u8], out: &mut [u8; LINES]) -> usize
    ensures text { take result out.new ≡ session_of s.now }
    ensures count { result ≡ length (session_of s.now) }
    ensures within { IsPrefixLen result out.new }
{
    let mut lines = Lines::new(out);
    put_session(s, &mut lines);
    lines.len()
}
