// A program for tests: it answers cases from standard input by the library's own functions, so that another program can hold
// these to its own. A case is a kind byte, a length n of 4 bytes, and n bytes, at most 131,072. The input ends the program, and
// so does a case that cannot be read.
//
// Kind 1, a table: the n bytes. Answer: its number, and its horizon in 4 bytes, 0 where it is refused.
// Kind 2, a record and a table: 774 bytes and the rest. Answer: the number of the first check that fails, 1 to 8, or 0. The 774
// bytes are the room, the count, 64 places of 12 bytes (first, last, sure, possible) and the pair above H.
// Kinds 3 to 6, the calls start, letter, span and gap. A start: a byte for the room, and a table. The others: a record, then a
// byte for the letter or 4 for the seconds or none, and a table. Answer: the number, and the record in 774 bytes.
// Kinds 7 to 9, the questions verdict, settled and count: a record and a table. Answer: the number, and a byte: 1 for yes, 2
// for no, 3 for unsure; 1 for settled, 0 for open; the count; 0 where it is refused.
//
// A read or a write that fails is said on standard error, and makes the status 1.
//
// Numbers are big-endian. What is read and written is tested and not proved. The cases in the file stdin beside src/ are of
// document 01's table, whole and cut to 11 bytes, with the records of a start, of a gap, and of a gap past H; and of its
// session: entries 0 to 6, the questions after entries 0, 3 and 6, the refusals of entries 10 and 11 and, with room 1, of
// entry 3. The answers in the file stdout are worked out from the document.
#![tactic(auto)]

ghost use Rattle.std.specs.Prelude.{◌+◌, ◌≤◌, IfSome};

use calls::Answer;
use faults::Fault;
use record::{Pair, Record, Stretch};
use std::io;
use std::io::{ErrorKind, Read, Write};

// No case is longer.
const LONGEST: usize = 131_072;

// A record's bytes, and those of the longest answer.
const RECORD: usize = 774;

const ANSWER: usize = 775;

// ---- the cases

// What a case asks: of a table, of a start, or of a record that is held.
#[derive(Clone, Copy)]
enum Kind {
    Table,
    Start,
    Held(Asked),
}

#[derive(Clone, Copy)]
enum Asked {
    Record,
    Letter,
    Span,
    Gap,
    Verdict,
    Settled,
    Count,
}

// A byte that is no kind.
#[derive(Clone, Copy)]
struct NoKind;

impl TryFrom<u8> for Kind {
    type Error = NoKind;

    fn try_from(byte: u8) -> Result<Kind, NoKind> {
        Ok(match byte {
            1 => Kind::Table,
            2 => Kind::Held(Asked::Record),
            3 => Kind::Start,
            4 => Kind::Held(Asked::Letter),
            5 => Kind::Held(Asked::Span),
            6 => Kind::Held(Asked::Gap),
            7 => Kind::Held(Asked::Verdict),
            8 => Kind::Held(Asked::Settled),
            9 => Kind::Held(Asked::Count),
            _ => return Err(NoKind),
        })
    }
}

// ---- the parts of a case. Each is taken off its front, where its bytes are all there; what is left is the table. What a record has
// stands at places of its own.

fn take<const N: usize>(case: &mut &[u8]) -> Option<[u8; N]> {
    let (front, rest) = case.split_first_chunk()?;
    *case = rest;
    Some(*front)
}

fn pair_in(s: &[u8; RECORD], at: usize) -> Pair
    requires { at + 4 ≤ 774 }
{
    Pair {
        sure: u16::from_be_bytes([s[at], s[at + 1]]),
        possible: u16::from_be_bytes([s[at + 2], s[at + 3]]),
    }
}

fn stretch_in(s: &[u8; RECORD], at: usize) -> Stretch
    requires { at + 12 ≤ 774 }
{
    Stretch {
        first: u32::from_be_bytes([s[at], s[at + 1], s[at + 2], s[at + 3]]),
        last: u32::from_be_bytes([s[at + 4], s[at + 5], s[at + 6], s[at + 7]]),
        pair: pair_in(s, at + 8),
    }
}

fn take_record(case: &mut &[u8]) -> Option<Record> {
    let (front, rest) = case.split_first_chunk::<RECORD>()?;
    *case = rest;
    let mut places = [Stretch::default(); 64];
    for i in 0..64 {
        places[i] = stretch_in(front, 2 + 12 * i);
    }
    Some(Record {
        room: front[0],
        count: front[1],
        places,
        above: pair_in(front, 770),
    })
}

// ---- the answers as bytes. Each is put together in a lent buffer, from its start on, and written at once; what puts one answers how
// many bytes it has. The number comes first, and 0 stands for what a refused case does not have.

fn put_pair(out: &mut [u8; ANSWER], at: usize, pair: Pair)
    requires { at + 4 ≤ 775 }
{
    [out[at], out[at + 1]] = pair.sure.to_be_bytes();
    [out[at + 2], out[at + 3]] = pair.possible.to_be_bytes();
}

fn put_stretch(out: &mut [u8; ANSWER], at: usize, x: Stretch)
    requires { at + 12 ≤ 775 }
{
    [out[at], out[at + 1], out[at + 2], out[at + 3]] = x.first.to_be_bytes();
    [out[at + 4], out[at + 5], out[at + 6], out[at + 7]] = x.last.to_be_bytes();
    put_pair(out, at + 8, x.pair);
}

// A call's.
fn put_answer(out: &mut [u8; ANSWER], answer: &Answer) -> usize
    ensures { result ≤ 775 }
{
    out[0] = answer.number;
    out[1] = answer.next.room;
    out[2] = answer.next.count;
    for i in 0..64 {
        put_stretch(out, 3 + 12 * i, answer.next.places[i]);
    }
    put_pair(out, 771, answer.next.above);
    ANSWER
}

// A table's horizon.
fn put_horizon(out: &mut [u8; ANSWER], horizon: Result<u32, Fault>) -> usize
    ensures { result ≤ 775 }
{
    let (number, bytes) = match horizon {
        Ok(horizon) => (0, horizon.to_be_bytes()),
        Err(fault) => (fault.into(), [0; 4]),
    };
    out[0] = number;
    [out[1], out[2], out[3], out[4]] = bytes;
    5
}

// Whether a record passes.
fn put_passes(out: &mut [u8; ANSWER], passes: Result<(), Fault>) -> usize
    ensures { result ≤ 775 }
{
    out[0] = match passes {
        Ok(()) => 0,
        Err(fault) => fault.into(),
    };
    1
}

// A question's, in a byte.
fn put_told(out: &mut [u8; ANSWER], told: Result<u8, Fault>) -> usize
    ensures { result ≤ 775 }
{
    [out[0], out[1]] = match told {
        Ok(value) => [0, value],
        Err(fault) => [fault.into(), 0],
    };
    2
}

// The answer to a case that has a record.
fn put_held(out: &mut [u8; ANSWER], asked: Asked, r: Record, mut case: &[u8]) -> Option<usize>
    ensures { IfSome result (λ n. n ≤ 775) }
{
    let outcome = match asked {
        Asked::Record => return Some(put_passes(out, calls::check_record(case, r).map(|_| ()))),
        Asked::Letter => {
            let [letter] = take::<1>(&mut case)?;
            calls::letter(case, r, letter)
        }
        Asked::Span => {
            let seconds = u32::from_be_bytes(take(&mut case)?);
            calls::span(case, r, seconds)
        }
        Asked::Gap => calls::gap(case, r),
        Asked::Verdict => return Some(put_told(out, calls::verdict(case, r).map(u8::from))),
        Asked::Settled => return Some(put_told(out, calls::settled(case, r).map(u8::from))),
        Asked::Count => return Some(put_told(out, calls::count(case, r))),
    };
    Some(put_answer(out, &Answer::of(outcome)))
}

// The answer to a case of that kind, where it has every part that its kind has.
fn put_reply(out: &mut [u8; ANSWER], kind: Kind, mut case: &[u8]) -> Option<usize>
    ensures { IfSome result (λ n. n ≤ 775) }
{
    match kind {
        Kind::Table => {
            let horizon = faults::check_table(case).map(|_| meaning::horizon_of(case));
            Some(put_horizon(out, horizon))
        }
        Kind::Start => {
            let [room] = take::<1>(&mut case)?;
            let answer = Answer::of(calls::start(case, room));
            Some(put_answer(out, &answer))
        }
        Kind::Held(asked) => {
            let r = take_record(&mut case)?;
            put_held(out, asked, r, case)
        }
    }
}

// ---- the program

// Fills `part` from the input: whether the input had enough for it.
fn filled(input: &mut impl Read, part: &mut [u8]) -> io::Result<bool> {
    match input.read_exact(part) {
        Ok(()) => Ok(true),
        Err(e) if e.kind() == ErrorKind::UnexpectedEof => Ok(false),
        Err(e) => Err(e),
    }
}

// The next case: its kind, and its bytes, read into space. None where the input ends, or a case has no kind or is too long.
fn read_case<'a>(
    input: &mut impl Read,
    space: &'a mut [u8],
) -> io::Result<Option<(Kind, &'a [u8])>> {
    let mut head = [0; 5];
    if !filled(input, &mut head)? {
        return Ok(None);
    }
    let [kind, a, b, c, d] = head;
    let length = u32::from_be_bytes([a, b, c, d]) as usize;
    let Some(case) = space.get_mut(..length) else {
        return Ok(None);
    };
    if !filled(input, case)? {
        return Ok(None);
    }
    Ok(Kind::try_from(kind).ok().map(|kind| (kind, &*case)))
}

fn main(rt: HostRuntime) -> io::Result<()> {
    let mut space = [0; LONGEST];
    let mut out = [0; ANSWER];
    for _ in 0..u32::MAX {
        let Some((kind, case)) = read_case(&mut rt.stdin(), &mut space)? else {
            break;
        };
        let Some(count) = put_reply(&mut out, kind, case) else {
            break;
        };
        rt.stdout().write_all(&out[..count])?;
    }
    Ok(())
}
