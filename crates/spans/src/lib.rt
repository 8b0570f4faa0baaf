// The record at a start, at a gap and after a span, for a table and a record that are known to pass the checks.
#![tactic(auto)]

ghost use Rattle.std.specs.Prelude.{ℕ, ◌+◌, ◌-◌, ◌^◌, ◌≤◌, ◌<◌, ◌≡◌};
ghost use Rattle.meaning.specs.Tables.{table_of, horizon as horizon_of};
ghost use Rattle.record.specs.Pairs.{together, start_pairs, gap_pairs};
ghost use Rattle.record.specs.Records.{place, pairs_at, record_of, Proper};
ghost use Rattle.spans.specs.Spans.{span_pairs, passed_in, moved_in};

use faults::SoundTable;
use record::{Pair, Record, Stretch};

// ---- a start and a gap

// The initial states at age 0, sure and possible alike.
#[tactic(auto, using(crate::proofs::Laws::start_pushed), unfolding(meaning::specs::Tables::table_of))]
pub fn at_start(t: &[u8], room: u8) -> Record
    requires room_low { 1 ≤ room }
    requires room_high { room ≤ 64 }
    ensures { result ≡ record_of room (horizon_of (table_of t.now)) (start_pairs (table_of t.now)) }
{
    let initial = table::head_of(t).initial;
    let pair = Pair {
        sure: initial,
        possible: initial,
    };
    let mut out = Record::empty(room, Pair::default());
    out.push(0, 0, pair);
    out
}

// The set of the states 0 to n - 1.
fn all_states(n: u8) -> u16
    requires { n ≤ 16 }
    ensures { result ≡ 2 ^ n - 1 }
{
    ((1u32 << n) - 1) as u16
}

// Nothing sure and everything possible, at every age.
pub fn at_gap(table: &SoundTable<'_>, horizon: u32, room: u8) -> Record
    requires room_low { 1 ≤ room }
    requires room_high { room ≤ 64 }
    ensures { result ≡ record_of room horizon (gap_pairs (table_of table.now.bytes.now)) }
{
    let all = all_states(table.head.states);
    let anything = Pair {
        sure: 0,
        possible: all,
    };
    let mut out = Record::empty(room, anything);
    out.push(0, horizon, anything);
    out
}

// ---- a span

// What the span takes above H: the pair of each stretch whose last age passes H. Horizon and seconds are two numbers here and below,
// as in the definitions, and no struct.
fn passed(horizon: u32, r: &Record, seconds: u32) -> Pair
    requires proper { (n : ℕ) × Proper horizon n r.now }
    requires ages_fit { horizon + seconds < 4294967296 }
    ensures { result ≡ together r.now.count (λ i. passed_in horizon seconds (place r.now i)) }
{
    let mut out = Pair::default();
    for x in r.stretches() {
        if horizon < x.last + seconds {
            out = out.both(x.pair);
        }
    }
    out
}

// The stretch, moved up behind those before it; what passes H is cut off.
fn move_in(horizon: u32, seconds: u32, x: Stretch, out: &mut Record)
    requires first_fits { x.first + seconds < 4294967296 }
    requires last_fits { x.last + seconds < 4294967296 }
    ensures { out.new ≡ moved_in horizon seconds x out.old }
{
    let first = x.first + seconds;
    if first <= horizon {
        out.push(first, horizon.min(x.last + seconds), x.pair);
    }
}

// Every age is as many seconds later. The record may be proper for any number of states: to take a `Known` would ask for a table too.
#[tactic(auto, using(record::proofs::Asked::place_of))]
pub fn after_span(horizon: u32, r: &Record, seconds: u32) -> Record
    requires proper { (n : ℕ) × Proper horizon n r.now }
    requires ages_fit { horizon + seconds < 4294967296 }
    ensures { result ≡ record_of r.now.room horizon (span_pairs horizon seconds (pairs_at horizon r.now)) }
{
    let gone = passed(horizon, r, seconds);
    let above = gone.both(r.above);
    let mut out = Record::empty(r.room, above);
    for x in r.stretches() {
        move_in(horizon, seconds, *x, &mut out);
    }
    out
}
