// What a record that is proper says: the verdict, and whether it is settled.
#![tactic(auto)]

ghost use Rattle.std.specs.Prelude.{ℕ, ◌≤◌, ◌≡◌};
ghost use Rattle.meaning.specs.Tables.{table_of, horizon};
ghost use Rattle.record.specs.Records.{pairs_at, Proper};
ghost use Rattle.record.specs.Verdicts.{verdict_at};
ghost use Rattle.verdicts.specs.Said.{verdict_case, verdict_number, accepted_of, accepted_in, settled_in};

use record::{Pair, Record};

// `Unsure` means that neither yes nor no would be right for every set that may have stood at the gap's end.
#[derive(Clone, Copy, PartialEq, Eq)]
pub enum Verdict {
    Yes = 1,
    No,
    Unsure,
}

impl From<Verdict> for u8 {
    ghost from_gives = { λ verdict n. n ≡ verdict_number (verdict_case verdict) };

    fn from(verdict: Verdict) -> u8 {
        verdict as u8
    }
}

// The accepting states of a pair.
fn accepted_of(accepting: u16, p: Pair) -> Pair
    ensures { result ≡ accepted_of accepting p }
{
    Pair {
        sure: p.sure & accepting,
        possible: p.possible & accepting,
    }
}

// The accepting states that the record holds, at any age.
fn accepted_in(accepting: u16, r: &Record) -> Pair
    requires { r.now.count ≤ 64 }
    ensures { result ≡ accepted_in accepting r.now }
{
    let mut out = Pair::default();
    for x in r.stretches() {
        out = out.both(accepted_of(accepting, x.pair));
    }
    out.both(accepted_of(accepting, r.above))
}

// Yes if the sure set accepts, no if the possible set does not. The record may be proper for any number of states, and the table any
// bytes: to take a `Known` would ask more.
#[tactic(auto, using(crate::proofs::Laws::verdicts), unfolding(meaning::specs::Tables::table_of))]
pub fn verdict_of(t: &[u8], r: &Record) -> Verdict
    requires { (n : ℕ) × Proper (horizon (table_of t.now)) n r.now }
    ensures { verdict_case result ≡ verdict_at (table_of t.now) (pairs_at (horizon (table_of t.now)) r.now) }
{
    let accepted = accepted_in(table::head_of(t).accepting, r);
    if accepted.sure != 0 {
        return Verdict::Yes;
    }
    if accepted.possible == 0 {
        return Verdict::No;
    }
    Verdict::Unsure
}

// Whether the sure and the possible set are the same, at every age.
pub fn is_settled(r: &Record) -> bool
    requires { r.now.count ≤ 64 }
    ensures { result ≡ settled_in r.now }
{
    r.above.sure == r.above.possible && r.stretches().iter().all(|x| x.pair.sure == x.pair.possible)
}
