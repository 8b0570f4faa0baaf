// Whether a slice of bytes is a table, and if not, which check fails first. The slice may have any length and any content, and
// nothing is written.
#![tactic(auto)]

ghost use Rattle.std.specs.Prelude.{◌≡◌, IfOk};
ghost use Rattle.base.specs.Checks.{first_of};
ghost use Rattle.table.specs.Table.{line_at, head_of};
ghost use Rattle.faults.specs.Faults.{bad_counts, bad_length, bad_masks, bad_parts, bad_greatest, bad_ages};
ghost use Rattle.faults.specs.Faults.{line_fault, table_fault};
ghost use Rattle.faults.specs.Numbered.{number, number_of};

use table::{Head, Line};

// Why a call refuses or a session ends, each by its number in document 01: a table that is too short, of another version, with
// counts out of range, a length that is not its own, a mask with too many states, or a line whose parts or ages are out of range;
// a record that is not proper, or a start's room that no record has; a letter or a span out of range; a letter for which there is no
// room; an entry that cannot be read.
#[derive(Clone, Copy, PartialEq, Eq)]
pub enum Fault {
    Short = 1,
    Version,
    Counts,
    Length,
    Masks,
    Parts,
    Ages,
    Improper,
    Letter,
    Span,
    Room,
    Unreadable,
}

impl From<Fault> for u8 {
    ghost from_gives = { λ fault n. n ≡ number fault };

    fn from(fault: Fault) -> u8 {
        fault as u8
    }
}

// A table that passes the checks 1 to 7, and its head.
#[derive(Clone, Copy)]
pub struct SoundTable<'a> {
    pub bytes: &'a [u8],
    pub head: Head,
    pub ghost sound: { table_fault bytes.now ≡ 0 },
    pub ghost headed: { head ≡ head_of bytes.now },
}

// 3: n, m or e is outside its range.
#[tactic(auto, using(base::proofs::Rules::tests), unfolding(crate::specs::Faults::bad_counts))]
fn bad_counts(h: Head) -> bool
    ensures { result ≡ bad_counts h }
{
    h.states == 0 || 16 < h.states || h.letters == 0 || 32 < h.letters || 64 < h.lines
}

// 4: the stated length is not that of the lines, or not that of the whole slice.
#[tactic(auto, using(base::proofs::Rules::tests), unfolding(crate::specs::Faults::bad_length))]
fn bad_length(h: Head, whole: usize) -> bool
    ensures { result ≡ bad_length h whole }
{
    let stated = h.length as usize;
    let lines = h.lines as usize;
    stated != 12 + 12 * lines || stated != whole
}

// 5: a mask has a bit for state n or above.
#[tactic(auto, using(base::proofs::Rules::tests), unfolding(crate::specs::Faults::bad_masks))]
fn bad_masks(h: Head) -> bool
    ensures { result ≡ bad_masks h }
{
    base::past_states(h.states, h.initial)
        || base::past_states(h.states, h.standing)
        || base::past_states(h.states, h.accepting)
}

// 6: a line's from or to is n or above, its letter m or above, or its flags above 1.
#[tactic(auto, using(base::proofs::Rules::tests), unfolding(crate::specs::Faults::bad_parts))]
fn bad_parts(h: Head, l: Line) -> bool
    ensures { result ≡ bad_parts h l }
{
    h.states <= l.from || h.states <= l.to || h.letters <= l.letter || 1 < l.flags
}

// U is above the longest age, and not the value that means no bound.
fn bad_greatest(greatest: u32) -> bool
    ensures { result ≡ bad_greatest greatest }
{
    31_622_400 < greatest && greatest != 4_294_967_295
}

// 7: L is above the longest age, or U is and is not the none value, or U is below L.
#[tactic(auto, using(base::proofs::Rules::tests), unfolding(crate::specs::Faults::bad_ages))]
fn bad_ages(l: Line) -> bool
    ensures { result ≡ bad_ages l }
{
    31_622_400 < l.least || bad_greatest(l.greatest) || l.greatest < l.least
}

// One line: 6 before 7.
#[tactic(auto, using(base::proofs::Rules::checks), unfolding(crate::specs::Faults::line_fault))]
fn check_line(h: Head, l: Line) -> Result<(), Fault>
    ensures { number_of result ≡ line_fault h l }
{
    if bad_parts(h, l) {
        return Err(Fault::Parts);
    }
    if bad_ages(l) {
        return Err(Fault::Ages);
    }
    Ok(())
}

// The first bad line decides, in table order.
fn check_lines(t: &[u8], h: Head) -> Result<(), Fault>
    ensures { number_of result ≡ first_of h.lines (λ k. line_fault h (line_at t.now k)) }
{
    for k in 0..h.lines {
        check_line(h, table::line_at(t, k))?;
    }
    Ok(())
}

// The table t, where it passes every check; the first that it fails decides.
#[tactic(auto, using(base::proofs::Rules::checks), unfolding(crate::specs::Faults::table_fault))]
pub fn check_table(t: &[u8]) -> Result<SoundTable<'_>, Fault>
    ensures number { number_of result ≡ table_fault t.now }
    ensures bytes { IfOk result (λ table. table.bytes ≡ t.entry) }
{
    let whole = t.len();
    if whole < 12 {
        return Err(Fault::Short);
    }
    let head = table::head_of(t);
    if head.version != 1 {
        return Err(Fault::Version);
    }
    if bad_counts(head) {
        return Err(Fault::Counts);
    }
    if bad_length(head, whole) {
        return Err(Fault::Length);
    }
    if bad_masks(head) {
        return Err(Fault::Masks);
    }
    check_lines(t, head)?;
    Ok(SoundTable { bytes: t, head })
}
