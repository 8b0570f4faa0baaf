// The horizon of a table: the age above which no line tells one age from another. Every slice is answered, also one that is
// no table: its lines are read as `table` reads them.
#![tactic(auto)]

ghost use Rattle.std.specs.Prelude.{◌≡◌};
ghost use Rattle.meaning.specs.Tables.{table_of, line_top, horizon};

use table::Line;

// The larger of L and U, a U of no bound left out.
fn line_top(l: Line) -> u32
    ensures { result ≡ line_top l }
{
    if l.greatest == 4_294_967_295 {
        return l.least;
    }
    l.least.max(l.greatest)
}

// The largest L or finite U in any line of the table t, 0 if there are no lines.
pub fn horizon_of(t: &[u8]) -> u32
    ensures { result ≡ horizon (table_of t.now) }
{
    let lines = table::head_of(t).lines;
    let mut top = 0;
    for k in 0..lines {
        top = top.max(line_top(table::line_at(t, k)));
    }
    top
}
