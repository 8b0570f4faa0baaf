// A watch whose table and record are known to pass the checks 1 to 8.
#![tactic(auto)]

ghost use Rattle.std.specs.Prelude.{◌≡◌, true};
ghost use Rattle.meaning.specs.Tables.{table_of, horizon as horizon_of};
ghost use Rattle.record.specs.Records.{properb};

use faults::SoundTable;
use record::Record;

// A table that passes, its horizon, and a record that is proper for it.
#[derive(Clone, Copy)]
pub struct Known<'a> {
    pub table: SoundTable<'a>,
    pub horizon: u32,
    pub held: Record,
    pub ghost reach: { horizon ≡ horizon_of (table_of table.bytes.now) },
    pub ghost proper: { properb horizon table.head.states held ≡ true },
}
