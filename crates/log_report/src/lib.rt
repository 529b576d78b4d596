// The report of a log with named columns.
#![tactic(auto)]

ghost use Rattle.std.specs.Prelude.{ℕ};
ghost use Rattle.log_tables.specs.Logs.{log_table};
ghost use Rattle.summary.specs.Summary.{Meant};
ghost use Rattle.printing.specs.Texts.{Printed};
ghost use Rattle.log_report.specs.Logs.{log_text};

use history::{Answer, Row};

// The report of a log, or the line of its refusal, and what the marks on its lines say.
pub fn log(bytes: &[u8], out: &mut [u8]) -> Answer
    ensures text { Printed (log_text bytes.now) out.old result out.new }
    ensures said { (register : ℕ) → Meant (log_table bytes.now) register }
{
    let mut table = [0u64; Row::LARGEST_TABLE];
    let loaded = logs::load(bytes, &mut table);
    if loaded.code != 0 {
        return printing::refusal(loaded, out);
    }
    let n = (loaded.rows as usize) * Row::COLUMNS;
    report::report(&table[..n], out)
}
