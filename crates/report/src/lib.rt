// The report of a road: the header line, and a line for each register.
#![tactic(auto)]

ghost use Rattle.std.specs.Prelude.{◌≡◌, ℕ};
ghost use Rattle.records.specs.Records.{table_of};
ghost use Rattle.summary.specs.Summary.{Meant};
ghost use Rattle.printing.specs.Texts.{Printed};
ghost use Rattle.printing.specs.Files.{file_text};
ghost use Rattle.report.specs.Report.{report_of, report_answer, report_after};

use history::{Answer, Row};

// The report of a table, and what the marks on its lines say.
pub fn report(table: &[u64], out: &mut [u8]) -> Answer
    ensures outcome { (result ≡ report_answer table.now out.old) × (out.new ≡ report_after table.now out.old) }
    ensures said { (register : ℕ) → Meant table.now register }
{
    let mut numbers = [0u64; Row::LARGEST_TABLE];
    let summed = summary::summary(table, &mut numbers);
    if summed.code != 0 {
        return summed;
    }
    let k = summed.rows as usize;
    let n = k * summary::ENTRY;
    printing::headed(
        b"register,rows,one,two,row\n",
        &numbers[..n],
        summary::ENTRY,
        k,
        out,
    )
}

// The report of a file, or the line of its refusal, and what the marks on its lines say.
pub fn road(bytes: &[u8], out: &mut [u8]) -> Answer
    ensures text { Printed (file_text bytes.now report_of) out.old result out.new }
    ensures said { (register : ℕ) → Meant (table_of bytes.now) register }
{
    printing::of_file(bytes, out, |table, out| report(table, out))
}
