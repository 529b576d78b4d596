// The sheet of a register of a history file, which the programs bench and exam print.
#![tactic(auto)]

ghost use Rattle.records.specs.Records.{table_of};
ghost use Rattle.marks.specs.Marks.{most_trials};
ghost use Rattle.printing.specs.Texts.{Printed};
ghost use Rattle.sheet.specs.Sheet.{Shown, Told};
ghost use Rattle.file_sheets.specs.Files.{bench_of, exam_file};

use history::Answer;

// The sheet of a register of a history file, or the line of a refused file.
pub fn bench(bytes: &[u8], register: u64, allowance: u64, out: &mut [u8]) -> Answer
    ensures text { Printed (bench_of bytes.now register allowance) out.old result out.new }
    ensures shown { Shown (table_of bytes.now) register allowance }
{
    printing::of_file(
        bytes,
        out,
        |table, out| sheet::sheet(table, register, allowance, out),
    )
}

// The same with the check of an order.
pub fn exam(bytes: &[u8], register: u64, k: u64, list: &[u64], out: &mut [u8]) -> Answer
    ensures text { Printed (exam_file bytes.now register k list.now) out.old result out.new }
    ensures shown { Shown (table_of bytes.now) register most_trials }
    ensures told { Told (table_of bytes.now) register k list.now }
{
    printing::of_file(
        bytes,
        out,
        |table, out| sheet::checked(table, register, k, list, out),
    )
}
