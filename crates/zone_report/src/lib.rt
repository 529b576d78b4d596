// The zone list of a register as text: the header line, and a line for each write.
#![tactic(auto)]

ghost use Rattle.records.specs.Records.{table_of};
ghost use Rattle.printing.specs.Texts.{Printed};
ghost use Rattle.printing.specs.Files.{file_text};
ghost use Rattle.zone_report.specs.Text.{zones_text, Meant};

use history::{Answer, Row};

// The numbers of as many writes as a table has rows.
const LARGEST_LIST: usize = 4096;

// The zone list of a table's register, or the line of its refusal.
fn text(table: &[u64], register: u64, out: &mut [u8]) -> Answer
    ensures { Printed (zones_text register table.now) out.old result out.new }
{
    let mut rows = [0u64; Row::LARGEST_COUNT];
    let met = screening::examine_into(table, register, false, &mut rows);
    if met.code != 0 {
        return printing::refusal(met, out);
    }
    let n = met.rows as usize;
    let mut list = [0u64; LARGEST_LIST];
    let m = zone_list::list_gathered(table, register, &mut rows[..n], &mut list);
    printing::headed(
        b"row,direction,low,high\n",
        &list,
        zone_list::NUMBERS,
        m,
        out,
    )
}

// The zone list of a register of a file, or the line of the refusal of the file or of the register, and what the lines show.
pub fn zones(bytes: &[u8], register: u64, out: &mut [u8]) -> Answer
    ensures text { Printed (file_text bytes.now (zones_text register)) out.old result out.new }
    ensures shown { Meant (table_of bytes.now) register }
{
    printing::of_file(bytes, out, |table, out| text(table, register, out))
}
