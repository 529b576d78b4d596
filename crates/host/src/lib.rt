// One entry for a C host: a file's bytes, a register and a question, and the code comes back.
#![tactic(auto)]

ghost use Rattle.std.specs.Prelude.{◌≡◌, ◌≢◌, ◌*◌, ◌≤◌, length};
ghost use Rattle.history.specs.Answer.{number};
ghost use Rattle.history.specs.declared.Code.TheVariants.{ShortList};
ghost use Rattle.records.specs.Records.{table_of};
ghost use Rattle.files.specs.Files.{file_answer};
ghost use Rattle.marks.specs.Marks.{Said};
ghost use Rattle.selection.specs.Selected.{Placed};
ghost use Rattle.host.specs.Host.{host_code, Given};

use history::Row;

const FEW_CELLS: usize = Row::FEW * Row::COLUMNS;

// The code of the mark, by way of the register's rows alone: they are copied from their records' places into a table of N numbers.
fn code_sized<const N: usize>(bytes: &[u8], places: &[u16], register: u64, question: u64) -> u64
    requires size { N ≤ 5120 }
    requires placed { Placed bytes.now register places.now }
    requires room { length places.now * 5 ≤ N }
    ensures { Given bytes.now register question result }
{
    let mut table = [0u64; N];
    selection::copy(bytes, places, &mut table);
    let n = places.len() * Row::COLUMNS;
    let mark = marks::answer(&table[..n], register, question, marks::MOST_TRIALS);
    mark.code
}

// The code of the file's refusal, else of the mark; what the mark says is `Said`. One pass over the file finds the register's records, so that
// the table can be chosen by how many there are.
#[unsafe(no_mangle)]
pub extern "C" fn valgrist_mark(bytes: &[u8], register: u64, question: u64) -> u64
    ensures code { result ≡ host_code bytes.now register question }
    ensures said { (file_answer bytes.now).code ≡ 0 → Said (table_of bytes.now) register question result }
    ensures room { result ≢ number ShortList }
{
    let mut places = [0u16; Row::LARGEST_COUNT];
    let found = selection::find(bytes, register, &mut places);
    if found.code != 0 {
        return found.code;
    }
    let places = &places[..found.rows as usize];
    if places.len() <= Row::FEW {
        code_sized::<FEW_CELLS>(bytes, places, register, question)
    } else {
        code_sized::<{ Row::LARGEST_TABLE }>(bytes, places, register, question)
    }
}
