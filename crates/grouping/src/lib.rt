// The rows of a table by register: its registers, ascending, and the rows of each, without a pass over the table for each.
#![tactic(auto)]

ghost use Rattle.std.specs.Prelude.{◌≡◌, ◌+◌, ◌*◌, ◌≤◌, length};
ghost use Rattle.history.specs.Table.{row_count, rows_of};
ghost use Rattle.grouping.specs.Registers.{register_at, register_column, distinct};
ghost use Rattle.grouping.specs.Grouped.{by_register, Grouped, Front, Lists, Sought, Run};

use history::Row;

// The register of each row.
fn column(table: &[u64], keys: &mut [u64])
    requires { length keys.old ≡ row_count table.now }
    ensures { keys.new ≡ register_column table.now }
{
    for (i, key) in keys.iter_mut().enumerate() {
        *key = register_at(table, i);
    }
}

// The register of a row.
fn register_at(table: &[u64], row: usize) -> u64
    requires { row * 5 + 5 ≤ length table.now }
    ensures { result ≡ register_at table.now row }
{
    table[row * Row::COLUMNS + Row::REGISTER]
}

// The register of each row, and the rows by register, those of one register in table sequence.
pub fn group(table: &[u64], keys: &mut [u64], rows: &mut [u64])
    requires keys_len { length keys.old ≡ row_count table.now }
    requires rows_len { length rows.old ≡ row_count table.now }
    ensures { Grouped table.now keys.new rows.new }
{
    column(table, keys);
    sorting::places_by(keys, rows);
}

// The first place in the rows by register whose row has no lower register.
fn seek(table: &[u64], grouped: &[u64], register: u64) -> usize
    requires { grouped.now ≡ by_register table.now }
    ensures { Sought table.now grouped.now register result }
{
    let mut low = 0;
    let mut high = grouped.len();
    // `partition_point` asks its test of every number, and only a row of the table has a register.
    while low < high {
        let middle = low + (high - low) / 2;
        if register_at(table, grouped[middle] as usize) < register {
            low = middle + 1;
        } else {
            high = middle;
        }
    }
    low
}

// The rows from a place on that have the register, at the front of the list; their number.
fn run(table: &[u64], grouped: &[u64], register: u64, from: usize, list: &mut [u64]) -> usize
    requires grouped_value { grouped.now ≡ by_register table.now }
    requires from_in_bounds { from ≤ length grouped.now }
    requires table_in_bounds { row_count table.now ≤ length list.old }
    ensures { Run table.now grouped.now register from result list.new }
{
    let n = grouped.len() - from;
    for m in 0..n {
        let row = grouped[from + m];
        if register_at(table, row as usize) != register {
            return m;
        }
        list[m] = row;
    }
    n
}

// The rows of a register in table sequence, at the front of the list; their number.
pub fn rows_of(table: &[u64], grouped: &[u64], register: u64, list: &mut [u64]) -> usize
    requires grouped_value { grouped.now ≡ by_register table.now }
    requires table_in_bounds { row_count table.now ≤ length list.old }
    ensures { Front result list.new (rows_of table.now register) }
{
    let from = seek(table, grouped, register);
    run(table, grouped, register, from, list)
}

// Each number of a rising list once, at its front; how many there are.
fn distinct(list: &mut [u64]) -> usize
    ensures { Front result list.new (distinct list.old) }
{
    if list.is_empty() {
        return 0;
    }
    let mut last = list[0];
    let mut m = 1;
    for i in 1..list.len() {
        let next = list[i];
        if next != last {
            list[m] = next;
            m += 1;
            last = next;
        }
    }
    m
}

// The registers of a table, ascending, at the front of the list, which has a place for each row; how many there are.
pub fn registers(keys: &[u64], grouped: &[u64], list: &mut [u64]) -> usize
    requires { length list.old ≡ length grouped.now }
    ensures { Lists keys.now grouped.now result list.new }
{
    columns::rows_at(keys, grouped, list);
    distinct(list)
}
