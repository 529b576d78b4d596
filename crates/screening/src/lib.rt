// The screening of a register: tests 1 to 9 of the table, each over the whole register before the next.
#![tactic(auto)]

ghost use Rattle.std.specs.Prelude.{◌≡◌, ◌↔◌, ℕ, ◌+◌, ◌*◌, ◌≤◌, List, map, length, take};
ghost use Rattle.lists.specs.Lists.{one_if};
ghost use Rattle.history.specs.Table.{largest_count, row_count, op_at, bears, rows_of, history, Alike};
ghost use Rattle.history.specs.Answer.{first_met, passed};
ghost use Rattle.history.specs.Screen.{examined, screening, Screened};
ghost use Rattle.conditions.specs.Tests.{row_tests, Listed};
ghost use Rattle.screening.specs.Ready.{Ready, Gathered};

use history::{Answer, Code, Row};

// The count of the register's rows.
pub fn count(table: &[u64], register: u64) -> usize
    ensures { result ≡ length (history table.now register) }
{
    let n = table.len() / Row::COLUMNS;
    let mut rows = 0;
    for i in 0..n {
        if history::bears(table, register, i) {
            rows += 1;
        }
    }
    rows
}

// The rows of the register in table sequence, at the front of the slice; their number.
fn gather(table: &[u64], register: u64, rows: &mut [u64]) -> usize
    requires { row_count table.now ≤ length rows.old }
    ensures { (result ≡ length (rows_of table.now register)) × (take result rows.new ≡ rows_of table.now register) }
{
    let n = table.len() / Row::COLUMNS;
    let mut m = 0;
    for row in 0..n {
        if history::bears(table, register, row) {
            rows[m] = row as u64;
            m += 1;
        }
    }
    m
}

// Tests 4 to 9 of the rows, with places for what they look at.
fn examine_rows(table: &[u64], rows: &[u64], writer: &mut [u64]) -> Answer
    requires { Ready table.now rows.now writer.old }
    ensures { result ≡ first_met (row_tests (map (op_at table.now) rows.now)) (passed (length rows.now)) }
{
    writers::writers(table, rows, writer);
    conditions::test_rows(table, rows, writer)
}

// Tests 4 to 9 of at most N rows.
fn listed_sized<const N: usize>(table: &[u64], rows: &[u64]) -> Answer
    requires listed { Listed table.now rows.now }
    requires size { N ≤ largest_count }
    requires room { length rows.now ≤ N }
    ensures { result ≡ first_met (row_tests (map (op_at table.now) rows.now)) (passed (length rows.now)) }
{
    let n = rows.len();
    let mut writer = [0u64; N];
    examine_rows(table, rows, &mut writer[..n])
}

// Tests 4 to 9 of rows of the table, rising.
pub fn examine_listed(table: &[u64], rows: &[u64]) -> Answer
    requires { Listed table.now rows.now }
    ensures { result ≡ first_met (row_tests (map (op_at table.now) rows.now)) (passed (length rows.now)) }
{
    let n = rows.len();
    if n <= Row::FEW {
        listed_sized::<{ Row::FEW }>(table, rows)
    } else if n <= Row::SOME {
        listed_sized::<{ Row::SOME }>(table, rows)
    } else {
        listed_sized::<{ Row::LARGEST_COUNT }>(table, rows)
    }
}

// Tests 4 to 9 of a register, with a place for each row of the table; its rows stand at the front of the slice then.
fn examine_gathered(table: &[u64], register: u64, rows: &mut [u64]) -> Answer
    requires table_bound { row_count table.now ≤ largest_count }
    requires table_in_bounds { row_count table.now ≤ length rows.old }
    ensures value { result ≡ first_met (row_tests (history table.now register)) (passed (length (history table.now register))) }
    ensures gathered { Gathered table.now register rows.new }
{
    let n = gather(table, register, rows);
    examine_listed(table, &rows[..n])
}

// Tests 1 to 9, with a place for each row of a table that passes the first two; where none refuses, the register's rows stand at the front of
// the slice then. `unasked` is the condition of test 3: no such question, or a k of 0.
pub fn examine_into(table: &[u64], register: u64, unasked: bool, rows: &mut [u64]) -> Answer
    requires { row_count table.now ≤ largest_count → row_count table.now ≤ length rows.old }
    ensures value { result ≡ examined (length table.now) (history table.now register) unasked }
    ensures gathered { result.code ≡ 0 → Gathered table.now register rows.new }
{
    if table.len() % Row::COLUMNS != 0 {
        return Code::Ragged.at(0);
    }
    if Row::LARGEST_COUNT < table.len() / Row::COLUMNS {
        return Code::Overfull.at(0);
    }
    if unasked {
        return Code::NoSuchQuestion.at(0);
    }
    examine_gathered(table, register, rows)
}

// Tests 1 to 9, with places for N rows.
fn examine_sized<const N: usize>(table: &[u64], register: u64, unasked: bool) -> Answer
    requires size { N ≤ largest_count }
    requires room { row_count table.now ≤ largest_count → row_count table.now ≤ N }
    ensures { result ≡ examined (length table.now) (history table.now register) unasked }
{
    let mut rows = [0u64; N];
    examine_into(table, register, unasked, &mut rows)
}

// Tests 1 to 9.
pub fn examine(table: &[u64], register: u64, unasked: bool) -> Answer
    ensures { result ≡ examined (length table.now) (history table.now register) unasked }
{
    if table.len() / Row::COLUMNS <= Row::FEW {
        examine_sized::<{ Row::FEW }>(table, register, unasked)
    } else {
        examine_sized::<{ Row::LARGEST_COUNT }>(table, register, unasked)
    }
}

// The screening: code 0 with the count of the register's rows exactly where the register is as the record `Screened` says.
pub fn screen(table: &[u64], register: u64) -> Answer
    ensures answer { result ≡ screening table.now register }
    ensures meaning { (result.code ≡ 0) ↔ Screened (length table.now) (history table.now register) }
    ensures alike { (u : List ℕ) → Alike table.now u register → result ≡ screening u register }
{
    examine(table, register, false)
}
