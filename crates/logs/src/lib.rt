// Logs with named columns, loaded into a table. A refused call leaves the table as it was.
#![tactic(auto)]

ghost use Rattle.std.specs.Prelude.{◌≡◌, cond, not, ◌+◌, ◌*◌, ◌≤◌, eqb, length};
ghost use Rattle.std.proofs.lemmas.List.Edits.{sets};
ghost use Rattle.history.specs.Answer.{first_met, passed};
ghost use Rattle.records.specs.Records.{cells};
ghost use Rattle.parsing.specs.Numbers.{is_number};
ghost use Rattle.cells.specs.Steps.{cell_at, saying};
ghost use Rattle.log_tables.specs.Logs.{said_in, Loads};
ghost use Rattle.log_tables.specs.Shuffled.{LoadsAlike};
ghost use Rattle.log_tables.specs.Stamps.{LoadsStamps, LoadsClocked};
ghost use Rattle.logs.specs.Steps.{holds_number, SaysDecimal, no_row, with_cell, or_else, walked, walked_tests, LinesTested, LinesLoaded};

use cells::Cell;
use headers::Columns;
use history::{Answer, Code, Row};

// A line that was walked: its row, the count of its cells, where it ends, and its first cell that cannot be read.
#[derive(Clone, Copy)]
pub struct Line {
    row: Row,
    count: usize,
    end: usize,
    fault: Option<usize>,
}

// A cell in a column that is not needed: whatever it holds says 0.
fn skipped_cell(bytes: &[u8], at: usize) -> Cell
    ensures { result ≡ saying bytes.now at (Some 0) }
{
    Cell {
        end: cells::cell_end(bytes, at),
        number: Some(0),
    }
}

// What the cell at `at` says in column k.
fn read_cell(bytes: &[u8], at: usize, columns: Columns, k: usize) -> Cell
    ensures { result ≡ saying bytes.now at (said_in columns k (cell_at bytes.now at)) }
{
    if k == columns.kind {
        cells::kind_cell(bytes, at)
    } else if k == columns.register || k == columns.value {
        cells::number_cell(bytes, at)
    } else if k == columns.start || k == columns.finish {
        cells::stamp_cell(bytes, at)
    } else {
        skipped_cell(bytes, at)
    }
}

// Whether column k holds numbers; stamps are among them.
fn holds_number(columns: Columns, k: usize) -> bool
    ensures { result ≡ holds_number columns k }
{
    k == columns.register || k == columns.value || k == columns.start || k == columns.finish
}

// What the cell at `at` says in column k, unless a stamp is clock time.
fn decimal_cell(bytes: &[u8], at: usize, columns: Columns, k: usize) -> Cell
    ensures { SaysDecimal bytes.now at columns k result }
{
    if k == columns.kind {
        cells::kind_cell(bytes, at)
    } else if holds_number(columns, k) {
        cells::number_cell(bytes, at)
    } else {
        skipped_cell(bytes, at)
    }
}

fn picked(k: usize, column: usize, x: u64, old: u64) -> u64
    ensures { result ≡ cond (eqb k column) x old }
{
    if k == column { x } else { old }
}

// A row with the number of column k.
fn with_cell(row: Row, columns: Columns, k: usize, x: u64) -> Row
    ensures { result ≡ with_cell columns row k x }
{
    Row {
        register: picked(k, columns.register, x, row.register),
        kind: picked(k, columns.kind, x, row.kind),
        value: picked(k, columns.value, x, row.value),
        start: picked(k, columns.start, x, row.start),
        finish: picked(k, columns.finish, x, row.finish),
    }
}

// The first cell that cannot be read, behind one cell more.
fn fault_at(fault: Option<usize>, number: Option<u64>, at: usize) -> Option<usize>
    ensures { result ≡ or_else fault (cond (not (is_number number)) (Some at) None) }
{
    match (fault, number) {
        (None, None) => Some(at),
        _ => fault,
    }
}

// Walks the line from the cell at `at` on, whose column is `count`, behind the row of the cells before it.
fn walk_on(bytes: &[u8], columns: Columns, begun: Row, count: usize, at: usize) -> Line
    requires { (count ≤ at) × (at ≤ length bytes.now) }
    ensures { result ≡ walked bytes.now columns begun count at None }
{
    let mut row = begun;
    let mut fault = None;
    let mut k = count;
    let mut from = at;
    // The next cell begins behind the comma that ends this one.
    loop {
        let cell = read_cell(bytes, from, columns, k);
        let end = cell.end;
        row = with_cell(row, columns, k, cell.number.unwrap_or(0));
        fault = fault_at(fault, cell.number, from);
        k += 1;
        if !cells::comma_at(bytes, end) {
            return Line {
                row,
                count: k,
                end,
                fault,
            };
        }
        from = end + 1;
    }
}

// Walks the line that starts at `at`. As long as cells are numbers and kinds, no clock time is read, a call that would keep the row out of the
// processor's registers; from the first other cell on `walk_on` goes on.
fn walk(bytes: &[u8], columns: Columns, at: usize) -> Line
    requires { at ≤ length bytes.now }
    ensures { result ≡ walked bytes.now columns no_row 0 at None }
{
    let mut row = Row {
        register: 0,
        kind: 0,
        value: 0,
        start: 0,
        finish: 0,
    };
    let mut k = 0;
    let mut from = at;
    // The next cell begins behind the comma that ends this one.
    loop {
        let cell = decimal_cell(bytes, from, columns, k);
        let end = cell.end;
        let Some(x) = cell.number else {
            return walk_on(bytes, columns, row, k, from);
        };
        row = with_cell(row, columns, k, x);
        k += 1;
        if !cells::comma_at(bytes, end) {
            return Line {
                row,
                count: k,
                end,
                fault: None,
            };
        }
        from = end + 1;
    }
}

// The tests of a line that was walked, by its number among the data lines and its offset; code 0 where none is met.
fn judge(size: usize, number: usize, width: usize, at: usize, line: Line) -> Answer
    ensures { result ≡ first_met (walked_tests size number width at line) (passed 0) }
{
    if Row::LARGEST_COUNT <= number {
        return Code::Overfull.at(at as u64);
    }
    if size <= line.end {
        return Code::UnreadableCell.at(at as u64);
    }
    if line.count != width {
        return Code::UnreadableCell.at(at as u64);
    }
    match line.fault {
        Some(cell) => Code::UnreadableCell.at(cell as u64),
        None => Answer::passed(0),
    }
}

// Puts a row's five numbers into the table.
fn put_row(table: &mut [u64], n: usize, row: Row)
    requires { n * 5 + 5 ≤ length table.old }
    ensures { table.new ≡ sets table.old (n * 5) (cells row) }
{
    let base = n * Row::COLUMNS;
    let cells = [row.register, row.kind, row.value, row.start, row.finish];
    table[base..base + Row::COLUMNS].copy_from_slice(&cells);
}

// The tests of the data lines, in sequence, whose rows go to the front of a table of 1,024 rows.
fn lines(bytes: &[u8], columns: Columns, width: usize, start: usize, table: &mut [u64]) -> Answer
    requires { 5120 ≤ length table.old }
    ensures { LinesTested bytes.now columns width start table.old table.new result }
{
    let mut at = start;
    let mut n = 0;
    // The next line begins behind the end of this one.
    while at < bytes.len() {
        let line = walk(bytes, columns, at);
        let answer = judge(bytes.len(), n, width, at, line);
        if answer.code != 0 {
            return answer;
        }
        put_row(table, n, line.row);
        n += 1;
        at = line.end + 1;
    }
    Answer::passed(n as u64)
}

// Loads the data lines behind a sound header.
fn load_lines(
    bytes: &[u8],
    columns: Columns,
    width: usize,
    start: usize,
    table: &mut [u64],
) -> Answer
    ensures { LinesLoaded bytes.now columns width start table.old result table.new }
{
    let mut rows = [0; Row::LARGEST_TABLE];
    let found = lines(bytes, columns, width, start, &mut rows);
    if found.code != 0 {
        return found;
    }
    let count = found.rows as usize;
    let needed = count * Row::COLUMNS;
    let answer = files::room_for(count, needed, table.len());
    if answer.code != 0 {
        return answer;
    }
    let loaded = &rows[..needed];
    table[..needed].copy_from_slice(loaded);
    answer
}

// Loads a log into the front of the table. A copy of it with the columns in another order, or with the stamps as clock time, loads as the same table.
pub fn load(bytes: &[u8], table: &mut [u64]) -> Answer
    ensures outcome { Loads bytes.now table.old result table.new }
    ensures shuffled { result.code ≡ 0 → LoadsAlike bytes.now table.old }
    ensures stamps { result.code ≡ 0 → LoadsStamps bytes.now table.new }
    ensures clocked { result.code ≡ 0 → LoadsClocked bytes.now table.old }
{
    let header = headers::read_header(bytes);
    if header.sound {
        load_lines(bytes, header.columns, header.width, header.start, table)
    } else {
        Code::HeaderFault.at(0)
    }
}
