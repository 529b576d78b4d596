// Tests 4 to 9 of a list of rows, 20 among them, by the position of each row's write.
#![tactic(auto)]

ghost use Rattle.std.specs.Prelude.{◌≡◌, true, ◌&&◌, [], ◌∷◌, ◌<◌, map, ltb, leb, length, get_or};
ghost use Rattle.history.specs.Table.{op_at, is_opening, is_write, is_read, precedes};
ghost use Rattle.history.specs.Answer.{first_met, passed, Ran};
ghost use Rattle.history.specs.Screen.{wrong_kind, wrong_span};
ghost use Rattle.writers.specs.Writers.{Within, writer_of, row_op};
ghost use Rattle.conditions.specs.Tests.{code_of, row_tests, first_opening, shows, lowest_at, shown_test, Quiet, AllQuiet, Listed};

use history::{Answer, Code, Op, Row};

// The tests that look at each row of the register, in their sequence.
#[derive(Clone, Copy)]
enum RowTest {
    Kind,
    Span,
    Reopening,
    Twin,
    Orphan,
    Early,
}

fn wrong_kind(o: Op) -> bool
    ensures { result ≡ wrong_kind o }
{
    !o.is_write() && !o.is_read()
}

fn wrong_span(o: Op) -> bool
    ensures { result ≡ wrong_span o }
{
    if o.finish < o.start || Row::LARGEST_STAMP < o.finish {
        return true;
    }
    o.strays()
}

// The position of the first opening among the rows; their number where there is none.
fn first_opening(table: &[u64], rows: &[u64]) -> usize
    requires { Within table.now rows.now }
    ensures { result ≡ first_opening table.now rows.now }
{
    for (i, row) in rows.iter().enumerate() {
        if Op::at(table, *row as usize).is_opening() {
            return i;
        }
    }
    rows.len()
}

// Whether the i-th row is an opening, and not the first. An opening is sought only here, so that two of them end the search.
fn reopens(table: &[u64], rows: &[u64], o: Op, i: usize) -> bool
    requires { Within table.now rows.now }
    ensures { result ≡ (is_opening o && ltb (first_opening table.now rows.now) i) }
{
    o.is_opening() && first_opening(table, rows) < i
}

// The number at a place; 0 past the end.
fn entry(list: &[u64], place: usize) -> u64
    ensures { result ≡ get_or list.now place 0 }
{
    list.get(place).copied().unwrap_or(0)
}

// Whether the i-th row is a write, and the first write of its value another.
fn twin(o: Op, writer: usize, i: usize) -> bool
    ensures { result ≡ (is_write o && ltb writer i) }
{
    o.is_write() && writer < i
}

// Whether a row is a read without a write among the n rows.
fn orphan(o: Op, writer: usize, n: usize) -> bool
    ensures { result ≡ (is_read o && leb n writer) }
{
    o.is_read() && n <= writer
}

// Whether a row is a read that precedes its write.
fn early(table: &[u64], rows: &[u64], o: Op, writer: usize) -> bool
    requires { Within table.now rows.now }
    ensures { result ≡ (is_read o && (ltb writer (length rows.now) && precedes o (row_op table.now rows.now writer))) }
{
    if !o.is_read() {
        return false;
    }
    writer < rows.len() && o.precedes(Op::at(table, rows[writer] as usize))
}

// Whether the i-th row meets the test's condition, by the column where the test looks at one: the position of each row's write.
fn meets(table: &[u64], rows: &[u64], column: &[u64], test: RowTest, i: usize) -> bool
    requires listed { Listed table.now rows.now }
    requires i_in_bounds { i < length rows.now }
    ensures { result ≡ shows test table.now rows.now column.now i }
{
    let o = Op::at(table, rows[i] as usize);
    match test {
        RowTest::Kind => wrong_kind(o),
        RowTest::Span => wrong_span(o),
        RowTest::Reopening => reopens(table, rows, o, i),
        RowTest::Twin => twin(o, entry(column, i) as usize, i),
        RowTest::Orphan => orphan(o, entry(column, i) as usize, rows.len()),
        RowTest::Early => early(table, rows, o, entry(column, i) as usize),
    }
}

// The lowest of the rows that meets the test's condition.
fn lowest(table: &[u64], rows: &[u64], column: &[u64], test: RowTest) -> Option<usize>
    requires { Listed table.now rows.now }
    ensures { result ≡ lowest_at (shows test table.now rows.now column.now) rows.now }
{
    for (i, row) in rows.iter().enumerate() {
        if meets(table, rows, column, test, i) {
            return Some(*row as usize);
        }
    }
    None
}

fn code(test: RowTest) -> Code
    ensures { result ≡ code_of test }
{
    match test {
        RowTest::Kind => Code::BadKind,
        RowTest::Span => Code::BadSpan,
        RowTest::Reopening => Code::SecondOpening,
        RowTest::Twin => Code::TwinWrite,
        RowTest::Orphan => Code::OrphanRead,
        RowTest::Early => Code::EarlyRead,
    }
}

// Runs a test: it refuses with the lowest of the rows that meets its condition.
fn run(table: &[u64], rows: &[u64], column: &[u64], test: RowTest) -> Result<(), Answer>
    requires { Listed table.now rows.now }
    ensures { Ran (shown_test table.now rows.now column.now test ∷ []) result }
{
    match lowest(table, rows, column, test) {
        Some(row) => Err(code(test).at(row as u64)),
        None => Ok(()),
    }
}

// Runs tests 4 to 9 in their sequence.
fn run_all(table: &[u64], rows: &[u64], writer: &[u64]) -> Result<(), Answer>
    requires listed { Listed table.now rows.now }
    requires writer_value { writer.now ≡ map (writer_of table.now rows.now) rows.now }
    ensures { Ran (row_tests (map (op_at table.now) rows.now)) result }
{
    run(table, rows, rows, RowTest::Kind)?;
    run(table, rows, rows, RowTest::Span)?;
    run(table, rows, rows, RowTest::Reopening)?;
    run(table, rows, writer, RowTest::Twin)?;
    run(table, rows, writer, RowTest::Orphan)?;
    run(table, rows, writer, RowTest::Early)
}

// Whether the i-th row meets no condition of tests 4 to 9.
fn quiet(table: &[u64], rows: &[u64], writer: &[u64], i: usize) -> bool
    requires listed { Listed table.now rows.now }
    requires i_in_bounds { i < length rows.now }
    ensures { result ≡ true → Quiet table.now rows.now writer.now i }
{
    let o = Op::at(table, rows[i] as usize);
    let w = entry(writer, i) as usize;
    if wrong_kind(o) {
        return false;
    }
    if wrong_span(o) {
        return false;
    }
    if reopens(table, rows, o, i) {
        return false;
    }
    if o.is_write() {
        return w >= i;
    }
    w < rows.len() && !o.precedes(Op::at(table, rows[w] as usize))
}

// Whether no row meets a condition of tests 4 to 9: one pass for a register that passes.
fn all_quiet(table: &[u64], rows: &[u64], writer: &[u64]) -> bool
    requires { Listed table.now rows.now }
    ensures { result ≡ true → AllQuiet table.now rows.now writer.now }
{
    for i in 0..rows.len() {
        if !quiet(table, rows, writer, i) {
            return false;
        }
    }
    true
}

// Tests 4 to 9 of the rows.
pub fn test_rows(table: &[u64], rows: &[u64], writer: &[u64]) -> Answer
    requires listed { Listed table.now rows.now }
    requires writer_value { writer.now ≡ map (writer_of table.now rows.now) rows.now }
    ensures { result ≡ first_met (row_tests (map (op_at table.now) rows.now)) (passed (length rows.now)) }
{
    let passed = Answer::passed(rows.len() as u64);
    if all_quiet(table, rows, writer) {
        return passed;
    }
    match run_all(table, rows, writer) {
        Ok(()) => passed,
        Err(refusal) => refusal,
    }
}
