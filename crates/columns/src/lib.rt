// From the table and a screened register to the columns of its prepared history, in lent slices with a place for each operation.
#![tactic(auto)]

ghost use Rattle.std.specs.Prelude.{◌≡◌, true, List, map, ℕ, ◌≤◌, ◌<◌, length, get_or, take};
ghost use Rattle.history.specs.Table.{largest_count, row_count, op_at, history};
ghost use Rattle.history.specs.declared.Op.{Op as Operation};
ghost use Rattle.preparation.specs.Times.{by_time};
ghost use Rattle.methods.specs.Prepared.{new_finish};
ghost use Rattle.methods.specs.Mark.{row_numbers};
ghost use Rattle.positions.specs.Columns.{cols, is_own, Linked};
ghost use Rattle.columns.specs.Gathered.{Gathered};
ghost use Rattle.ranking.specs.Ranked.{Fit};
ghost use Rattle.columns.specs.Rows.{Keyed, Listed};
ghost use Rattle.columns.specs.Finishes.{lowered, Whole};
ghost use Rattle.columns.specs.Made.{Room, Made};
ghost use Rattle.columns.specs.Falls.{falling_of, Turned};

use history::{Op, Row};

// The time of the start of each of the rows, at the place of its row.
fn times_of(table: &[u64], rows: &[u64], keys: &mut [u64])
    requires fit { Fit table.now rows.now }
    requires table_in_bounds { row_count table.now ≤ length keys.old }
    ensures { Keyed table.now rows.now keys.new }
{
    for x in rows {
        let row = *x as usize;
        let o = Op::at(table, row);
        keys[row] = ranking::time(o, o.start);
    }
}

// Whether given rows stand by rising time as they are.
fn by_time(table: &[u64], rows: &[u64]) -> bool
    requires { Fit table.now rows.now }
    ensures { result ≡ true → rows.now ≡ row_numbers (by_time (map (op_at table.now) rows.now)) }
{
    let mut first = u64::MAX;
    for place in (0..rows.len()).rev() {
        let o = Op::at(table, rows[place] as usize);
        let time = ranking::time(o, o.start);
        if first < time {
            return false;
        }
        first = time;
    }
    true
}

// Sorts given rows by time, with a place for the time of each row of the table.
fn sort_times(table: &[u64], keys: &mut [u64], rows: &mut [u64])
    requires fit { Fit table.now rows.old }
    requires table_in_bounds { row_count table.now ≤ length keys.old }
    ensures { rows.new ≡ row_numbers (by_time (map (op_at table.now) rows.old)) }
{
    times_of(table, rows, keys);
    sorting::sort_by(keys, rows);
}

// Puts given rows by rising time, those with one time in their sequence, with a place for the time of each row of the table.
pub fn sort_rows(table: &[u64], keys: &mut [u64], rows: &mut [u64])
    requires fit { Fit table.now rows.old }
    requires table_in_bounds { row_count table.now ≤ length keys.old }
    ensures { rows.new ≡ row_numbers (by_time (map (op_at table.now) rows.old)) }
{
    if !by_time(table, rows) {
        sort_times(table, keys, rows);
    }
}

// Puts given rows by rising time, with a place for the time of each of at most N rows of the table.
fn sort_sized<const N: usize>(table: &[u64], rows: &mut [u64])
    requires fit { Fit table.now rows.old }
    requires size { N ≤ largest_count }
    requires room { row_count table.now ≤ N }
    ensures { rows.new ≡ row_numbers (by_time (map (op_at table.now) rows.old)) }
{
    let mut keys = [0u64; N];
    sort_times(table, &mut keys, rows);
}

// Puts given rows by rising time, those with one time in their sequence.
pub fn put_by_time(table: &[u64], rows: &mut [u64])
    requires fit { Fit table.now rows.old }
    requires table_bound { row_count table.now ≤ largest_count }
    ensures { rows.new ≡ row_numbers (by_time (map (op_at table.now) rows.old)) }
{
    if by_time(table, rows) {
        return;
    }
    let n = table.len() / Row::COLUMNS;
    if n <= Row::FEW {
        sort_sized::<{ Row::FEW }>(table, rows);
    } else if n <= Row::SOME {
        sort_sized::<{ Row::SOME }>(table, rows);
    } else {
        sort_sized::<{ Row::LARGEST_COUNT }>(table, rows);
    }
}

// A write's finish after one of its reads: one below the read's, where that is lower.
fn lowered(end: u64, finish: u64) -> u64
    requires { 0 < end }
    ensures { result ≡ lowered end finish }
{
    if end < finish { end - 1 } else { finish }
}

// The doubled finishes, shortened: a write that finishes after one of its reads finishes just before it.
fn shorten(writer: &[u64], finish: &mut [u64])
    requires { (H : List Operation) × Whole H writer.now finish.old }
    ensures { (H : List Operation) → Whole H writer.now finish.old → finish.new ≡ map (new_finish H) H }
{
    for at in (0..writer.len()).rev() {
        let w = writer[at] as usize;
        if w != at {
            finish[w] = lowered(finish[at], finish[w]);
        }
    }
}

// The chain of each write's reads, from the last one back, into a slice of zeros and a slice for each position's next.
fn link(writer: &[u64], last: &mut [u64], prev: &mut [u64])
    requires writers_inside { (j : ℕ) → j < length writer.now → get_or writer.now j 0 < length writer.now }
    requires last_len { length last.old ≡ length writer.now }
    requires last_empty { (j : ℕ) → j < length writer.now → get_or last.old j 0 ≡ 0 }
    requires prev_len { length prev.old ≡ length writer.now }
    ensures { Linked writer.now last.new prev.new }
{
    for (at, w) in writer.iter().enumerate() {
        let v = *w as usize;
        if v != at {
            prev[at] = last[v];
            last[v] = at as u64 + 1;
        }
    }
}

// The columns of a screened register's rows, which stand by rising time. The chains are made last, so their slice is lent for the ranks first.
pub fn fill(
    table: &[u64],
    rows: &[u64],
    start: &mut [u64],
    finish: &mut [u64],
    writer: &mut [u64],
    last: &mut [u64],
    prev: &mut [u64],
)
    requires room { Room rows.now start.old finish.old writer.old last.old prev.old }
    requires by_index { (register : ℕ) × Listed table.now register rows.now }
    ensures { Made table.now rows.now (cols start.new finish.new writer.new last.new prev.new) }
{
    ranking::ranks(table, rows, prev, start, finish);
    writers::writers(table, rows, writer);
    shorten(writer, finish);
    last.fill(0);
    link(writer, last, prev);
}

// The writes in the sequence of their positions, at the front of the slice, and for each operation a key that falls as its finish rises;
// their number.
fn choose(finish: &[u64], writer: &[u64], keys: &mut [u64], falling: &mut [u64]) -> usize
    requires finish_len { length finish.now ≡ length writer.now }
    requires keys_room { length writer.now ≤ length keys.old }
    requires falling_room { length writer.now ≤ length falling.old }
    ensures { Gathered (is_own writer.now) (Turned finish.now) (length writer.now) falling.old result keys.new falling.new }
{
    let mut m = 0;
    for (at, w) in writer.iter().enumerate() {
        keys[at] = u64::MAX - finish[at];
        if *w == at as u64 {
            falling[m] = at as u64;
            m += 1;
        }
    }
    m
}

// The writes by falling finish, at the front of the slice, with a place for the key of each operation; their number.
pub fn falls(finish: &[u64], writer: &[u64], keys: &mut [u64], falling: &mut [u64]) -> usize
    requires finish_len { length finish.now ≡ length writer.now }
    requires writer_len_bound { length writer.now ≤ largest_count }
    requires keys_room { length writer.now ≤ length keys.old }
    requires falling_room { length writer.now ≤ length falling.old }
    ensures { let l = falling_of finish.now writer.now in (result ≡ length l) × (take result falling.new ≡ l) }
{
    let m = choose(finish, writer, keys, falling);
    sorting::sort_by(keys, &mut falling[..m]);
    m
}

// The numbers of a list that stand at the given positions.
pub fn rows_at(rows: &[u64], places: &[u64], out: &mut [u64])
    requires { length out.old ≡ length places.now }
    ensures { out.new ≡ map (λ j. get_or rows.now j 0) places.now }
{
    for (i, place) in places.iter().enumerate() {
        out[i] = sorting::key(rows, *place);
    }
}
