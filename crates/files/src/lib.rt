// History files: a table's rows as records of bytes, read and written. A refused call leaves the lent buffer as it was.
#![tactic(auto)]

ghost use Rattle.std.specs.Prelude.{◌≡◌, not, ◌||◌, [], ◌∷◌, ◌++◌, ◌*◌, ◌≤◌, ◌<◌, eqb, length, drop};
ghost use Rattle.history.specs.Table.{row_count};
ghost use Rattle.history.specs.Answer.{test, first_met, passed, lowest_row};
ghost use Rattle.history.specs.Screen.{wrong_kind, stray_opening};
ghost use Rattle.records.specs.Records.{body_length, begun, table_of, file_of};
ghost use Rattle.files.specs.Files.{Whole, record_tests, file_answer, room_test, read_answer, read_table, ops_of, last_tests, write_tests, write_answer, write_bytes, WritesBack, ReadsBack};

use history::{Answer, Code, Kind, Op, Row};

// No record is longer than 36 bytes: in a file of so many bytes 1,024 leave room for a whole one, so that a longer file need not be looked at.
pub const LONGEST: usize = 36900;

fn wrong_kind(kind: u64) -> bool
    ensures { result ≡ not (eqb kind 1 || eqb kind 3 || eqb kind 2) }
{
    kind != Kind::Write as u64 && kind != Kind::Opening as u64 && kind != Kind::Read as u64
}

// A length that no record has.
fn wrong_length(size: u64) -> bool
    ensures { result ≡ not (eqb size 34 || eqb size 18) }
{
    size != records::BODY && size != records::SHORT_BODY
}

// A kind that does not go with the length.
fn mismatched(size: u64, kind: u64) -> bool
    ensures { result ≡ (not (eqb kind 1 || eqb kind 3 || eqb kind 2) || not (eqb size (body_length kind))) }
{
    wrong_kind(kind) || size != records::body_length(kind)
}

// The tests at record `row`, which begins at a place in the bytes; code 0 where none is met.
fn inspect_record(bytes: &[u8], row: usize, at: usize) -> Answer
    requires { at < length bytes.now }
    ensures { result ≡ first_met (record_tests bytes.now row at) (passed 0) }
{
    let left = bytes.len() - at;
    if left == 1 {
        return Code::CutRecord.at(at as u64);
    }
    let size = records::two(bytes, at);
    if wrong_length(size) {
        return Code::StrangeRecord.at(at as u64);
    }
    if left < 2 + size as usize {
        return Code::CutRecord.at(at as u64);
    }
    if mismatched(size, records::two(bytes, at + 2)) {
        return Code::StrangeRecord.at(at as u64);
    }
    if Row::LARGEST_COUNT <= row {
        return Code::Overfull.at(at as u64);
    }
    Answer::passed(0)
}

// The tests at every record, in sequence.
pub fn inspect(bytes: &[u8]) -> Answer
    ensures { result ≡ file_answer bytes.now }
{
    let mut i = 0;
    let mut at = 0;
    // The next record begins where the length of this one says.
    while at < bytes.len() {
        let found = inspect_record(bytes, i, at);
        if found.code != 0 {
            return found;
        }
        at = records::next(bytes, at);
        i += 1;
    }
    Answer::passed(i as u64)
}

// The test of the lent buffer, behind all others.
pub fn room_for(rows: usize, needed: usize, room: usize) -> Answer
    ensures { result ≡ first_met (room_test needed room ∷ []) (passed rows) }
{
    if room < needed {
        return Code::ShortList.at(0);
    }
    Answer::passed(rows as u64)
}

// Puts the rows of a file that passed at the front of the table.
fn read_rows(bytes: &[u8], table: &mut [u64])
    requires whole { Whole bytes.now }
    requires bytes_in_bounds { begun bytes.now * 5 ≤ length table.old }
    ensures { table.new ≡ table_of bytes.now ++ drop (length (table_of bytes.now)) table.old }
{
    let mut i = 0;
    let mut at = 0;
    // The next record begins where the length of this one says.
    while at < bytes.len() {
        records::read_row(bytes, at, table, i);
        at = records::next(bytes, at);
        i += 1;
    }
}

// Reads a file's rows into the front of the table. What was read and is written again is the same bytes.
pub fn read(bytes: &[u8], table: &mut [u64]) -> Answer
    ensures outcome { (result ≡ read_answer bytes.now table.old) × (table.new ≡ read_table bytes.now table.old) }
    ensures undone { result.code ≡ 0 → WritesBack bytes.now }
{
    let found = inspect(bytes);
    if found.code != 0 {
        return found;
    }
    let rows = found.rows as usize;
    let answer = room_for(rows, rows * Row::COLUMNS, table.len());
    if answer.code != 0 {
        return answer;
    }
    read_rows(bytes, table);
    answer
}

// The lowest row of a wrong kind, whatever its register.
fn lowest_wrong(table: &[u64]) -> Option<usize>
    ensures { result ≡ lowest_row wrong_kind (ops_of table.now) }
{
    for i in 0..table.len() / Row::COLUMNS {
        if wrong_kind(table[i * Row::COLUMNS + Row::KIND]) {
            return Some(i);
        }
    }
    None
}

// The lowest row of an opening with another stamp than 0, whatever its register.
fn lowest_stray(table: &[u64]) -> Option<usize>
    ensures { result ≡ lowest_row stray_opening (ops_of table.now) }
{
    for i in 0..table.len() / Row::COLUMNS {
        if Op::at(table, i).strays() {
            return Some(i);
        }
    }
    None
}

// The bytes of a table's file: the sum of the records' own lengths.
fn file_length(table: &[u64]) -> usize
    ensures { result ≡ length (file_of table.now) }
{
    let mut total = 0;
    for i in 0..table.len() / Row::COLUMNS {
        total += 2 + records::body_length(table[i * Row::COLUMNS + Row::KIND]) as usize;
    }
    total
}

// The last tests of a table that is to be written: the stamps of openings, and the room.
fn examine_stamps(table: &[u64], room: usize) -> Answer
    ensures { result ≡ first_met (last_tests table.now room) (passed (row_count table.now)) }
{
    match lowest_stray(table) {
        Some(row) => Code::BadSpan.at(row as u64),
        None => room_for(table.len() / Row::COLUMNS, file_length(table), room),
    }
}

// The tests of a table that is to be written into a buffer of some places.
fn examine(table: &[u64], room: usize) -> Answer
    ensures { result ≡ first_met (write_tests table.now room) (passed (row_count table.now)) }
{
    if table.len() % Row::COLUMNS != 0 {
        return Code::Ragged.at(0);
    }
    if Row::LARGEST_COUNT < table.len() / Row::COLUMNS {
        return Code::Overfull.at(0);
    }
    match lowest_wrong(table) {
        Some(row) => Code::BadKind.at(row as u64),
        None => examine_stamps(table, room),
    }
}

// Puts the records of a table's rows at the front of the bytes.
fn write_rows(table: &[u64], bytes: &mut [u8])
    requires { length (file_of table.now) ≤ length bytes.old }
    ensures { bytes.new ≡ file_of table.now ++ drop (length (file_of table.now)) bytes.old }
{
    let mut at = 0;
    for i in 0..table.len() / Row::COLUMNS {
        at = records::write_row(table, i, bytes, at);
    }
}

// Writes a table's rows as a file into the front of the bytes. What was written and is read again is the same table.
pub fn write(table: &[u64], bytes: &mut [u8]) -> Answer
    ensures outcome { (result ≡ write_answer table.now bytes.old) × (bytes.new ≡ write_bytes table.now bytes.old) }
    ensures undone { result.code ≡ 0 → ReadsBack table.now }
{
    let answer = examine(table, bytes.len());
    if answer.code != 0 {
        return answer;
    }
    write_rows(table, bytes);
    answer
}
