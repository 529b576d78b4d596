// One register of a history file: a pass over the bytes that keeps the places of its records, so that no other row is read into the table.
#![tactic(auto)]

ghost use Rattle.std.specs.Prelude.{◌≡◌, ◌≢◌, ℕ, ◌+◌, ◌*◌, ◌≤◌, ◌<◌, eqb, length, get_or, take};
ghost use Rattle.history.specs.Table.{largest_count};
ghost use Rattle.records.specs.Records.{record_from, Stands};
ghost use Rattle.selection.specs.Selected.{head_at, plain, extent_at, step_at, extent_by, Extent, Picking, Picks, find_answer, Placed, copied, select_answer, select_table};

use history::{Answer, Row};

// What the first four bytes of a sound record say as one number, the length above the kind: 34 with a write or a read, 18 with an opening.
const WRITE_HEAD: u64 = 2228225;

const READ_HEAD: u64 = 2228226;

const OPENING_HEAD: u64 = 1179651;

// That number of the record at a place.
fn head(bytes: &[u8], at: usize) -> u64
    requires { at + 4 ≤ length bytes.now }
    ensures { result ≡ head_at bytes.now at }
{
    records::two(bytes, at + 2) + 65536 * records::two(bytes, at)
}

// Whether it is that of a record with stamps: the two right ones are neighbours, so that no branch has to guess the kind.
fn is_plain(head: u64) -> bool
    ensures { result ≡ plain head }
{
    head == WRITE_HEAD || head == READ_HEAD
}

// The bytes of a record with such a number, which no other sound record has.
fn extent_by(head: u64) -> Option<usize>
    ensures { Extent (extent_by head) result }
{
    if is_plain(head) {
        Some(records::RECORD)
    } else if head == OPENING_HEAD {
        Some(records::SHORT_RECORD)
    } else {
        None
    }
}

// The bytes of the record at a place, where it is sound and all there.
fn extent(bytes: &[u8], at: usize) -> Option<usize>
    requires { at < length bytes.now }
    ensures { Extent (extent_at bytes.now at) result }
{
    let left = bytes.len() - at;
    if left < records::SHORT_RECORD {
        return None;
    }
    let size = extent_by(head(bytes, at))?;
    if size <= left { Some(size) } else { None }
}

// The same of record `row`, and none of a 1,025th.
fn step(bytes: &[u8], row: usize, at: usize) -> Option<usize>
    requires { at < length bytes.now }
    ensures { Extent (step_at bytes.now row at) result }
{
    if Row::LARGEST_COUNT <= row {
        return None;
    }
    extent(bytes, at)
}

// Whether the record at a place bears the register.
fn bears(bytes: &[u8], register: u64, at: usize) -> bool
    requires { at + 20 ≤ length bytes.now }
    ensures { result ≡ eqb (record_from bytes.now at).register register }
{
    records::eight(bytes, at + 4) == register
}

// How far a pass is: the next record's number and place, and how many places are kept.
#[derive(Clone, Copy)]
struct Reached {
    row: usize,
    at: usize,
    count: usize,
}

impl Reached {
    // Goes past the next record, of so many bytes; its place is kept where it bears the register.
    fn past(self, bytes: &[u8], register: u64, picks: &mut [u16], size: usize) -> Reached
        requires picking { Picking bytes.now register self.row self.at self.count picks.old }
        requires inside { self.at < length bytes.now }
        requires sound { size ≡ step_at bytes.now self.row self.at }
        requires some { size ≢ 0 }
        ensures row { result.row ≡ self.row + 1 }
        ensures at { result.at ≡ self.at + size }
        ensures picking { Picking bytes.now register result.row result.at result.count picks.new }
    {
        let mut count = self.count;
        if bears(bytes, register, self.at) {
            picks[count] = self.at as u16;
            count += 1;
        }
        Reached {
            row: self.row + 1,
            at: self.at + size,
            count,
        }
    }
}

// Goes along the records with stamps up to one of another kind: most records have stamps, and this loop looks at little else.
fn pick_plain(bytes: &[u8], register: u64, picks: &mut [u16], from: Reached) -> Reached
    requires { Picking bytes.now register from.row from.at from.count picks.old }
    ensures { Picking bytes.now register result.row result.at result.count picks.new × (from.at ≤ result.at) }
{
    let room = (bytes.len() - from.at) / records::RECORD;
    let end = from.row + room.min(Row::LARGEST_COUNT - from.row);
    let mut pass = from;
    // A record of another kind ends the run.
    while pass.row < end && is_plain(head(bytes, pass.at)) {
        pass = pass.past(bytes, register, picks, records::RECORD);
    }
    pass
}

// The places of the register's records, at the front of the slice, and how many they are; or the file is not sound.
fn pick(bytes: &[u8], register: u64, picks: &mut [u16]) -> Option<usize>
    requires { length picks.old ≡ largest_count }
    ensures { Picks bytes.now register picks.new result }
{
    let mut pass = Reached {
        row: 0,
        at: 0,
        count: 0,
    };
    // The next record begins where the length of this one says.
    while pass.at < bytes.len() {
        pass = pick_plain(bytes, register, picks, pass);
        if pass.at < bytes.len() {
            let size = step(bytes, pass.row, pass.at)?;
            pass = pass.past(bytes, register, picks, size);
        }
    }
    Some(pass.count)
}

// The count of the register's rows, and their records' places at the front of the slice; or the first refusal of the whole file. Only a pass
// that stops before the file's end has to be followed by the tests in their sequence, which say what the refusal is.
pub fn find(bytes: &[u8], register: u64, picks: &mut [u16]) -> Answer
    requires { length picks.old ≡ largest_count }
    ensures answer { result ≡ find_answer bytes.now register }
    ensures places { result.code ≡ 0 → Placed bytes.now register (take result.rows picks.new) }
{
    match pick(bytes, register, picks) {
        Some(count) => Answer::passed(count as u64),
        None => files::inspect(bytes),
    }
}

// Puts the rows of the records at some places at the front of the table.
pub fn copy(bytes: &[u8], picks: &[u16], table: &mut [u64])
    requires stands { (k : ℕ) → k < length picks.now → Stands bytes.now (get_or picks.now k 0) }
    requires room { length picks.now * 5 ≤ length table.old }
    ensures { table.new ≡ copied bytes.now picks.now table.old }
{
    for (i, at) in picks.iter().enumerate() {
        records::read_row(bytes, *at as usize, table, i);
    }
}

// Reads the rows of one register into the front of the table, which needs room for these alone. The whole file is inspected all the same.
pub fn read(bytes: &[u8], register: u64, table: &mut [u64]) -> Answer
    ensures { (result ≡ select_answer bytes.now register table.old) × (table.new ≡ select_table bytes.now register table.old) }
{
    let mut picks = [0u16; Row::LARGEST_COUNT];
    let found = find(bytes, register, &mut picks);
    if found.code != 0 {
        return found;
    }
    let m = found.rows as usize;
    let answer = files::room_for(m, m * Row::COLUMNS, table.len());
    if answer.code != 0 {
        return answer;
    }
    copy(bytes, &picks[..m], table);
    answer
}
