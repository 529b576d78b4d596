// A number and its bytes, a record of bytes and its row of numbers, each stored from the other.
#![tactic(auto)]

ghost use Rattle.std.specs.Prelude.{◌≡◌, ◌≢◌, ◌+◌, ◌*◌, ◌≤◌, ◌<◌, length};
ghost use Rattle.std.proofs.lemmas.List.Edits.{sets};
ghost use Rattle.history.specs.Table.{cell, row_at};
ghost use Rattle.records.specs.Records.{little_endian, field, body_length, record_length, next, stamp_of, record_from, head_bytes, stamp_bytes, record_of, cells};

use history::{Kind, Row};

// What the length field holds, the bytes behind it: of a record with stamps, and of an opening's, which has none.
pub const BODY: u64 = 34;

pub const SHORT_BODY: u64 = 18;

// The bytes of a record, with its length field.
pub const RECORD: usize = 36;

pub const SHORT_RECORD: usize = 20;

// The number of N bytes at a place, the lowest first.
fn number<const N: usize>(bytes: &[u8], at: usize) -> u64
    requires size { N ≤ 8 }
    requires inside { at + N ≤ length bytes.now }
    ensures { result ≡ field bytes.now at N }
{
    let mut raw = [0u8; 8];
    raw[..N].copy_from_slice(&bytes[at..at + N]);
    u64::from_le_bytes(raw)
}

// The number of two bytes at a place, which the caller keeps within the slice.
pub fn two(bytes: &[u8], at: usize) -> u64
    requires { at + 2 ≤ length bytes.now }
    ensures { result ≡ field bytes.now at 2 }
{
    number::<2>(bytes, at)
}

// The number of eight bytes at a place.
pub fn eight(bytes: &[u8], at: usize) -> u64
    requires { at + 8 ≤ length bytes.now }
    ensures { result ≡ field bytes.now at 8 }
{
    number::<8>(bytes, at)
}

// Stores a number's N low bytes, the lowest first.
fn put<const N: usize>(bytes: &mut [u8], at: usize, x: u64)
    requires size { N ≤ 8 }
    requires inside { at + N ≤ length bytes.old }
    ensures { bytes.new ≡ sets bytes.old at (little_endian N x) }
{
    let raw = x.to_le_bytes();
    bytes[at..at + N].copy_from_slice(&raw[..N]);
}

// What the length field of a record of some kind holds.
pub fn body_length(kind: u64) -> u64
    ensures { result ≡ body_length kind }
{
    if kind == Kind::Opening as u64 {
        SHORT_BODY
    } else {
        BODY
    }
}

// Where the record behind the one at a place begins.
pub fn next(bytes: &[u8], at: usize) -> usize
    requires { at + 2 ≤ length bytes.now }
    ensures { result ≡ next bytes.now at }
{
    at + (2 + two(bytes, at) as usize)
}

// A stamp of a row of some kind: the opening's are 0 and stand in no record.
fn stamp(bytes: &[u8], kind: u64, at: usize) -> u64
    requires { kind ≢ 3 → at + 8 ≤ length bytes.now }
    ensures { result ≡ stamp_of kind (field bytes.now at 8) }
{
    if kind == Kind::Opening as u64 {
        0
    } else {
        eight(bytes, at)
    }
}

// Puts the five numbers of the record at a place into a row of the table.
pub fn read_row(bytes: &[u8], at: usize, table: &mut [u64], row: usize)
    requires at_in_bounds { at + record_length (field bytes.now (at + 2) 2) ≤ length bytes.now }
    requires row_in_bounds { row * 5 + 5 ≤ length table.old }
    ensures { table.new ≡ sets table.old (row * 5) (cells (record_from bytes.now at)) }
{
    let base = row * Row::COLUMNS;
    let kind = two(bytes, at + 2);
    table[base + Row::REGISTER] = eight(bytes, at + 4);
    table[base + Row::KIND] = kind;
    table[base + Row::VALUE] = eight(bytes, at + 12);
    table[base + Row::START] = stamp(bytes, kind, at + 20);
    table[base + Row::FINISH] = stamp(bytes, kind, at + 28);
}

// Stores a record's bytes up to its value.
fn put_head(bytes: &mut [u8], at: usize, kind: u64, register: u64, value: u64)
    requires { at + 20 ≤ length bytes.old }
    ensures { bytes.new ≡ sets bytes.old at (head_bytes kind register value) }
{
    put::<2>(bytes, at, body_length(kind));
    put::<2>(bytes, at + 2, kind);
    put::<8>(bytes, at + 4, register);
    put::<8>(bytes, at + 12, value);
}

// Stores the bytes of two stamps.
fn put_stamps(bytes: &mut [u8], at: usize, start: u64, finish: u64)
    requires { at + 16 ≤ length bytes.old }
    ensures { bytes.new ≡ sets bytes.old at (stamp_bytes start finish) }
{
    put::<8>(bytes, at, start);
    put::<8>(bytes, at + 8, finish);
}

// Puts a row of the table into the record at a place; where the next one begins comes back.
pub fn write_row(table: &[u64], row: usize, bytes: &mut [u8], at: usize) -> usize
    requires row_in_bounds { row * 5 + 5 ≤ length table.now }
    requires row_in_bounds_2 { at + record_length (cell table.now row 1) ≤ length bytes.old }
    ensures value { result ≡ at + record_length (cell table.now row 1) }
    ensures bytes_after { bytes.new ≡ sets bytes.old at (record_of (row_at table.now row)) }
{
    let base = row * Row::COLUMNS;
    let kind = table[base + Row::KIND];
    put_head(
        bytes,
        at,
        kind,
        table[base + Row::REGISTER],
        table[base + Row::VALUE],
    );
    if kind == Kind::Opening as u64 {
        at + SHORT_RECORD
    } else {
        put_stamps(
            bytes,
            at + SHORT_RECORD,
            table[base + Row::START],
            table[base + Row::FINISH],
        );
        at + RECORD
    }
}
