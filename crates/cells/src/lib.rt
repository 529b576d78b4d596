// The cells of a text: where one ends, and what it says. A comma or a line feed ends a cell.
#![tactic(auto)]

ghost use Rattle.std.specs.Prelude.{◌≡◌, cond, ◌||◌, eqb, ltb};
ghost use Rattle.parsing.specs.Numbers.{number_of, says};
ghost use Rattle.clock.specs.Clock.{stamp_in};
ghost use Rattle.cells.specs.Parts.{comma, feed, kind_of};
ghost use Rattle.cells.specs.Steps.{cell_at, end_of, saying, comma_at};

use history::Kind;

// Where a cell ends, and what it says.
#[derive(Clone, Copy)]
pub struct Cell {
    pub end: usize,
    pub number: Option<u64>,
}

// Whether a byte ends a cell. Most bytes lie above the comma and the line feed below it, so that one comparison tells most bytes apart from both.
fn stops(byte: u8) -> bool
    ensures { result ≡ (eqb byte comma || eqb byte feed) }
{
    if b',' < byte {
        return false;
    }
    if byte == b',' {
        return true;
    }
    byte == b'\n'
}

// Where the cell that starts at `at` ends.
pub fn cell_end(bytes: &[u8], at: usize) -> usize
    ensures { result ≡ end_of bytes.now at }
{
    let mut end = at;
    // This loop is faster than `position`, and every byte of a log is in it.
    while end < bytes.len() {
        if stops(bytes[end]) {
            return end;
        }
        end += 1;
    }
    end
}

// What a cell is worth of which `value` was read before `at`: nothing more may follow.
fn broken_off(bytes: &[u8], at: usize, value: u64) -> Cell
    ensures { result ≡ saying bytes.now at (cond (ltb at (end_of bytes.now at)) None (Some value)) }
{
    let end = cell_end(bytes, at);
    let number = if at < end { None } else { Some(value) };
    Cell { end, number }
}

// The digits of the cell that starts at `at`; none are worth 0.
fn digits(bytes: &[u8], at: usize) -> Cell
    ensures { result ≡ saying bytes.now at (says 0 (cell_at bytes.now at)) }
{
    let mut value = 0;
    for i in at..bytes.len() {
        let Some(next) = parsing::appended(value, bytes[i]) else {
            return broken_off(bytes, i, value);
        };
        value = next;
    }
    Cell {
        end: at.max(bytes.len()),
        number: Some(value),
    }
}

// The number of the cell that starts at `at`.
pub fn number_cell(bytes: &[u8], at: usize) -> Cell
    ensures { result ≡ saying bytes.now at (number_of (cell_at bytes.now at)) }
{
    let cell = digits(bytes, at);
    if at < cell.end {
        return cell;
    }
    Cell {
        end: at,
        number: None,
    }
}

// The stamp of the cell that starts at `at`, in either form. The parts of clock time are counted from the cell's end.
pub fn stamp_cell(bytes: &[u8], at: usize) -> Cell
    ensures { result ≡ saying bytes.now at (stamp_in (cell_at bytes.now at)) }
{
    let cell = number_cell(bytes, at);
    let end = cell.end;
    if cell.number.is_some() || end <= at {
        return cell;
    }
    Cell {
        end,
        number: clock::read(&bytes[at..end]),
    }
}

fn kind(byte: u8) -> Option<u64>
    ensures { result ≡ cond (eqb byte 119) (Some 1) (cond (eqb byte 114) (Some 2) (cond (eqb byte 111) (Some 3) None)) }
{
    match byte {
        b'w' => Some(Kind::Write as u64),
        b'r' => Some(Kind::Read as u64),
        b'o' => Some(Kind::Opening as u64),
        _ => None,
    }
}

// The kind of the cell that starts at `at`.
pub fn kind_cell(bytes: &[u8], at: usize) -> Cell
    ensures { result ≡ saying bytes.now at (kind_of (cell_at bytes.now at)) }
{
    let end = cell_end(bytes, at);
    let number = if end - at == 1 { kind(bytes[at]) } else { None };
    Cell { end, number }
}

// Whether a comma stands at `at`.
pub fn comma_at(bytes: &[u8], at: usize) -> bool
    ensures { result ≡ comma_at bytes.now at }
{
    at < bytes.len() && bytes[at] == b','
}
