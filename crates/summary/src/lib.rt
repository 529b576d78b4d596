// The numbers of the report: the registers of a table, ascending, and what is said of each.
#![tactic(auto)]

ghost use Rattle.std.specs.Prelude.{◌≡◌, ℕ, ◌+◌, ◌*◌, ◌≤◌, ◌<◌, length};
ghost use mathlib.Core.List.{[], ◌∷◌, flat_map};
ghost use Rattle.std.proofs.lemmas.List.Edits.{sets};
ghost use Rattle.methods.specs.Mark.{written};
ghost use Rattle.roads.specs.Examined.{Sound};
ghost use Rattle.summary.specs.Summary.{entry, Summed, Tells};

use history::{Answer, Code, Row};
use marker::Question;
use roads::{Road, Room};

// The numbers of an entry.
pub const ENTRY: usize = 5;

// The five numbers of a register at a place of the list: its own, the count of its rows, and those of its two marks.
fn put(register: u64, count: u64, one: Answer, two: Answer, list: &mut [u64], at: usize)
    requires { at + 5 ≤ length list.old }
    ensures { list.new ≡ sets list.old at (register ∷ count ∷ one.code ∷ two.code ∷ two.row ∷ []) }
{
    list[at] = register;
    list[at + 1] = count;
    list[at + 2] = one.code;
    list[at + 3] = two.code;
    list[at + 4] = two.row;
}

// The same of a register of the table. It is screened once for both questions.
fn put_entry(road: &Road, register: u64, room: &mut Room, list: &mut [u64], at: usize)
    requires { at + 5 ≤ length list.old }
    ensures { list.new ≡ sets list.old at (entry road.now.table.now register) }
{
    let Room { keys, rows, order } = room;
    let m = grouping::rows_of(road.table, road.grouped, register, rows);
    let (rows, _) = rows.split_at_mut(m);
    let met = roads::examine(road.table, keys, rows);
    let one = roads::answer(road.table, rows, met, Question::Zones, 0, order);
    let two = roads::answer(road.table, rows, met, Question::Fzf, 0, order);
    let count = rows.len() as u64;
    put(register, count, one, two, list, at);
}

// Those of each register, at the front of the list.
fn put_entries(road: &Road, registers: &[u64], room: &mut Room, list: &mut [u64])
    requires { length registers.now * 5 ≤ length list.old }
    ensures { list.new ≡ written (flat_map (entry road.now.table.now) registers.now) list.old }
{
    for (i, &register) in registers.iter().enumerate() {
        put_entry(road, register, room, list, i * ENTRY);
    }
}

// The summary of a table that passes tests 1 and 2.
fn sum_up(table: &[u64], list: &mut [u64]) -> Answer
    requires { Sound table.now }
    ensures { Summed table.now list.old result list.new }
{
    let n = table.len() / Row::COLUMNS;
    let mut room = Room {
        keys: [0; Row::LARGEST_COUNT],
        rows: [0; Row::LARGEST_COUNT],
        order: [0; Row::LARGEST_COUNT],
    };
    let grouped = &mut [0u64; Row::LARGEST_COUNT][..n];
    let found = &mut [0u64; Row::LARGEST_COUNT][..n];
    let keys = &mut room.keys[..n];
    grouping::group(table, keys, grouped);
    let m = grouping::registers(keys, grouped, found);
    if list.len() < m * ENTRY {
        return Code::ShortList.at(0);
    }
    let road = Road { table, grouped };
    put_entries(&road, &found[..m], &mut room, list);
    Answer::passed(m as u64)
}

// The summary of a table: five numbers a register, ascending, at the front of the list.
pub fn summary(table: &[u64], list: &mut [u64]) -> Answer
    ensures outcome { Summed table.now list.old result list.new }
    ensures said { (i : ℕ) → result.code ≡ 0 → i < result.rows → Tells table.now list.new i }
{
    if table.len() % Row::COLUMNS != 0 {
        return Code::Ragged.at(0);
    }
    if Row::LARGEST_COUNT < table.len() / Row::COLUMNS {
        return Code::Overfull.at(0);
    }
    sum_up(table, list)
}
