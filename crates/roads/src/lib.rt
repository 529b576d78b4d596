// A whole road in one call: what the marking call answers for each of a list of registers. The rows are put by register once.
#![tactic(auto)]

ghost use Rattle.std.specs.Prelude.{◌≡◌, ℕ, ◌+◌, ◌*◌, ◌≤◌, length};
ghost use Rattle.std.proofs.lemmas.List.Edits.{sets};
ghost use Rattle.history.specs.Table.{largest_count, row_count};
ghost use Rattle.history.specs.Answer.{numbers};
ghost use Rattle.methods.specs.Mark.{written};
ghost use Rattle.marker.specs.Questions.{number};
ghost use Rattle.marks.specs.Marks.{answer_to};
ghost use Rattle.grouping.specs.Grouped.{by_register};
ghost use Rattle.roads.specs.Answers.{answers_of, answers_answer, answers_list, Each};
ghost use Rattle.roads.specs.Examined.{Sound, RowsOf, Examined, Examines, Answers};

use history::{Answer, Code, Row};
use marker::Question;

// The numbers of a register: the fields of an answer.
pub const FIELDS: usize = 4;

// A table that passes tests 1 and 2, with its rows by register.
#[derive(Clone, Copy)]
pub struct Road<'a> {
    pub table: &'a [u64],
    pub grouped: &'a [u64],
    pub ghost sound: { Sound table.now },
    pub ghost by_register: { grouped.now ≡ by_register table.now },
}

// Places for what is made of one register on the way: the time of each row of the table, the register's rows, and an order of them.
#[derive(Drop)]
pub struct Room {
    pub keys: [u64; Row::LARGEST_COUNT],
    pub rows: [u64; Row::LARGEST_COUNT],
    pub order: [u64; Row::LARGEST_COUNT],
}

// Screens a register by its rows, which are put by rising time where that refuses nothing.
pub fn examine(table: &[u64], keys: &mut [u64], rows: &mut [u64]) -> Answer
    requires sound { Sound table.now }
    requires own { (register : ℕ) × RowsOf table.now register rows.old }
    requires keys_room { row_count table.now ≤ length keys.old }
    ensures { Examines table.now rows.old result rows.new }
{
    let met = screening::examine_listed(table, rows);
    if met.code == 0 {
        columns::sort_rows(table, keys, rows);
    }
    met
}

// What the marking call answers for a register, from what its screening left. The places are for an order, which is dropped.
pub fn answer(
    table: &[u64],
    rows: &[u64],
    met: Answer,
    question: Question,
    allowance: u64,
    order: &mut [u64],
) -> Answer
    requires sound { Sound table.now }
    requires examined { (register : ℕ) × Examined table.now register met rows.now }
    requires order_len { length order.old ≡ largest_count }
    ensures { Answers table.now met rows.now (number question) allowance result }
{
    if met.code != 0 {
        return met;
    }
    marker::mark_rows(table, rows, question, allowance, order)
}

// What the marking call answers for a register.
pub fn answer_in(
    road: &Road,
    register: u64,
    question: Question,
    allowance: u64,
    keys: &mut [u64],
    rows: &mut [u64],
    order: &mut [u64],
) -> Answer
    requires keys_room { row_count road.now.table.now ≤ length keys.old }
    requires rows_room { row_count road.now.table.now ≤ length rows.old }
    requires order_len { length order.old ≡ largest_count }
    ensures { result ≡ answer_to road.now.table.now register (number question) allowance }
{
    let m = grouping::rows_of(road.table, road.grouped, register, rows);
    let rows = &mut rows[..m];
    let met = examine(road.table, keys, rows);
    answer(road.table, rows, met, question, allowance, order)
}

// The fields of an answer, from a place of the list on.
pub fn put(answer: Answer, list: &mut [u64], at: usize)
    requires { at + 4 ≤ length list.old }
    ensures { list.new ≡ sets list.old at (numbers answer) }
{
    answer.write(&mut list[at..]);
}

// Those of each listed register, at the front of the list.
fn put_answers(
    road: &Road,
    registers: &[u64],
    question: Question,
    allowance: u64,
    room: &mut Room,
    list: &mut [u64],
)
    requires { length registers.now * 4 ≤ length list.old }
    ensures { list.new ≡ written (answers_of road.now.table.now registers.now (number question) allowance) list.old }
{
    let Room { keys, rows, order } = room;
    for (i, &register) in registers.iter().enumerate() {
        let one = answer_in(road, register, question, allowance, keys, rows, order);
        put(one, list, i * FIELDS);
    }
}

// The same of a table that passes tests 1 and 2.
fn answer_all(
    table: &[u64],
    registers: &[u64],
    question: Question,
    allowance: u64,
    list: &mut [u64],
)
    requires sound { Sound table.now }
    requires list_room { length registers.now * 4 ≤ length list.old }
    ensures { list.new ≡ written (answers_of table.now registers.now (number question) allowance) list.old }
{
    let n = table.len() / Row::COLUMNS;
    let mut room = Room {
        keys: [0; Row::LARGEST_COUNT],
        rows: [0; Row::LARGEST_COUNT],
        order: [0; Row::LARGEST_COUNT],
    };
    let grouped = &mut [0u64; Row::LARGEST_COUNT][..n];
    grouping::group(table, &mut room.keys[..n], grouped);
    let road = Road { table, grouped };
    put_answers(&road, registers, question, allowance, &mut room, list);
}

// What the marking call answers for each of a list of registers, with the whole allowance for each: four numbers a register, in the
// sequence of the list.
pub fn answers(
    table: &[u64],
    registers: &[u64],
    question: u64,
    allowance: u64,
    list: &mut [u64],
) -> Answer
    ensures answer { result ≡ answers_answer table.now registers.now question list.old }
    ensures list { list.new ≡ answers_list table.now registers.now question allowance list.old }
    ensures said { result.code ≡ 0 → Each table.now registers.now question allowance list.new }
{
    if table.len() % Row::COLUMNS != 0 {
        return Code::Ragged.at(0);
    }
    if Row::LARGEST_COUNT < table.len() / Row::COLUMNS {
        return Code::Overfull.at(0);
    }
    let Ok(asked) = Question::try_from(question) else {
        return Code::NoSuchQuestion.at(0);
    };
    if list.len() / FIELDS < registers.len() {
        return Code::ShortList.at(0);
    }
    answer_all(table, registers, asked, allowance, list);
    Answer::passed(0)
}
