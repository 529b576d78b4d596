// The answers of a road as text: the header line, and a line for each register of a history file, ascending.
#![tactic(auto)]

ghost use Rattle.std.specs.Prelude.{◌≡◌, ◌+◌, ◌*◌, ◌≤◌, length};
ghost use Rattle.std.proofs.lemmas.List.Edits.{sets};
ghost use Rattle.methods.specs.Mark.{written};
ghost use Rattle.records.specs.Records.{table_of};
ghost use Rattle.printing.specs.Texts.{Printed};
ghost use Rattle.printing.specs.Files.{file_text};
ghost use Rattle.marker.specs.Questions.{number};
ghost use Rattle.roads.specs.Examined.{Sound};
ghost use Rattle.answer_report.specs.Text.{line_of, numbers_of, answers_text, Meant};

use history::{Answer, Code, Row};
use marker::Question;
use roads::{Road, Room};

// The numbers of a line.
const LINE: usize = 5;

// A register's number and the fields of its answer, from a place of the list on.
fn put_line(
    road: &Road,
    register: u64,
    question: Question,
    allowance: u64,
    room: &mut Room,
    list: &mut [u64],
    at: usize,
)
    requires { at + 5 ≤ length list.old }
    ensures { list.new ≡ sets list.old at (line_of road.now.table.now (number question) allowance register) }
{
    let Room { keys, rows, order } = room;
    let one = roads::answer_in(road, register, question, allowance, keys, rows, order);
    list[at] = register;
    roads::put(one, list, at + 1);
}

// Those of each register, at the front of the list.
fn put_lines(
    road: &Road,
    registers: &[u64],
    question: Question,
    allowance: u64,
    room: &mut Room,
    list: &mut [u64],
)
    requires { length registers.now * 5 ≤ length list.old }
    ensures { list.new ≡ written (numbers_of road.now.table.now (number question) allowance registers.now) list.old }
{
    for (i, &register) in registers.iter().enumerate() {
        put_line(road, register, question, allowance, room, list, i * LINE);
    }
}

// The text of a table that passes tests 1 and 2.
fn text(table: &[u64], question: Question, allowance: u64, out: &mut [u8]) -> Answer
    requires { Sound table.now }
    ensures { Printed (answers_text (number question) allowance table.now) out.old result out.new }
{
    let n = table.len() / Row::COLUMNS;
    let mut room = Room {
        keys: [0; Row::LARGEST_COUNT],
        rows: [0; Row::LARGEST_COUNT],
        order: [0; Row::LARGEST_COUNT],
    };
    let mut numbers = [0u64; Row::LARGEST_TABLE];
    let grouped = &mut [0u64; Row::LARGEST_COUNT][..n];
    let found = &mut [0u64; Row::LARGEST_COUNT][..n];
    let keys = &mut room.keys[..n];
    grouping::group(table, keys, grouped);
    let m = grouping::registers(keys, grouped, found);
    let road = Road { table, grouped };
    put_lines(
        &road,
        &found[..m],
        question,
        allowance,
        &mut room,
        &mut numbers,
    );
    printing::headed(b"register,code,row,rows,trials\n", &numbers, LINE, m, out)
}

// The same of any question: where there is no such, the line of that refusal.
fn answers(table: &[u64], question: u64, allowance: u64, out: &mut [u8]) -> Answer
    requires { Sound table.now }
    ensures { Printed (answers_text question allowance table.now) out.old result out.new }
{
    let Ok(asked) = Question::try_from(question) else {
        return printing::refusal(Code::NoSuchQuestion.at(0), out);
    };
    text(table, asked, allowance, out)
}

// The answers of all registers of a file, or the line of the refusal of the file or of the question, and what the codes say.
pub fn road(bytes: &[u8], question: u64, allowance: u64, out: &mut [u8]) -> Answer
    ensures text { Printed (file_text bytes.now (answers_text question allowance)) out.old result out.new }
    ensures said { Meant (table_of bytes.now) question allowance }
{
    printing::of_file(bytes, out, |table, out| {
        answers(table, question, allowance, out)
    })
}
