// The marking call: tests 1 to 10, and then the method of the question over the register's prepared history.
#![tactic(auto)]

ghost use Rattle.std.specs.Prelude.{◌≡◌, true, List, ℕ, ◌≤◌, length, MatchResult};
ghost use Rattle.history.specs.Table.{rows_of, history, Alike, largest_count, row_count};
ghost use Rattle.history.specs.Answer.{first_met, passed};
ghost use Rattle.screening.specs.Ready.{Gathered};
ghost use Rattle.methods.specs.Mark.{no_question, method, mark_tests, mark};
ghost use Rattle.meaning.specs.Marked.{Passes};
ghost use Rattle.meaning.specs.Demand.{Demand};
ghost use Rattle.positions.specs.View.{view};
ghost use Rattle.placing.specs.Searched.{Searched};
ghost use Rattle.columns.specs.Rows.{Listed};
ghost use Rattle.columns.specs.Made.{Made};
ghost use Rattle.searches.specs.Replies.{outcome};
ghost use Rattle.marker.specs.Questions.{number};
ghost use Rattle.marker.specs.Called.{judged_by, OfRows};

use history::{Answer, Code, Row};
use placing::Search;
use positions::{Chains, Columns};

// The questions, with their numbers.
#[derive(Clone, Copy, PartialEq, Eq, Debug)]
pub enum Question {
    Zones = 1,
    Lbt = 2,
    Fzf = 3,
}

// There is no question of this number.
#[derive(Clone, Copy, PartialEq, Eq, Debug)]
pub struct NoQuestion;

impl TryFrom<u64> for Question {
    type Error = NoQuestion;

    ghost try_from_gives = { λ n r. MatchResult r (λ q. number q ≡ n) (λ _. no_question n ≡ true) };

    fn try_from(question: u64) -> Result<Self, NoQuestion> {
        match question {
            1 => Ok(Question::Zones),
            2 => Ok(Question::Lbt),
            3 => Ok(Question::Fzf),
            _ => Err(NoQuestion),
        }
    }
}

// Whether there is no such question.
pub fn unasked(question: u64) -> bool
    ensures { result ≡ no_question question }
{
    Question::try_from(question).is_err()
}

// Tests 1 to 10, with a list of so many places, and a place for each row of a table that passes the first two; where none refuses, the
// register's rows stand at the front of these then.
fn refusal(table: &[u64], register: u64, unasked: bool, room: usize, rows: &mut [u64]) -> Answer
    requires { row_count table.now ≤ largest_count → row_count table.now ≤ length rows.old }
    ensures tested { (question : ℕ) → unasked ≡ no_question question → (list : List ℕ) → length list ≡ room → result ≡ first_met
        (mark_tests (length table.now) (history table.now register) question list) (passed (length (history table.now register))) }
    ensures gathered { result.code ≡ 0 → Gathered table.now register rows.new }
{
    let nine = screening::examine_into(table, register, unasked, rows);
    if nine.code != 0 {
        return nine;
    }
    if (room as u64) < nine.rows {
        return Code::ShortList.at(0);
    }
    nine
}

// The search by the question's method, into a lent order.
fn search(
    table: &[u64],
    rows: &[u64],
    columns: &Columns,
    question: Question,
    allowance: u64,
    order: &mut [u64],
) -> Search
    requires made { Made table.now rows.now (view columns.now) }
    requires listed { (register : ℕ) × Listed table.now register rows.now }
    requires few { length rows.now ≤ largest_count }
    requires order_room { length rows.now ≤ length order.old }
    ensures { Searched (view columns.now) allowance (method (number question)) order.new result }
{
    match question {
        Question::Zones => zone_method::search(table, rows, columns, order),
        Question::Lbt => searches::walk(columns, allowance, order),
        Question::Fzf => fzf::search(columns, order),
    }
}

// The mark of a screened register of up to N rows, from these by rising time.
fn mark_sized<const N: usize>(
    table: &[u64],
    rows: &[u64],
    question: Question,
    allowance: u64,
    list: &mut [u64],
) -> Answer
    requires size { N ≤ largest_count }
    requires listed { (register : ℕ) × Listed table.now register rows.now }
    requires few { length rows.now ≤ N }
    requires list_room { length rows.now ≤ length list.old }
    ensures { OfRows table.now rows.now (number question) allowance list.old (outcome result list.new) }
{
    let n = rows.len();
    let start = &mut [0u64; N][..n];
    let finish = &mut [0u64; N][..n];
    let writer = &mut [0u64; N][..n];
    let last = &mut [0u64; N][..n];
    let prev = &mut [0u64; N][..n];
    columns::fill(table, rows, start, finish, writer, last, prev);
    let chains = Chains { writer, last, prev };
    let columns = Columns {
        start,
        finish,
        chains,
    };
    let mut order = [0u64; N];
    let found = search(table, rows, &columns, question, allowance, &mut order);
    searches::answer(found, &order, rows, allowance, list)
}

// The mark of a screened register, from its rows by rising time.
pub fn mark_rows(
    table: &[u64],
    rows: &[u64],
    question: Question,
    allowance: u64,
    list: &mut [u64],
) -> Answer
    requires listed { (register : ℕ) × Listed table.now register rows.now }
    requires few { length rows.now ≤ largest_count }
    requires list_room { length rows.now ≤ length list.old }
    ensures { OfRows table.now rows.now (number question) allowance list.old (outcome result list.new) }
{
    if rows.len() <= Row::FEW {
        mark_sized::<{ Row::FEW }>(table, rows, question, allowance, list)
    } else if rows.len() <= Row::SOME {
        mark_sized::<{ Row::SOME }>(table, rows, question, allowance, list)
    } else {
        mark_sized::<{ Row::LARGEST_COUNT }>(table, rows, question, allowance, list)
    }
}

// The mark of a register that passes tests 1 to 10, from its rows in table sequence.
fn mark_gathered(
    table: &[u64],
    register: u64,
    question: Question,
    allowance: u64,
    rows: &mut [u64],
    list: &mut [u64],
) -> Answer
    requires passes { Passes (length table.now) (history table.now register) (number question) list.old }
    requires rows_value { rows.old ≡ rows_of table.now register }
    ensures { outcome result list.new ≡ judged_by table.now register (number question) allowance list.old }
{
    columns::put_by_time(table, rows);
    mark_rows(table, rows, question, allowance, list)
}

// The marking call, where a table that passes tests 1 and 2 has up to N rows. Where there is no such question, a test refuses: the third,
// or one before it.
fn call_sized<const N: usize>(
    table: &[u64],
    register: u64,
    question: u64,
    allowance: u64,
    list: &mut [u64],
) -> Answer
    requires size { N ≤ largest_count }
    requires room { row_count table.now ≤ largest_count → row_count table.now ≤ N }
    ensures { outcome result list.new ≡ mark table.now register question allowance list.old }
{
    let mut rows = [0u64; N];
    let asked = Question::try_from(question);
    let met = refusal(table, register, unasked(question), list.len(), &mut rows);
    let Ok(asked) = asked else {
        return met;
    };
    if met.code != 0 {
        return met;
    }
    let n = met.rows as usize;
    mark_gathered(table, register, asked, allowance, &mut rows[..n], list)
}

// The marking call: fresh with an order at the front of the list, stale, spent, or a refusal; but for fresh the list is left as it was.
pub fn mark(table: &[u64], register: u64, question: u64, allowance: u64, list: &mut [u64]) -> Answer
    ensures outcome { outcome result list.new ≡ mark table.now register question allowance list.old }
    ensures demand { Demand table.now register question allowance list.old (outcome result list.new) }
    ensures alike { (u : List ℕ) → Alike table.now u register → outcome result list.new ≡ mark u register question allowance list.old }
{
    if table.len() / Row::COLUMNS <= Row::FEW {
        call_sized::<{ Row::FEW }>(table, register, question, allowance, list)
    } else {
        call_sized::<{ Row::LARGEST_COUNT }>(table, register, question, allowance, list)
    }
}
