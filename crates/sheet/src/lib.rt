// What the programs bench and exam print of a register: a heading, the answers to the three questions, the orders found, and a check of an order.
#![tactic(auto)]

ghost use Rattle.std.specs.Prelude.{◌≡◌, length, replicate};
ghost use Rattle.marker.specs.Questions.{number};
ghost use Rattle.marks.specs.Marks.{most_trials};
ghost use Rattle.printing.specs.Texts.{Printed};
ghost use Rattle.lines.specs.Lines.{Put, places};
ghost use Rattle.sheet.specs.Sheet.{outcome_to, sheet_of, Shown, exam_of, Told};
ghost use Rattle.sheet.specs.Pages.{room, Page};

use history::Answer;
use marker::Question;

// A question and the list of 1,024 places behind it.
const PLACES: usize = 1025;

// A buffer of so many bytes holds every sheet with its check.
const ROOM: usize = 65536;

// Marks the register by a question: the page holds the question's number and, behind it, the list.
fn ask(table: &[u64], register: u64, question: Question, allowance: u64, page: &mut [u64]) -> Answer
    requires { page.old ≡ replicate places 0 }
    ensures { Page (number question) (outcome_to table.now register (number question) allowance) result page.new }
{
    let question = question as u64;
    page[0] = question;
    marker::mark(table, register, question, allowance, &mut page[1..])
}

// Marks the register by the three questions, and writes the sheet at the front of a buffer; its length.
fn put_sheet(table: &[u64], register: u64, allowance: u64, out: &mut [u8]) -> usize
    requires { length out.old ≡ room }
    ensures { Put (sheet_of table.now register allowance) out.old 0 result out.new }
{
    let mut one = [0u64; PLACES];
    let mut two = [0u64; PLACES];
    let mut three = [0u64; PLACES];
    let zones = ask(table, register, Question::Zones, allowance, &mut one);
    let lbt = ask(table, register, Question::Lbt, allowance, &mut two);
    let fzf = ask(table, register, Question::Fzf, allowance, &mut three);
    let headed = text::put_bytes(b"question,code,row,rows,trials\n", out, 0);
    let answered = lines::put_answers(zones, lbt, fzf, out, headed);
    let first = lines::put_order(zones, &one, out, answered);
    let second = lines::put_order(lbt, &two, out, first);
    lines::put_order(fzf, &three, out, second)
}

// The sheet of a register, with an allowance for LBT.
pub fn sheet(table: &[u64], register: u64, allowance: u64, out: &mut [u8]) -> Answer
    ensures text { Printed (sheet_of table.now register allowance) out.old result out.new }
    ensures shown { Shown table.now register allowance }
{
    let mut whole = [0u8; ROOM];
    let length = put_sheet(table, register, allowance, &mut whole);
    printing::hand_out(&whole[..length], out)
}

// The sheet of a register, and the check of an order of it.
pub fn checked(table: &[u64], register: u64, k: u64, list: &[u64], out: &mut [u8]) -> Answer
    ensures text { Printed (exam_of table.now register k list.now) out.old result out.new }
    ensures shown { Shown table.now register most_trials }
    ensures told { Told table.now register k list.now }
{
    let mut whole = [0u8; ROOM];
    let next = put_sheet(table, register, marks::MOST_TRIALS, &mut whole);
    let answer = orders::check(table, register, k, list);
    let length = lines::put_check(answer, &mut whole, next);
    printing::hand_out(&whole[..length], out)
}
