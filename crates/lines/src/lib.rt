// The lines of a sheet, each written from a place of a buffer on: the answers to the questions, the order of a fresh mark, a check of an order.
#![tactic(auto)]

ghost use Rattle.std.specs.Prelude.{◌≡◌, ◌+◌, ◌≤◌, ◌<◌, length};
ghost use Rattle.lines.specs.Lines.{Put, places, answer_line, answers_of, order_of, check_line};

use history::Answer;

// Writes the line of a question's answer from `at` on; the place behind it.
fn put_answer(question: u64, answer: Answer, out: &mut [u8], at: usize) -> usize
    requires { at + 106 ≤ length out.old }
    ensures { Put (answer_line question answer) out.old at result out.new }
{
    let numbers = [
        question,
        answer.code,
        answer.row,
        answer.rows,
        answer.trials,
    ];
    text::put_line(&numbers, out, at)
}

// Writes the lines of the three answers.
pub fn put_answers(one: Answer, two: Answer, three: Answer, out: &mut [u8], at: usize) -> usize
    requires { at + 318 ≤ length out.old }
    ensures { Put (answers_of one two three) out.old at result out.new }
{
    let first = put_answer(1, one, out, at);
    let second = put_answer(2, two, out, first);
    put_answer(3, three, out, second)
}

// Writes the line of a fresh mark's order, from the page; nothing of another mark.
pub fn put_order(answer: Answer, page: &[u64], out: &mut [u8], at: usize) -> usize
    requires at_in_bounds { at + 21532 ≤ length out.old }
    requires page_len { length page.now ≡ places }
    requires rows_lt_places { answer.code ≡ 0 → answer.rows < places }
    ensures { Put (order_of answer page.now) out.old at result out.new }
{
    if answer.code != 0 {
        return at;
    }
    let next = text::put_bytes(b"order,", out, at);
    let end = answer.rows as usize + 1;
    text::put_line(&page[..end], out, next)
}

// Writes the line of a check of an order.
pub fn put_check(answer: Answer, out: &mut [u8], at: usize) -> usize
    requires { at + 49 ≤ length out.old }
    ensures { Put (check_line answer) out.old at result out.new }
{
    let numbers = [answer.code, answer.row];
    let next = text::put_bytes(b"check,", out, at);
    text::put_line(&numbers, out, next)
}
