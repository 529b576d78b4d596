// The library's calls under names for C, for the tests in compare/ alone. This crate is no part of the product, whose entry for C is the one function
// of `host`. Each function makes the call of its name and puts the answer's four numbers at the front of the slice `to`.
#![tactic(auto)]

ghost use Rattle.std.specs.Prelude.{◌≡◌, length};
ghost use Rattle.history.specs.Answer.{list_after, answer_after};
ghost use Rattle.history.specs.Screen.{screening};
ghost use Rattle.atomicity.specs.Check.{check};
ghost use Rattle.methods.specs.Mark.{mark};
ghost use Rattle.zone_list.specs.ZoneList.{zone_call};
ghost use Rattle.marks.specs.Marks.{answer_to};
ghost use Rattle.files.specs.Files.{read_answer, read_table, write_answer, write_bytes};
ghost use Rattle.log_tables.specs.Logs.{load_answer, load_table};
ghost use Rattle.selection.specs.Selected.{select_answer, select_table};
ghost use Rattle.roads.specs.Answers.{answers_answer, answers_list};
ghost use Rattle.summary.specs.Summary.{summary_answer, summary_list};
ghost use Rattle.printing.specs.Texts.{text_after, refused_line};
ghost use Rattle.printing.specs.Files.{file_text};
ghost use Rattle.report.specs.Report.{report_of, report_answer, report_after};
ghost use Rattle.answer_report.specs.Text.{answers_text};
ghost use Rattle.zone_report.specs.Text.{zones_text};
ghost use Rattle.log_report.specs.Logs.{log_text};
ghost use Rattle.sheet.specs.Sheet.{sheet_of, exam_of};
ghost use Rattle.file_sheets.specs.Files.{bench_of, exam_file};
ghost use Rattle.parsing.specs.Numbers.{number_in, lines_in, counted, stored};
ghost use Rattle.clock.specs.Clock.{clock_in, write_answer as clock_answer, write_text};
ghost use Rattle.calls.specs.Calls.{Says, Prints, answer_of, number_answer};

use history::Answer;

#[unsafe(no_mangle)]
pub extern "C" fn calls_mark(
    table: &[u64],
    register: u64,
    question: u64,
    allowance: u64,
    list: &mut [u64],
    to: &mut [u64],
)
    ensures list_after { list.new ≡ (mark table.now register question allowance list.old).list }
    ensures says { Says (mark table.now register question allowance list.old).answer to.old to.new }
{
    marker::mark(table, register, question, allowance, list).write(to);
}

#[unsafe(no_mangle)]
pub extern "C" fn calls_answer(
    table: &[u64],
    register: u64,
    question: u64,
    allowance: u64,
    to: &mut [u64],
)
    ensures { Says (answer_to table.now register question allowance) to.old to.new }
{
    marks::answer(table, register, question, allowance).write(to);
}

#[unsafe(no_mangle)]
pub extern "C" fn calls_check(table: &[u64], register: u64, k: u64, list: &[u64], to: &mut [u64])
    ensures { Says (check table.now register k list.now) to.old to.new }
{
    orders::check(table, register, k, list).write(to);
}

#[unsafe(no_mangle)]
pub extern "C" fn calls_screen(table: &[u64], register: u64, to: &mut [u64])
    ensures { Says (screening table.now register) to.old to.new }
{
    screening::screen(table, register).write(to);
}

#[unsafe(no_mangle)]
pub extern "C" fn calls_zone_list(table: &[u64], register: u64, list: &mut [u64], to: &mut [u64])
    ensures list_after { list.new ≡ (zone_call table.now register list.old).list }
    ensures says { Says (zone_call table.now register list.old).answer to.old to.new }
{
    zone_list::write(table, register, list).write(to);
}

#[unsafe(no_mangle)]
pub extern "C" fn calls_read(bytes: &[u8], table: &mut [u64], to: &mut [u64])
    ensures table_after { table.new ≡ read_table bytes.now table.old }
    ensures says { Says (read_answer bytes.now table.old) to.old to.new }
{
    files::read(bytes, table).write(to);
}

#[unsafe(no_mangle)]
pub extern "C" fn calls_load(bytes: &[u8], table: &mut [u64], to: &mut [u64])
    ensures table_after { table.new ≡ load_table bytes.now table.old }
    ensures says { Says (load_answer bytes.now table.old) to.old to.new }
{
    logs::load(bytes, table).write(to);
}

#[unsafe(no_mangle)]
pub extern "C" fn calls_select(bytes: &[u8], register: u64, table: &mut [u64], to: &mut [u64])
    ensures table_after { table.new ≡ select_table bytes.now register table.old }
    ensures says { Says (select_answer bytes.now register table.old) to.old to.new }
{
    selection::read(bytes, register, table).write(to);
}

#[unsafe(no_mangle)]
pub extern "C" fn calls_write(table: &[u64], bytes: &mut [u8], to: &mut [u64])
    ensures bytes_after { bytes.new ≡ write_bytes table.now bytes.old }
    ensures says { Says (write_answer table.now bytes.old) to.old to.new }
{
    files::write(table, bytes).write(to);
}

#[unsafe(no_mangle)]
pub extern "C" fn calls_answers(
    table: &[u64],
    registers: &[u64],
    question: u64,
    allowance: u64,
    list: &mut [u64],
    to: &mut [u64],
)
    ensures list_after { list.new ≡ answers_list table.now registers.now question allowance list.old }
    ensures says { Says (answers_answer table.now registers.now question list.old) to.old to.new }
{
    roads::answers(table, registers, question, allowance, list).write(to);
}

#[unsafe(no_mangle)]
pub extern "C" fn calls_summary(table: &[u64], list: &mut [u64], to: &mut [u64])
    ensures list_after { list.new ≡ summary_list table.now list.old }
    ensures says { Says (summary_answer table.now list.old) to.old to.new }
{
    summary::summary(table, list).write(to);
}

#[unsafe(no_mangle)]
pub extern "C" fn calls_report(table: &[u64], out: &mut [u8], to: &mut [u64])
    ensures out_after { out.new ≡ report_after table.now out.old }
    ensures says { Says (report_answer table.now out.old) to.old to.new }
{
    report::report(table, out).write(to);
}

#[unsafe(no_mangle)]
pub extern "C" fn calls_road(bytes: &[u8], out: &mut [u8], to: &mut [u64])
    ensures out_after { out.new ≡ text_after (file_text bytes.now report_of) out.old }
    ensures prints { Prints (file_text bytes.now report_of) out.old to.old to.new }
{
    report::road(bytes, out).write(to);
}

#[unsafe(no_mangle)]
pub extern "C" fn calls_answer_road(
    bytes: &[u8],
    question: u64,
    allowance: u64,
    out: &mut [u8],
    to: &mut [u64],
)
    ensures out_after { out.new ≡ text_after (file_text bytes.now (answers_text question allowance)) out.old }
    ensures prints { Prints (file_text bytes.now (answers_text question allowance)) out.old to.old to.new }
{
    answer_report::road(bytes, question, allowance, out).write(to);
}

#[unsafe(no_mangle)]
pub extern "C" fn calls_zones(bytes: &[u8], register: u64, out: &mut [u8], to: &mut [u64])
    ensures out_after { out.new ≡ text_after (file_text bytes.now (zones_text register)) out.old }
    ensures prints { Prints (file_text bytes.now (zones_text register)) out.old to.old to.new }
{
    zone_report::zones(bytes, register, out).write(to);
}

#[unsafe(no_mangle)]
pub extern "C" fn calls_log(bytes: &[u8], out: &mut [u8], to: &mut [u64])
    ensures out_after { out.new ≡ text_after (log_text bytes.now) out.old }
    ensures prints { Prints (log_text bytes.now) out.old to.old to.new }
{
    log_report::log(bytes, out).write(to);
}

#[unsafe(no_mangle)]
pub extern "C" fn calls_sheet(
    table: &[u64],
    register: u64,
    allowance: u64,
    out: &mut [u8],
    to: &mut [u64],
)
    ensures out_after { out.new ≡ text_after (sheet_of table.now register allowance) out.old }
    ensures prints { Prints (sheet_of table.now register allowance) out.old to.old to.new }
{
    sheet::sheet(table, register, allowance, out).write(to);
}

#[unsafe(no_mangle)]
pub extern "C" fn calls_checked(
    table: &[u64],
    register: u64,
    k: u64,
    list: &[u64],
    out: &mut [u8],
    to: &mut [u64],
)
    ensures out_after { out.new ≡ text_after (exam_of table.now register k list.now) out.old }
    ensures prints { Prints (exam_of table.now register k list.now) out.old to.old to.new }
{
    sheet::checked(table, register, k, list, out).write(to);
}

#[unsafe(no_mangle)]
pub extern "C" fn calls_bench(
    bytes: &[u8],
    register: u64,
    allowance: u64,
    out: &mut [u8],
    to: &mut [u64],
)
    ensures out_after { out.new ≡ text_after (bench_of bytes.now register allowance) out.old }
    ensures prints { Prints (bench_of bytes.now register allowance) out.old to.old to.new }
{
    file_sheets::bench(bytes, register, allowance, out).write(to);
}

#[unsafe(no_mangle)]
pub extern "C" fn calls_exam(
    bytes: &[u8],
    register: u64,
    k: u64,
    list: &[u64],
    out: &mut [u8],
    to: &mut [u64],
)
    ensures out_after { out.new ≡ text_after (exam_file bytes.now register k list.now) out.old }
    ensures prints { Prints (exam_file bytes.now register k list.now) out.old to.old to.new }
{
    file_sheets::exam(bytes, register, k, list, out).write(to);
}

#[unsafe(no_mangle)]
pub extern "C" fn calls_refusal(
    code: u64,
    row: u64,
    rows: u64,
    trials: u64,
    out: &mut [u8],
    to: &mut [u64],
)
    ensures out_after { out.new ≡ text_after (refused_line (answer_of code row rows trials)) out.old }
    ensures prints { Prints (refused_line (answer_of code row rows trials)) out.old to.old to.new }
{
    let answer = Answer {
        code,
        row,
        rows,
        trials,
    };
    printing::refusal(answer, out).write(to);
}

#[unsafe(no_mangle)]
pub extern "C" fn calls_put_answer(
    code: u64,
    row: u64,
    rows: u64,
    trials: u64,
    list: &mut [u64],
    to: &mut [u64],
)
    ensures list_after { list.new ≡ list_after (answer_of code row rows trials) list.old }
    ensures says { Says (answer_after list.old) to.old to.new }
{
    let answer = Answer {
        code,
        row,
        rows,
        trials,
    };
    answer.write(list).write(to);
}

// A number, or a count, as an answer: code 0 and the number in the rows field, or code 1.
fn number_answer(number: Option<u64>) -> Answer
    ensures { result ≡ number_answer number }
{
    number.map_or(Answer::refused(1, 0), Answer::passed)
}

#[unsafe(no_mangle)]
pub extern "C" fn calls_number(text: &[u8], to: &mut [u64])
    ensures { Says (number_answer (number_in text.now)) to.old to.new }
{
    number_answer(parsing::number_in(text)).write(to);
}

#[unsafe(no_mangle)]
pub extern "C" fn calls_numbers(text: &[u8], list: &mut [u64], to: &mut [u64])
    ensures list_after { list.new ≡ stored (lines_in (length list.old) text.now) list.old }
    ensures says { Says (number_answer (counted (lines_in (length list.old) text.now))) to.old to.new }
{
    let count = parsing::list(text, list).map(|n| n as u64);
    number_answer(count).write(to);
}

#[unsafe(no_mangle)]
pub extern "C" fn calls_clock_write(stamp: u64, text: &mut [u8], to: &mut [u64])
    ensures text_after { text.new ≡ write_text stamp text.old }
    ensures says { Says (clock_answer stamp text.old) to.old to.new }
{
    clock::write(stamp, text).write(to);
}

#[unsafe(no_mangle)]
pub extern "C" fn calls_clock_read(text: &[u8], to: &mut [u64])
    ensures { Says (number_answer (clock_in text.now)) to.old to.new }
{
    number_answer(clock::read(text)).write(to);
}
