// Texts at the front of a lent buffer: the line of a refused file, a header with lines of numbers, and a text that is whole already.
#![tactic(auto)]

ghost use Rattle.std.specs.Prelude.{◌≡◌, ◌++◌, ◌+◌, ◌*◌, ◌≤◌, ◌<◌, ◌^◌, List, ℕ, length};
ghost use Rattle.std.proofs.lemmas.List.Edits.{sets};
ghost use Rattle.history.specs.Table.{largest_count};
ghost use Rattle.text.specs.Decimal.{line, lines_of};
ghost use Rattle.printing.specs.Texts.{Printed, refused_line};
ghost use Rattle.printing.specs.Files.{file_text, TableOf};

use history::{Answer, Code, Row};

// Writes a word and a line of numbers at the front of the buffer: a text of its own.
fn worded(word: &[u8], numbers: &[u64], out: &mut [u8]) -> Answer
    requires { length word.now + length numbers.now < 2 ^ 32 }
    ensures { Printed (word.now ++ line numbers.now) out.old result out.new }
{
    let length = word.len() + text::line_length(numbers);
    if out.len() < length {
        return Code::ShortList.at(0);
    }
    let next = text::put_bytes(word, out, 0);
    text::put_line(numbers, out, next);
    Answer::passed(length as u64)
}

// The line of a refused file.
pub fn refusal(answer: Answer, out: &mut [u8]) -> Answer
    ensures { Printed (refused_line answer) out.old result out.new }
{
    let numbers = [answer.code, answer.row];
    worded(b"refused,", &numbers, out)
}

// How many bytes k lines of w numbers take.
fn lines_length(numbers: &[u64], w: usize, k: usize) -> usize
    requires w_in_bounds { k * w ≤ length numbers.now }
    requires w_bound { w ≤ 5 }
    requires k_le_largest_count { k ≤ largest_count }
    ensures { result ≡ length (lines_of w k numbers.now) }
{
    let mut total = 0;
    for i in 0..k {
        let from = i * w;
        total += text::line_length(&numbers[from..from + w]);
    }
    total
}

// Writes k lines of w numbers from `at` on; the place behind them.
fn put_lines(numbers: &[u64], w: usize, k: usize, out: &mut [u8], at: usize) -> usize
    requires w_in_bounds { k * w ≤ length numbers.now }
    requires numbers_in_bounds { at + length (lines_of w k numbers.now) ≤ length out.old }
    ensures value { result ≡ at + length (lines_of w k numbers.now) }
    ensures out_after { out.new ≡ sets out.old at (lines_of w k numbers.now) }
{
    let mut place = at;
    for i in 0..k {
        let from = i * w;
        place = text::put_line(&numbers[from..from + w], out, place);
    }
    place
}

// A header line, and k lines of w numbers.
pub fn headed(header: &[u8], numbers: &[u64], w: usize, k: usize, out: &mut [u8]) -> Answer
    requires header_len_bound { length header.now ≤ 64 }
    requires w_in_bounds { k * w ≤ length numbers.now }
    requires w_bound { w ≤ 5 }
    requires k_le_largest_count { k ≤ largest_count }
    ensures { Printed (header.now ++ lines_of w k numbers.now) out.old result out.new }
{
    let length = header.len() + lines_length(numbers, w, k);
    if out.len() < length {
        return Code::ShortList.at(0);
    }
    let next = text::put_bytes(header, out, 0);
    put_lines(numbers, w, k, out, next);
    Answer::passed(length as u64)
}

// Puts a whole text at the front of the buffer; a buffer too short for it is left as it was.
pub fn hand_out(text: &[u8], out: &mut [u8]) -> Answer
    ensures { Printed text.now out.old result out.new }
{
    if out.len() < text.len() {
        return Code::ShortList.at(0);
    }
    text::put_bytes(text, out, 0);
    Answer::passed(text.len() as u64)
}

// The text of a file: what is written of its table, or the line of its refusal. The writing is called with the table of the file, at most once.
pub fn of_file<F: FnOnce(&[u64], &mut [u8]) -> Answer>(
    bytes: &[u8],
    out: &mut [u8],
    write: F,
) -> Answer
    requires { (t : _) (o : _) → TableOf bytes.now t.now → F.pre write t o }
    ensures { (text : List ℕ → List ℕ)
        → ((t : _) (o : _) (r : _) (p : _) → TableOf bytes.now t.now → F.post write t o r p → Printed (text t.now) o.now r p.now)
        → Printed (file_text bytes.now text) out.old result out.new }
{
    let mut table = [0u64; Row::LARGEST_TABLE];
    let loaded = files::read(bytes, &mut table);
    if loaded.code != 0 {
        return refusal(loaded, out);
    }
    let n = loaded.rows as usize * Row::COLUMNS;
    write(&table[..n], out)
}
