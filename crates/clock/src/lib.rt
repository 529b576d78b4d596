// Stamps as clock time, days:hh:mm:ss.mmm: written into a lent text, and read out of one.
#![tactic(auto)]

ghost use Rattle.std.specs.Prelude.{◌≡◌, ◌+◌, ◌≤◌, length};
ghost use Rattle.std.proofs.lemmas.List.Edits.{sets};
ghost use Rattle.text.specs.Decimal.{digit};
ghost use Rattle.clock.specs.Clock.{time_of, leading_zero, days_in, field_in, with_field, clock_in, SaysExactly, Writes, WritesStamp};

use history::{Answer, Code, Row};

// The thousandths of a day, an hour, a minute and a second.
const DAY: u64 = 86400000;

const HOUR: u64 = 3600000;

const MINUTE: u64 = 60000;

const SECOND: u64 = 1000;

// The bytes behind the days.
const TIME: usize = 13;

// The bytes of the shortest clock text and of the longest.
const SHORTEST: usize = 14;

const LONGEST: usize = 24;

// The last decimal digit of a number.
fn digit(n: u64) -> u8
    ensures { result ≡ digit n }
{
    b'0' + (n % 10) as u8
}

// Writes what stands behind the days of a stamp from `at` on.
fn put_time(stamp: u64, text: &mut [u8], at: usize)
    requires { at + 13 ≤ length text.old }
    ensures { text.new ≡ sets text.old at (time_of stamp) }
{
    let hours = stamp / HOUR % 24;
    let minutes = stamp / MINUTE % 60;
    let seconds = stamp / SECOND % 60;
    let rest = stamp % SECOND;
    let time = [
        b':',
        digit(hours / 10),
        digit(hours),
        b':',
        digit(minutes / 10),
        digit(minutes),
        b':',
        digit(seconds / 10),
        digit(seconds),
        b'.',
        digit(rest / 100),
        digit(rest / 10),
        digit(rest),
    ];
    text::put_bytes(&time, text, at);
}

// Writes a stamp as clock text at the front of the text. A refused call leaves the text as it was.
pub fn write(stamp: u64, text: &mut [u8]) -> Answer
    ensures outcome { Writes stamp text.old result text.new }
    ensures back { WritesStamp stamp text.old result text.new }
{
    if Row::LARGEST_STAMP < stamp {
        return Code::BadSpan.at(0);
    }
    let days = stamp / DAY;
    let length = text::decimal_length(days) + TIME;
    if text.len() < length {
        return Code::ShortList.at(0);
    }
    let at = text::put_number(days, text, 0);
    put_time(stamp, text, at);
    Answer::passed(length as u64)
}

// Whether a text of several digits begins with a 0.
fn leading_zero(text: &[u8]) -> bool
    ensures { result ≡ leading_zero text.now }
{
    matches!(text, [b'0', _, ..])
}

// The number of days, which has no leading zero.
fn days_in(text: &[u8]) -> Option<u64>
    ensures { result ≡ days_in text.now }
{
    if leading_zero(text) {
        return None;
    }
    parsing::number_in(text)
}

// The number of a field that begins with a given byte.
fn field(begin: u8, text: &[u8]) -> Option<u64>
    ensures { result ≡ field_in begin text.now }
{
    match text {
        [first, rest @ ..] if *first == begin => parsing::number_of(rest),
        _ => None,
    }
}

// A count and a field behind it, in the field's unit.
fn with_field(limit: u64, count: Option<u64>, field: Option<u64>) -> Option<u64>
    ensures { result ≡ with_field limit count field }
{
    let v = count?;
    let x = field?;
    if limit <= x {
        return None;
    }
    let units = v.checked_mul(limit)?;
    let sum = units.checked_add(x)?;
    if Row::LARGEST_STAMP < sum {
        return None;
    }
    Some(sum)
}

// The stamp of a text with room for days and for what stands behind them.
fn parts(text: &[u8]) -> Option<u64>
    requires { 13 ≤ length text.now }
    ensures { result ≡ clock_in text.now }
{
    let n = text.len() - TIME;
    let days = days_in(&text[..n]);
    let hours = with_field(24, days, field(b':', &text[n..n + 3]));
    let minutes = with_field(60, hours, field(b':', &text[n + 3..n + 6]));
    let seconds = with_field(60, minutes, field(b':', &text[n + 6..n + 9]));
    with_field(1000, seconds, field(b'.', &text[n + 9..n + 13]))
}

// The stamp that a clock text says: no other text says one. A text that is shorter or longer than all of them
// is told by its length alone.
pub fn read(text: &[u8]) -> Option<u64>
    ensures said { result ≡ clock_in text.now }
    ensures exactly { SaysExactly text.now result }
{
    if text.len() < SHORTEST || LONGEST < text.len() {
        return None;
    }
    parts(text)
}
