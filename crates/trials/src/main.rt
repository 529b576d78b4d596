// Small random histories: the mark of each question against a trial of all orders, each judged by the order check. A history that the screening
// refuses is passed over. A line for each question counts the histories compared, those with equal stamps, those with an opening, the marks and the
// differences; held to the file stdout.
#![tactic(auto)]

ghost use Rattle.std.specs.Prelude.{◌+◌, ◌*◌, ◌%◌, ◌<◌, ◌≤◌, length};

use history::{Code, Kind, Op, Row};
use marker::Question;
use std::io::Print;

const REGISTER: u64 = 7;

// The histories made, of which 3,028 pass the screening.
const HISTORIES: u64 = 3230;

// Twice six less one: always enough for LBT.
const TRIALS: u64 = 11;

// A history has up to six rows, so that there are at most 720 orders.
const ROWS: usize = 6;

// A number of a run of them, from the one before.
fn next(x: u64) -> u64 {
    (x % 2147483648 * 1103515245 + 12345) % 2147483648
}

// A number below a bound, from one of the run, whose lower bits repeat soon.
fn pick(x: u64, bound: u64) -> u64
    requires { 0 < bound }
    ensures { result < bound }
{
    x / 65536 % bound
}

// Up to six rows, more often many than few.
fn size(x: u64) -> usize
    ensures { result ≤ 6 }
{
    let bound = 1 + pick(x, 7);
    ROWS - pick(next(x), bound) as usize
}

// The first operation is an opening in half of the histories and else writes, and the later one is the more often it reads.
fn kind(i: usize, x: u64) -> u64 {
    let n = pick(x, 6);
    if n < i as u64 {
        Kind::Read as u64
    } else if i == 0 && n < 3 {
        Kind::Opening as u64
    } else {
        Kind::Write as u64
    }
}

// A write has a value of its own, a read that of an earlier operation.
fn value(table: &[u64], i: usize, kind: u64, x: u64) -> u64
    requires { i * 5 + 5 ≤ length table.now }
{
    if kind != Kind::Read as u64 {
        i as u64
    } else if i == 0 {
        0
    } else {
        let j = pick(x, i as u64) as usize;
        table[j * Row::COLUMNS + Row::VALUE]
    }
}

// A stamp of an operation, which is 0 for an opening.
fn stamp(kind: u64, at: u64) -> u64 {
    if kind == Kind::Opening as u64 { 0 } else { at }
}

// Puts operation i into its row: it takes effect at a time of its own, and begins, at 0 or later, and ends less than `reach` away
// from it. Stamps may be equal.
fn operation(table: &mut [u64], i: usize, reach: u64, seed: u64) -> u64
    requires { (i * 5 + 5 ≤ length table.old) × (i < 6) × (0 < reach) × (reach ≤ 100) }
{
    let kind = kind(i, seed);
    let a = next(seed);
    let value = value(table, i, kind, a);
    let b = next(a);
    let c = next(b);
    let number = i as u64;
    let at = 2 * number;
    let start = stamp(kind, at.saturating_sub(pick(b, reach)));
    let finish = stamp(kind, at + pick(c, reach));
    let row = [REGISTER, kind, value, start, finish];
    let base = i * Row::COLUMNS;
    table[base..base + Row::COLUMNS].copy_from_slice(&row);
    next(c)
}

// Fills the table with operations in the sequence in which they take effect.
fn fill(table: &mut [u64], reach: u64, seed: u64) -> u64
    requires { (length table.old ≤ 30) × (0 < reach) × (reach ≤ 100) }
{
    let mut x = seed;
    for i in 0..table.len() / Row::COLUMNS {
        x = operation(table, i, reach, x);
    }
    x
}

// Exchanges two rows.
fn exchange(table: &mut [u64], a: usize, b: usize)
    requires { (a * 5 + 5 ≤ length table.old) × (b * 5 + 5 ≤ length table.old) }
{
    for column in 0..Row::COLUMNS {
        table.swap(a * Row::COLUMNS + column, b * Row::COLUMNS + column);
    }
}

// Exchanges each row with a random one before it or itself, so that the rows come in any sequence.
fn mix(table: &mut [u64], seed: u64) -> u64
    requires { length table.old ≤ 30 }
{
    let mut x = seed;
    for i in 0..table.len() / Row::COLUMNS {
        x = next(x);
        let j = pick(x, i as u64 + 1) as usize;
        exchange(table, i, j);
    }
    x
}

// One in eight times: a small number in a random place, but not for a register, so that the register may be refused.
fn spoil(table: &mut [u64], seed: u64) -> u64
    requires { length table.old ≤ 30 }
{
    let n = table.len() / Row::COLUMNS;
    let a = next(seed);
    if 0 < pick(a, 8) || n == 0 {
        return a;
    }
    let b = next(a);
    let c = next(b);
    let row = pick(b, n as u64) as usize;
    let column = Row::KIND + pick(c, 4) as usize;
    let d = next(c);
    table[row * Row::COLUMNS + column] = pick(d, 4);
    next(d)
}

// A random history in the whole table.
fn history(table: &mut [u64], seed: u64) -> u64
    requires { length table.old ≤ 30 }
{
    let a = next(seed);
    let reach = 1 + pick(a, 5);
    let b = fill(table, reach, a);
    let c = mix(table, b);
    spoil(table, c)
}

// The list of the numbers below its length in the order of the number p; the numbers below the factorial of the length give all orders.
fn permute(p: u64, list: &mut [u64]) {
    let mut rest = p;
    for i in 0..list.len() {
        let choices = i as u64 + 1;
        let j = (rest % choices) as usize;
        rest /= choices;
        list[i] = list[j];
        list[j] = i as u64;
    }
}

// The number of orders of up to six rows.
fn orders_of(n: usize) -> u64 {
    match n {
        0 | 1 => 1,
        2 => 2,
        3 => 6,
        4 => 24,
        5 => 120,
        _ => 720,
    }
}

// Whether the check accepts some order of the register's rows. The list has a place for each row.
fn trial(table: &[u64], k: u64, list: &mut [u64]) -> bool {
    (0..orders_of(list.len())).any(|p| {
        permute(p, list);
        orders::check(table, REGISTER, k, list).code == 0
    })
}

// Whether the mark of the question is fresh, with an order that is accepted, where some order is, and else stale. The list has a place for each row.
fn agrees(table: &[u64], question: u64, k: u64, fresh: bool, list: &mut [u64]) -> bool {
    let answer = marker::mark(table, REGISTER, question, TRIALS, list);
    if fresh {
        answer.code == 0 && orders::check(table, REGISTER, k, list).code == 0
    } else {
        answer.code == Code::Stale as u64
    }
}

// Whether the operation has the stamp; an opening's are no times of its own.
fn has_stamp(o: Op, stamp: u64) -> bool {
    !o.is_opening() && (o.start == stamp || o.finish == stamp)
}

// Whether one of the first rows has the stamp.
fn has(table: &[u64], rows: usize, stamp: u64) -> bool
    requires { rows * 5 ≤ length table.now }
{
    (0..rows).any(|i| has_stamp(Op::at(table, i), stamp))
}

// Whether a stamp of row i is equal to its other one or to one of a row before it.
fn meets(table: &[u64], i: usize) -> bool
    requires { i * 5 + 5 ≤ length table.now }
{
    let o = Op::at(table, i);
    !o.is_opening() && (o.start == o.finish || has(table, i, o.start) || has(table, i, o.finish))
}

// Whether two stamps of the table are equal.
fn tied(table: &[u64]) -> bool {
    (0..table.len() / Row::COLUMNS).any(|i| meets(table, i))
}

// Whether a row of the table is an opening.
fn opened(table: &[u64]) -> bool {
    (0..table.len() / Row::COLUMNS).any(|i| Op::at(table, i).is_opening())
}

// One more, where it is so.
fn more(count: u64, so: bool) -> u64 {
    count.saturating_add(u64::from(so))
}

#[derive(Clone, Copy, Default)]
struct Tally {
    histories: u64,
    tied: u64,
    opened: u64,
    fresh: u64,
    stale: u64,
    differences: u64,
}

impl Tally {
    fn add(self, tied: bool, opened: bool, fresh: bool, same: bool) -> Tally {
        Tally {
            histories: more(self.histories, true),
            tied: more(self.tied, tied),
            opened: more(self.opened, opened),
            fresh: more(self.fresh, fresh),
            stale: more(self.stale, !fresh),
            differences: more(self.differences, !same),
        }
    }
}

// One history more: what all orders say of it, and whether the mark says the same.
fn tallied(tally: Tally, table: &[u64], question: u64, k: u64) -> Tally
    requires { length table.now ≤ 30 }
{
    let n = table.len() / Row::COLUMNS;
    let mut orders = [0u64; ROWS];
    let fresh = trial(table, k, &mut orders[..n]);
    let mut list = [0u64; ROWS];
    let same = agrees(table, question, k, fresh, &mut list[..n]);
    tally.add(tied(table), opened(table), fresh, same)
}

// One history more, made in the whole table; one that the screening refuses is passed over.
fn made(tally: Tally, table: &mut [u64], seed: u64, question: u64, k: u64) -> Tally
    requires { length table.old ≤ 30 }
{
    history(table, seed);
    if screening::screen(table, REGISTER).code == 0 {
        tallied(tally, table, question, k)
    } else {
        tally
    }
}

// One history more, the one with the number.
fn turn(tally: Tally, number: u64, question: u64, k: u64) -> Tally
    requires { number < 3230 }
{
    let seed = next(next(number * 40503 + 1));
    let mut table = [0u64; 30];
    let m = size(seed) * Row::COLUMNS;
    made(tally, &mut table[..m], next(seed), question, k)
}

// The histories of the run, marked by the question.
fn compared(question: u64, k: u64) -> Tally {
    let mut tally = Tally::default();
    for number in 0..HISTORIES {
        tally = turn(tally, number, question, k);
    }
    tally
}

fn field<R: Print>(rt: &R, name: &[u8], n: u64) {
    let _ = rt.write_all(name);
    let _ = rt.print(n);
}

fn show<R: Print>(rt: &R, question: u64, tally: Tally) {
    field(rt, b"question ", question);
    field(rt, b": histories ", tally.histories);
    field(rt, b", with equal stamps ", tally.tied);
    field(rt, b", with an opening ", tally.opened);
    field(rt, b", fresh ", tally.fresh);
    field(rt, b", stale ", tally.stale);
    field(rt, b", differences ", tally.differences);
    let _ = rt.write_all(b"\n");
}

fn main(rt: HostRuntime) {
    for (question, k) in [(Question::Zones, 1), (Question::Lbt, 2), (Question::Fzf, 2)] {
        let question = question as u64;
        show(&rt, question, compared(question, k));
    }
}
