// The order check: a list of row numbers, held to the register's operations position by position.
#![tactic(auto)]

ghost use Rattle.std.specs.Prelude.{◌≡◌, ◌↔◌, not, ◌&&◌, ◌||◌, List, [], ◌∷◌, map, ℕ, ◌%◌, ◌<◌, ◌≤◌, ltb, length, get_or};
ghost use Rattle.lists.specs.Lists.{one_if};
ghost use Rattle.history.specs.Table.{largest_count, row_count, op_at, history, Alike};
ghost use Rattle.history.specs.Screen.{Screened};
ghost use Rattle.history.specs.Answer.{Ran};
ghost use Rattle.history.specs.Table.{is_opening, is_write};
ghost use Rattle.writers.specs.Writers.{writer_of};
ghost use Rattle.atomicity.specs.Check.{is_row, misfits, late, too_far, lowest_at, order_tests, check, Accepted};
ghost use Rattle.orders.specs.Faults.{condition, code_of, position_test, missing_test, Ordered, Before, Counted};

use history::{Answer, Code, Op, Row};

// What may be wrong with a position.
#[derive(Clone, Copy)]
enum Fault {
    Misfit,
    Late,
    TooFar,
}

// The operation of a row; all its numbers but the row's are 0 where the table has no such row.
fn operation(table: &[u64], row: u64) -> Op
    requires { length table.now % 5 ≡ 0 }
    ensures { result ≡ op_at table.now row }
{
    let n = table.len() / Row::COLUMNS;
    let at = row as usize;
    if at < n {
        return Op::at(table, at);
    }
    Op {
        row: at,
        kind: 0,
        value: 0,
        start: 0,
        finish: 0,
    }
}

// Whether the table has the row and the row bears the register.
fn is_row(table: &[u64], register: u64, row: u64) -> bool
    ensures { result ≡ is_row table.now register row }
{
    let n = table.len() / Row::COLUMNS;
    let at = row as usize;
    at < n && history::bears(table, register, at)
}

// Whether a row is none of the register's or is marked as seen.
fn unfit(table: &[u64], register: u64, row: u64, seen: &[u64]) -> bool
    requires { row_count table.now ≤ length seen.now }
    ensures { result ≡ (not (is_row table.now register row) || ltb 0 (get_or seen.now row 0)) }
{
    !is_row(table, register, row) || 0 < seen[row as usize]
}

// The lowest position that holds no row of the register or repeats one, with a mark for each row of the table.
fn lowest_misfit_with(table: &[u64], register: u64, list: &[u64], seen: &mut [u64]) -> Option<usize>
    requires table_in_bounds { row_count table.now ≤ length seen.old }
    requires by_index { (i : ℕ) → i < length seen.old → get_or seen.old i 0 ≡ 0 }
    ensures { result ≡ lowest_at (misfits table.now register list.now) list.now }
{
    for (p, row) in list.iter().enumerate() {
        if unfit(table, register, *row, seen) {
            return Some(p);
        }
        seen[*row as usize] = 1;
    }
    None
}

// The same, with the marks inside.
fn lowest_misfit(table: &[u64], register: u64, list: &[u64]) -> Option<usize>
    requires { row_count table.now ≤ largest_count }
    ensures { result ≡ lowest_at (misfits table.now register list.now) list.now }
{
    let mut seen = [0u64; Row::LARGEST_COUNT];
    lowest_misfit_with(table, register, list, &mut seen)
}

// Whether an operation precedes one of others: it finishes before their largest start, or it is the opening and one of them is not.
fn precedes_any(o: Op, latest: u64, others: bool) -> bool
    ensures { result ≡ (ltb o.finish latest || (is_opening o && others)) }
{
    o.finish < latest || o.is_opening() && others
}

// Whether one is no opening, with an operation more.
fn or_other(others: bool, o: Op) -> bool
    ensures { result ≡ (others || not (is_opening o)) }
{
    others || !o.is_opening()
}

// The lowest position whose row precedes one listed earlier, by the largest start so far and whether a row was listed that is no opening.
fn lowest_late(table: &[u64], list: &[u64]) -> Option<usize>
    requires { length table.now % 5 ≡ 0 }
    ensures { result ≡ lowest_at (late table.now list.now) list.now }
{
    let mut latest: u64 = 0;
    let mut others = false;
    for (p, row) in list.iter().enumerate() {
        let o = operation(table, *row);
        if precedes_any(o, latest, others) {
            return Some(p);
        }
        latest = latest.max(o.start);
        others = or_other(others, o);
    }
    None
}

// 1 where the row is a write, else 0.
fn one_write(table: &[u64], row: u64) -> u64
    requires { length table.now % 5 ≡ 0 }
    ensures { result ≡ one_if (is_write (op_at table.now row)) }
{
    u64::from(operation(table, row).is_write())
}

// The number of writes before each position.
fn count_writes(table: &[u64], list: &[u64], counts: &mut [u64])
    requires table_len { length table.now % 5 ≡ 0 }
    requires counts_len { length counts.old ≡ length list.now }
    ensures { Counted table.now list.now counts.new }
{
    let mut writes: u64 = 0;
    for (p, row) in list.iter().enumerate() {
        counts[p] = writes;
        writes += one_write(table, *row);
    }
}

// Whether position p holds a read that does not follow its write within k, by the position of each row's write and the writes before each.
fn too_far(table: &[u64], k: u64, list: &[u64], writer: &[u64], counts: &[u64], p: usize) -> bool
    requires ordered { Ordered table.now list.now }
    requires writer_value { writer.now ≡ map (writer_of table.now list.now) list.now }
    requires counted { Counted table.now list.now counts.now }
    requires p_in_bounds { p < length list.now }
    ensures { result ≡ too_far k table.now list.now p }
{
    if !operation(table, list[p]).is_read() {
        return false;
    }
    let q = writer[p] as usize;
    p <= q || k < counts[p] - counts[q]
}

// The lowest position with such a read.
fn first_too_far(
    table: &[u64],
    k: u64,
    list: &[u64],
    writer: &[u64],
    counts: &[u64],
) -> Option<usize>
    requires ordered { Ordered table.now list.now }
    requires writer_value { writer.now ≡ map (writer_of table.now list.now) list.now }
    requires counted { Counted table.now list.now counts.now }
    ensures { result ≡ lowest_at (too_far k table.now list.now) list.now }
{
    for p in 0..list.len() {
        if too_far(table, k, list, writer, counts, p) {
            return Some(p);
        }
    }
    None
}

// The same; the two slices have a place for each position.
fn lowest_too_far_with(
    table: &[u64],
    k: u64,
    list: &[u64],
    writer: &mut [u64],
    counts: &mut [u64],
) -> Option<usize>
    requires ordered { Ordered table.now list.now }
    requires writer_len { length writer.old ≡ length list.now }
    requires counts_len { length counts.old ≡ length list.now }
    ensures { result ≡ lowest_at (too_far k table.now list.now) list.now }
{
    writers::writers(table, list, writer);
    count_writes(table, list, counts);
    first_too_far(table, k, list, writer, counts)
}

// The same, with the slices inside.
fn lowest_too_far(table: &[u64], k: u64, list: &[u64]) -> Option<usize>
    requires { Ordered table.now list.now }
    ensures { result ≡ lowest_at (too_far k table.now list.now) list.now }
{
    let n = list.len();
    let mut writer = [0u64; Row::LARGEST_COUNT];
    let mut counts = [0u64; Row::LARGEST_COUNT];
    lowest_too_far_with(table, k, list, &mut writer[..n], &mut counts[..n])
}

// The lowest position with the fault.
fn lowest_at(table: &[u64], register: u64, k: u64, list: &[u64], fault: Fault) -> Option<usize>
    requires screened { Screened (length table.now) (history table.now register) }
    requires before { Before fault table.now list.now }
    ensures { result ≡ lowest_at (condition fault table.now register k list.now) list.now }
{
    match fault {
        Fault::Misfit => lowest_misfit(table, register, list),
        Fault::Late => lowest_late(table, list),
        Fault::TooFar => lowest_too_far(table, k, list),
    }
}

fn code(fault: Fault) -> Code
    ensures { result ≡ code_of fault }
{
    match fault {
        Fault::Misfit => Code::MisfitList,
        Fault::Late => Code::OutOfTime,
        Fault::TooFar => Code::TooFarBehind,
    }
}

// Refuses with the lowest position that has the fault.
fn run(table: &[u64], register: u64, k: u64, list: &[u64], fault: Fault) -> Result<(), Answer>
    requires screened { Screened (length table.now) (history table.now register) }
    requires before { Before fault table.now list.now }
    ensures { Ran (position_test table.now register k list.now fault ∷ []) result }
{
    match lowest_at(table, register, k, list, fault) {
        Some(p) => Err(code(fault).at(p as u64)),
        None => Ok(()),
    }
}

// Refuses with the list's length where rows of the register are missing.
fn run_missing(table: &[u64], register: u64, list: &[u64]) -> Result<(), Answer>
    ensures { Ran (missing_test table.now register list.now ∷ []) result }
{
    let listed = list.len();
    if listed < screening::count(table, register) {
        return Err(Code::MisfitList.at(listed as u64));
    }
    Ok(())
}

// The tests of the list, in their sequence.
fn run_all(table: &[u64], register: u64, k: u64, list: &[u64]) -> Result<(), Answer>
    requires { Screened (length table.now) (history table.now register) }
    ensures { Ran (order_tests table.now register k list.now) result }
{
    run(table, register, k, list, Fault::Misfit)?;
    run_missing(table, register, list)?;
    run(table, register, k, list, Fault::Late)?;
    run(table, register, k, list, Fault::TooFar)
}

// The order check: code 0 exactly where the register passes the screening, k is not 0, and the list is a valid k-atomic total order.
pub fn check(table: &[u64], register: u64, k: u64, list: &[u64]) -> Answer
    ensures answer { result ≡ check table.now register k list.now }
    ensures exact { (result.code ≡ 0) ↔ Accepted k table.now register list.now }
    ensures alike { (u : List ℕ) → Alike table.now u register → result ≡ check u register k list.now }
{
    let examined = screening::examine(table, register, k == 0);
    if examined.code != 0 {
        return examined;
    }
    match run_all(table, register, k, list) {
        Ok(()) => examined,
        Err(refusal) => refusal,
    }
}
