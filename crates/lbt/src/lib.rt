// LBT over the columns of a prepared history: epochs of placing steps, rounds over the candidates, and the walk that counts the trials.
#![tactic(auto)]

ghost use Rattle.std.specs.Prelude.{◌≡◌, true, ℕ, ◌+◌, ◌≤◌, ◌<◌, length, get_or};
ghost use Rattle.history.specs.Table.{largest_count};
ghost use Rattle.methods.specs.Mark.{walked};
ghost use Rattle.methods.specs.Lbt.{lbt};
ghost use Rattle.positions.specs.Places.{latest};
ghost use Rattle.positions.specs.Columns.{by_finish};
ghost use Rattle.positions.specs.View.{view};
ghost use Rattle.placing.specs.States.{is_free, state_of, plus_one, Holds, Whose};
ghost use Rattle.placing.specs.Added.{marks_with};
ghost use Rattle.placing.specs.Searched.{Searched};
ghost use Rattle.lbt.specs.Epochs.{Ran};
ghost use Rattle.lbt.specs.Rounds.{open_write, Lowest, Skipped, Turned};

use placing::{Front, Search};
use positions::Columns;

// What a round gives beside the lent marks and order: no epoch ended well, after so many trials; one did, with the front that it left, after so
// many trials; or the allowance was used up.
#[derive(Clone, Copy)]
enum Turn {
    Lost(u64),
    Won(Front, u64),
    Spent,
}

// Clears the marks of the listed operations.
fn clear(ops: &[u64], placed: &mut [u8])
    requires { (i : ℕ) → i < length ops.now → get_or ops.now i 0 < length placed.old }
    ensures { placed.new ≡ marks_with 0 placed.old ops.now }
{
    for &j in ops {
        placed[j as usize] = 0;
    }
}

// An epoch from w: steps until no write is asked for, and the front then; or one fails, and then the marks of what was placed are cleared.
fn epoch(
    columns: &Columns,
    placed: &mut [u8],
    order: &mut [u64],
    front: Front,
    w: usize,
) -> Option<Front>
    requires holds { Holds (view columns.now) (state_of placed.old order.old front.at front.top) }
    requires whose { Whose columns.now.chains.writer.now (state_of placed.old order.old front.at front.top) w }
    ensures { Ran (view columns.now) w (state_of placed.old order.old front.at front.top) placed.new order.new result }
{
    let mut reached = front;
    let mut v = w;
    // The next write is the one that a step asks for.
    'steps: loop {
        match placing::step(columns, placed, order, reached, v) {
            Err(failed) => {
                let to = front.at;
                clear(&order[failed.at..to], placed);
                return None;
            }
            Ok(next) => {
                reached = next.front;
                match next.asked {
                    None => return Some(reached),
                    Some(asked) => v = asked,
                }
            }
        }
    }
}

// The last write below `low` that is not placed.
fn newest(columns: &Columns, placed: &[u8], low: usize) -> Option<usize>
    requires low_in_bounds { low ≤ length columns.now.chains.writer.now }
    requires room { length columns.now.chains.writer.now ≤ length placed.now }
    ensures { plus_one result ≡ latest (open_write columns.now.chains.writer.now placed.now) low }
{
    for i in (0..low).rev() {
        if placed[i] == 0 && columns.chains.writer[i] == i as u64 {
            return Some(i);
        }
    }
    None
}

// The first of the writes in falling finish, from `from` on, that is not placed.
fn first(falling: &[u64], placed: &[u8], from: usize) -> usize
    requires inside { (i : ℕ) → i < length falling.now → get_or falling.now i 0 < length placed.now }
    requires skipped { Skipped falling.now placed.now from }
    ensures { Skipped falling.now placed.now result }
{
    for i in from..falling.len() {
        if placed[falling[i] as usize] == 0 {
            return i;
        }
    }
    falling.len()
}

// One more than the last operation below `top` that is not placed, 0 where there is none: a trial begins there.
fn highest(placed: &[u8], top: usize) -> usize
    requires { top ≤ length placed.now }
    ensures { result ≡ latest (is_free placed.now) top }
{
    for i in (0..top).rev() {
        if placed[i] == 0 {
            return i + 1;
        }
    }
    0
}

// A round: the epochs of the candidates, by falling finish, until one wins. A write that ends before the last open one starts is no candidate.
fn round(
    columns: &Columns,
    falling: &[u64],
    placed: &mut [u8],
    order: &mut [u64],
    front: Front,
    last: usize,
    from: usize,
    allowance: u64,
    trials: u64,
) -> Turn
    requires holds { Holds (view columns.now) (state_of placed.old order.old front.at front.top) }
    requires falling_value { falling.now ≡ by_finish (view columns.now) }
    requires lowest { Lowest (view columns.now) (state_of placed.old order.old front.at front.top) (last + 1) }
    requires last_in_bounds { last < length columns.now.start.now }
    requires skipped { Skipped falling.now placed.old from }
    requires trials_le_allowance { trials ≤ allowance }
    ensures { Turned (view columns.now) (state_of placed.old order.old front.at front.top) trials allowance placed.new order.new result }
{
    let newest = columns.start[last];
    let mut count = trials;
    'candidates: {
        for i in from..falling.len() {
            let w = falling[i] as usize;
            if placed[w] == 0 {
                if columns.finish[w] < newest {
                    break 'candidates Turn::Lost(count);
                }
                if count == allowance {
                    break 'candidates Turn::Spent;
                }
                count += 1;
                if let Some(next) = epoch(columns, placed, order, front, w) {
                    break 'candidates Turn::Won(next, count);
                }
            }
        }
        Turn::Lost(count)
    }
}

// The walk, where the marks are clean: rounds until nothing is left (fresh), one is lost (stale) or the allowance is used up (spent).
pub fn search(
    columns: &Columns,
    falling: &[u64],
    allowance: u64,
    placed: &mut [u8],
    order: &mut [u64],
) -> Search
    requires falling_value { falling.now ≡ by_finish (view columns.now) }
    requires few { length columns.now.start.now ≤ largest_count }
    requires placed_room { length columns.now.start.now ≤ length placed.old }
    requires free { (i : ℕ) → i < length placed.old → is_free placed.old i ≡ true }
    requires order_room { length columns.now.start.now ≤ length order.old }
    ensures { Searched (view columns.now) allowance (λ H. walked (lbt H)) order.new result }
{
    let to = order.len();
    let mut front = Front {
        at: to,
        top: columns.start.len(),
    };
    let mut low = front.top;
    let mut from = 0;
    let mut trials = 0;
    // A round says whether there is a next one.
    'rounds: loop {
        let Some(last) = newest(columns, placed, low) else {
            return Search::Fresh(front.at, to, trials);
        };
        low = last + 1;
        from = first(falling, placed, from);
        front.top = highest(placed, front.top);
        let turn = round(
            columns, falling, placed, order, front, last, from, allowance, trials,
        );
        match turn {
            Turn::Lost(t) => return Search::Stale(t),
            Turn::Spent => return Search::Spent,
            Turn::Won(next, t) => {
                front = next;
                trials = t;
            }
        }
    }
}
