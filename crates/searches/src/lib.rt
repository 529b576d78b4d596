// LBT over a prepared history in columns, with its candidates by falling finish; and the answer to what a search found, with the order's rows in the lent list.
#![tactic(auto)]

ghost use Rattle.std.specs.Prelude.{◌≡◌, true, ℕ, ◌≤◌, ◌<◌, length};
ghost use Rattle.history.specs.Table.{largest_count};
ghost use Rattle.methods.specs.Lbt.{lbt};
ghost use Rattle.methods.specs.Mark.{walked};
ghost use Rattle.positions.specs.View.{view};
ghost use Rattle.placing.specs.States.{is_free};
ghost use Rattle.placing.specs.Searched.{Searched};
ghost use Rattle.searches.specs.Replies.{outcome, Fits, Replied};

use history::{Answer, Code, Row};
use placing::Search;
use positions::Columns;

// LBT, where the slices have a place for each operation, and the marks are clean; `falling` is for the candidates by falling finish.
fn walk_with(
    columns: &Columns,
    allowance: u64,
    falling: &mut [u64],
    placed: &mut [u8],
    order: &mut [u64],
) -> Search
    requires few { length columns.now.start.now ≤ largest_count }
    requires falling_room { length columns.now.start.now ≤ length falling.old }
    requires placed_room { length columns.now.start.now ≤ length placed.old }
    requires free { (i : ℕ) → i < length placed.old → is_free placed.old i ≡ true }
    requires order_room { length columns.now.start.now ≤ length order.old }
    ensures { Searched (view columns.now) allowance (λ H. walked (lbt H)) order.new result }
{
    // The order is written later, and has the room for the keys until then.
    let m = columns::falls(columns.finish, columns.chains.writer, order, falling);
    lbt::search(columns, &falling[..m], allowance, placed, order)
}

// LBT for up to N operations.
fn walk_sized<const N: usize>(columns: &Columns, allowance: u64, order: &mut [u64]) -> Search
    requires size { N ≤ largest_count }
    requires few { length columns.now.start.now ≤ N }
    requires order_room { length columns.now.start.now ≤ length order.old }
    ensures { Searched (view columns.now) allowance (λ H. walked (lbt H)) order.new result }
{
    let mut falling = [0u64; N];
    let mut placed = [0u8; N];
    walk_with(columns, allowance, &mut falling, &mut placed, order)
}

// LBT: whether the history is 2-atomic, with an order, in so many trials.
pub fn walk(columns: &Columns, allowance: u64, order: &mut [u64]) -> Search
    requires few { length columns.now.start.now ≤ largest_count }
    requires order_room { length columns.now.start.now ≤ length order.old }
    ensures { Searched (view columns.now) allowance (λ H. walked (lbt H)) order.new result }
{
    if columns.start.len() <= Row::FEW {
        walk_sized::<{ Row::FEW }>(columns, allowance, order)
    } else {
        walk_sized::<{ Row::LARGEST_COUNT }>(columns, allowance, order)
    }
}

// The answer to what was found, and the order's rows at the front of the list where it is fresh.
pub fn answer(
    found: Search,
    order: &[u64],
    rows: &[u64],
    allowance: u64,
    list: &mut [u64],
) -> Answer
    requires { Fits order.now list.old found }
    ensures { Replied rows.now allowance order.now found list.old (outcome result list.new) }
{
    let count = rows.len() as u64;
    match found {
        Search::Stale(trials) => Answer {
            code: Code::Stale as u64,
            row: 0,
            rows: count,
            trials,
        },
        Search::Spent => Answer {
            code: Code::Spent as u64,
            row: 0,
            rows: 0,
            trials: allowance,
        },
        Search::Fresh(from, to, trials) => {
            let m = to - from;
            columns::rows_at(rows, &order[from..to], &mut list[..m]);
            Answer {
                code: Code::Fresh as u64,
                row: 0,
                rows: count,
                trials,
            }
        }
    }
}
