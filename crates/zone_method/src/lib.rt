// Question 1: the zone method, which decides from the zone list in one pass.
#![tactic(auto)]

ghost use Rattle.std.specs.Prelude.{◌≡◌, true, ℕ, ◌+◌, ◌*◌, ◌≤◌, ◌<◌, length};
ghost use Rattle.history.specs.Table.{largest_count};
ghost use Rattle.methods.specs.Zones.{is_one, zones};
ghost use Rattle.methods.specs.Mark.{untried};
ghost use Rattle.positions.specs.Places.{Once};
ghost use Rattle.positions.specs.Columns.{Says};
ghost use Rattle.positions.specs.View.{view};
ghost use Rattle.placing.specs.States.{is_free, state_of, Ready};
ghost use Rattle.placing.specs.Searched.{Searched};
ghost use Rattle.columns.specs.Rows.{Listed};
ghost use Rattle.columns.specs.Made.{Made};
ghost use Rattle.zones.specs.Zones.{Zoned, by_low};
ghost use Rattle.zone_method.specs.Deciding.{finish_at, reached_at, decides};
ghost use Rattle.zone_method.specs.Lay.{Whole, Lays};

use history::Row;
use placing::Search;
use positions::{Chains, Columns};
use zone_list::Direction;

// How many numbers a zone list takes at most: of few rows, of up to 256, and of as many as a table has.
const FEW_NUMBERS: usize = 128;

const SOME_NUMBERS: usize = 1024;

const LARGEST_NUMBERS: usize = 4096;

// The smallest finish of the i-th write of a zone list: the low end of a forward zone, the high end of a backward one.
fn finish_at(list: &[u64], i: usize) -> u64
    requires { i * 4 + 4 ≤ length list.now }
    ensures { result ≡ finish_at list.now i }
{
    let at = i * zone_list::NUMBERS;
    if list[at + 1] == Direction::Forward as u64 {
        list[at + 2]
    } else {
        list[at + 3]
    }
}

// The largest start of the last forward zone up to the i-th, where `bound` is that of the zones before.
fn reached(list: &[u64], bound: u64, i: usize) -> u64
    requires { i * 4 + 4 ≤ length list.now }
    ensures { result ≡ reached_at list.now bound i }
{
    let at = i * zone_list::NUMBERS;
    if list[at + 1] == Direction::Forward as u64 {
        list[at + 3]
    } else {
        bound
    }
}

// Whether the register is 1-atomic, from the zone list of its n writes: none finishes below the largest start of the last forward zone before it.
fn decide(list: &[u64], n: usize) -> bool
    requires { n * 4 ≤ length list.now }
    ensures { result ≡ decides list.now n }
{
    let mut bound = 0;
    for i in 0..n {
        if finish_at(list, i) < bound {
            return false;
        }
        bound = reached(list, bound, i);
    }
    true
}

// The clusters of the listed writes, in their sequence, in front of what is laid; where the order begins then.
fn lay(chains: &Chains, list: &[u64], placed: &mut [u8], order: &mut [u64], at: usize) -> usize
    requires ready { Ready (length chains.now.writer.now) (state_of placed.old order.old at (length chains.now.writer.now)) }
    requires whole { Whole chains.now.writer.now list.now (length list.now)
        (state_of placed.old order.old at (length chains.now.writer.now)) }
    requires once { Once list.now }
    ensures { let s = state_of placed.old order.old at (length chains.now.writer.now) in Lays chains.now.writer.now list.now s
        (state_of placed.new order.new result s.top) }
{
    let mut at = at;
    for &w in list.iter().rev() {
        at = placing::own(chains, placed, order, at, w as usize);
    }
    at
}

// What the zone method answers, from the decision: stale, or the clusters of the writes by low end, laid where the marks are clean.
fn settle(
    one: bool,
    columns: &Columns,
    late: &[u64],
    list: &[u64],
    placed: &mut [u8],
    order: &mut [u64],
) -> Search
    requires few { length columns.now.start.now ≤ largest_count }
    requires says { Says (view columns.now) (λ H. one ≡ is_one H) }
    requires zoned { Zoned (view columns.now) late.now }
    requires list_value { list.now ≡ by_low columns.now.finish.now late.now columns.now.chains.writer.now }
    requires placed_room { length columns.now.start.now ≤ length placed.old }
    requires free { (i : ℕ) → i < length placed.old → is_free placed.old i ≡ true }
    requires order_room { length columns.now.start.now ≤ length order.old }
    ensures { (allowance : ℕ) → Searched (view columns.now) allowance (λ H. untried (zones H)) order.new result }
{
    if one {
        let to = order.len();
        let from = lay(&columns.chains, list, placed, order, to);
        Search::Fresh(from, to, 0)
    } else {
        Search::Stale(0)
    }
}

// The zone method for up to N rows, whose zone lists have up to M numbers.
fn search_sized<const N: usize, const M: usize>(
    table: &[u64],
    rows: &[u64],
    columns: &Columns,
    order: &mut [u64],
) -> Search
    requires size { N ≤ largest_count }
    requires numbers { M ≡ N * 4 }
    requires made { Made table.now rows.now (view columns.now) }
    requires listed { (register : ℕ) × Listed table.now register rows.now }
    requires few { length rows.now ≤ N }
    requires order_room { length rows.now ≤ length order.old }
    ensures { (allowance : ℕ) → Searched (view columns.now) allowance (λ H. untried (zones H)) order.new result }
{
    let n = rows.len();
    let late = &mut [0u64; N][..n];
    let places = &mut [0u64; N][..n];
    let mut list = [0u64; M];
    let mut placed = [0u8; N];
    // The order is written later, and has the room for the low ends until then.
    let m = zone_list::fill(table, rows, columns, order, late, places, &mut list);
    let one = decide(&list, m);
    settle(one, columns, late, &places[..m], &mut placed, order)
}

// The zone method: whether the history is 1-atomic, with an order.
pub fn search(table: &[u64], rows: &[u64], columns: &Columns, order: &mut [u64]) -> Search
    requires made { Made table.now rows.now (view columns.now) }
    requires listed { (register : ℕ) × Listed table.now register rows.now }
    requires few { length rows.now ≤ largest_count }
    requires order_room { length rows.now ≤ length order.old }
    ensures { (allowance : ℕ) → Searched (view columns.now) allowance (λ H. untried (zones H)) order.new result }
{
    if rows.len() <= Row::FEW {
        search_sized::<{ Row::FEW }, FEW_NUMBERS>(table, rows, columns, order)
    } else if rows.len() <= Row::SOME {
        search_sized::<{ Row::SOME }, SOME_NUMBERS>(table, rows, columns, order)
    } else {
        search_sized::<{ Row::LARGEST_COUNT }, LARGEST_NUMBERS>(table, rows, columns, order)
    }
}
