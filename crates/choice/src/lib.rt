// The orders that figure 4 lists for a chunk, tried one by one: the first that is viable.
#![tactic(auto)]

ghost use Rattle.std.specs.Prelude.{◌≡◌, [], ◌∷◌, ◌++◌, ℕ, ◌+◌, ◌≤◌, ◌<◌, length, get_or, take};
ghost use Rattle.positions.specs.View.{view};
ghost use Rattle.placing.specs.States.{state_of, plus_one, left, laid, Holds, Shrinks};
ghost use Rattle.freeing.specs.Freed.{Shut, Within, clusters_of};
ghost use Rattle.choice.specs.Gives.{Gives};
ghost use Rattle.choice.specs.Viable.{follows, Turns, viable_by};
ghost use Rattle.choice.specs.Offered.{backward, swap_if, end_at, one_of, offer, offers, Shown, Offered, tried_by, chosen_by};

use placing::Front;
use positions::Columns;

// A chunk: the writes of a run of forward clusters, and those of the backward ones inside it, both by low end.
#[derive(Clone, Copy)]
pub struct Chunk<'a> {
    pub forwards: &'a [u64],
    pub inner: &'a [u64],
}

// Whether the write that is asked for, if any, is the one at i.
fn follows(turn: &[u64], i: usize, asked: Option<usize>) -> bool
    ensures { result ≡ follows turn.now i (plus_one asked) }
{
    match asked {
        Some(w) => i < turn.len() && w as u64 == turn[i],
        None => true,
    }
}

// Places the writes of the sequence, which stands last first; where their order begins, if they are viable.
fn viable(
    columns: &Columns,
    turn: &[u64],
    placed: &mut [u8],
    order: &mut [u64],
    top: usize,
) -> Option<usize>
    requires holds { Holds (view columns.now) (state_of placed.old order.old (length order.old) top) }
    requires turns { Turns columns.now.chains.writer.now turn.now (state_of placed.old order.old (length order.old) top) }
    ensures end { Gives (view columns.now) (viable_by turn.now (left (state_of placed.old order.old (length order.old) top)))
        (laid (state_of placed.old order.old (length order.old) top)) order.new result }
    ensures marks { Shrinks (length columns.now.start.now) placed.old placed.new }
{
    let at = order.len();
    let mut front = Front { at, top };
    for (i, &w) in turn.iter().enumerate() {
        let Ok(next) = placing::step(columns, placed, order, front, w as usize) else {
            return None;
        };
        if !follows(turn, i + 1, next.asked) {
            return None;
        }
        front = next.front;
    }
    Some(front.at)
}

// The list from its last to its first, where the first two may be swapped.
fn turn(list: &[u64], swap: bool, out: &mut [u64])
    requires { length list.now ≡ length out.old }
    ensures { out.new ≡ backward (swap_if swap list.now) }
{
    lists::copy(list, out);
    if swap && out.len() > 1 {
        out.swap(0, 1);
    }
    out.reverse();
}

// The first of a list, or the second, if there is one.
fn end_at(list: &[u64], first: bool) -> Option<u64>
    ensures { result ≡ end_at list.now first }
{
    if first {
        list.first().copied()
    } else {
        list.get(1).copied()
    }
}

// A write, if there is one, behind the first m of `out`; where it ends.
fn put(w: Option<u64>, out: &mut [u64], m: usize) -> usize
    requires { m + length (one_of w) ≤ length out.old }
    ensures { (result ≡ m + length (one_of w)) × (take result out.new ≡ take m out.old ++ one_of w) }
{
    match w {
        Some(w) => {
            out[m] = w;
            m + 1
        }
        None => m,
    }
}

// An order of figure 4, last first, at the front of `out`; its length.
fn lay_out(chunk: &Chunk, flip: bool, swap: bool, out: &mut [u64]) -> usize
    requires { length chunk.now.forwards.now + length chunk.now.inner.now ≤ length out.old }
    ensures { (result ≤ length out.new) × (take result out.new ≡ backward (offer chunk.now.forwards.now chunk.now.inner.now flip swap)) }
{
    let behind = end_at(chunk.inner, flip);
    let front = end_at(chunk.inner, !flip);
    let k = put(behind, out, 0);
    let m = k + chunk.forwards.len();
    turn(chunk.forwards, swap, &mut out[k..m]);
    put(front, out, m)
}

// Tries one order of figure 4, with the chunk set free; where the order begins, if it is viable.
fn attempt(
    columns: &Columns,
    chunk: &Chunk,
    flip: bool,
    swap: bool,
    turn: &mut [u64],
    placed: &mut [u8],
    order: &mut [u64],
    top: usize,
) -> Option<usize>
    requires { Offered (view columns.now) chunk.now.forwards.now chunk.now.inner.now turn.old placed.old order.old top }
    ensures end { Gives (view columns.now) (tried_by (offer chunk.now.forwards.now chunk.now.inner.now flip swap ∷ [])
        (clusters_of columns.now.chains.writer.now (chunk.now.forwards.now ++ chunk.now.inner.now))) [] order.new result }
    ensures marks { Within columns.now.chains.writer.now (chunk.now.forwards.now ++ chunk.now.inner.now) placed.new }
{
    freeing::paint(
        &columns.chains,
        chunk.forwards,
        chunk.inner,
        freeing::FREE,
        placed,
    );
    let m = lay_out(chunk, flip, swap, turn);
    viable(columns, &turn[..m], placed, order, top)
}

// Tries the orders with the forward writes swapped, or not.
fn attempts(
    columns: &Columns,
    chunk: &Chunk,
    swap: bool,
    turn: &mut [u64],
    placed: &mut [u8],
    order: &mut [u64],
    top: usize,
) -> Option<usize>
    requires { Offered (view columns.now) chunk.now.forwards.now chunk.now.inner.now turn.old placed.old order.old top }
    ensures end { Gives (view columns.now) (tried_by (offers chunk.now.forwards.now chunk.now.inner.now swap)
        (clusters_of columns.now.chains.writer.now (chunk.now.forwards.now ++ chunk.now.inner.now))) [] order.new result }
    ensures marks { Within columns.now.chains.writer.now (chunk.now.forwards.now ++ chunk.now.inner.now) placed.new }
{
    let found = attempt(columns, chunk, false, swap, turn, placed, order, top);
    if found.is_some() || chunk.inner.is_empty() {
        return found;
    }
    attempt(columns, chunk, true, swap, turn, placed, order, top)
}

// Tries the orders that figure 4 lists, none for more than two backward writes.
fn first(
    columns: &Columns,
    chunk: &Chunk,
    turn: &mut [u64],
    placed: &mut [u8],
    order: &mut [u64],
    top: usize,
) -> Option<usize>
    requires { Offered (view columns.now) chunk.now.forwards.now chunk.now.inner.now turn.old placed.old order.old top }
    ensures end { Gives (view columns.now) (chosen_by chunk.now.forwards.now chunk.now.inner.now
        (clusters_of columns.now.chains.writer.now (chunk.now.forwards.now ++ chunk.now.inner.now))) [] order.new result }
    ensures marks { Within columns.now.chains.writer.now (chunk.now.forwards.now ++ chunk.now.inner.now) placed.new }
{
    if chunk.inner.len() > 2 {
        return None;
    }
    let found = attempts(columns, chunk, false, turn, placed, order, top);
    if found.is_some() {
        return found;
    }
    attempts(columns, chunk, true, turn, placed, order, top)
}

// Where the first viable order of those that figure 4 lists for a chunk begins, at the end of the order, if one is
// viable; the chunk is shut before and after.
pub fn choose(
    columns: &Columns,
    chunk: &Chunk,
    turn: &mut [u64],
    placed: &mut [u8],
    order: &mut [u64],
) -> Option<usize>
    requires chunk { Shown (view columns.now) chunk.now.forwards.now chunk.now.inner.now turn.old placed.old order.old }
    requires shut { Shut (length columns.now.chains.writer.now) placed.old }
    ensures end { Gives (view columns.now) (chosen_by chunk.now.forwards.now chunk.now.inner.now
        (clusters_of columns.now.chains.writer.now (chunk.now.forwards.now ++ chunk.now.inner.now))) [] order.new result }
    ensures marks { Shut (length columns.now.chains.writer.now) placed.new }
{
    let top = freeing::above(columns.chains.last, chunk.forwards, chunk.inner);
    let found = first(columns, chunk, turn, placed, order, top);
    freeing::paint(
        &columns.chains,
        chunk.forwards,
        chunk.inner,
        freeing::SHUT,
        placed,
    );
    found
}
