// The placing step over the columns of a prepared history: marks on positions, and an order that is filled from the back.
#![tactic(auto)]

ghost use Rattle.std.specs.Prelude.{◌≡◌, ℕ, ◌<◌, length};
ghost use Rattle.history.specs.Table.{largest_count};
ghost use Rattle.positions.specs.Columns.{Cols, Sound};
ghost use Rattle.positions.specs.View.{view};
ghost use Rattle.placing.specs.Rules.{clash, ask};
ghost use Rattle.placing.specs.States.{State, state_of, plus_one, tried_of, Ready, Holds, Whose};
ghost use Rattle.placing.specs.Scanned.{Scanned};
ghost use Rattle.placing.specs.Owned.{Owned};
ghost use Rattle.placing.specs.Stepped.{Stepped};

use positions::{Chains, Columns};

// How far a search is, beside the lent marks and order: what is placed is marked and stands from `at` on, while nothing from `top` on is left to
// place.
#[derive(Clone, Copy)]
pub struct Front {
    pub at: usize,
    pub top: usize,
}

// What a scan or a step gives: the front that it leaves, and the write that it asks for.
#[derive(Clone, Copy)]
pub struct Placed {
    pub front: Front,
    pub asked: Option<usize>,
}

// A scan or a step that failed. What it placed before that stands from `at` on.
#[derive(Clone, Copy)]
pub struct Failed {
    pub at: usize,
}

// What a search found: no order, after so many trials; an order, which stands in the lent one from the first place to the second, after so many
// trials; or that the allowance was used up.
#[derive(Clone, Copy)]
pub enum Search {
    Stale(u64),
    Fresh(usize, usize, u64),
    Spent,
}

// Whether the unplaced operation i, of the write v, ends the scan for w.
fn clash(i: usize, v: usize, w: usize, asked: Option<usize>) -> bool
    ensures { result ≡ clash i v w (plus_one asked) }
{
    match asked {
        Some(other) => v == i || v != w && other != v,
        None => v == i,
    }
}

// The write that is asked for behind a read of v.
fn ask(v: usize, w: usize, asked: Option<usize>) -> Option<usize>
    ensures { plus_one result ≡ ask v w (plus_one asked) }
{
    if v == w { asked } else { Some(v) }
}

// Places what starts after `bound`, from the top down.
fn scan(
    columns: &Columns,
    placed: &mut [u8],
    order: &mut [u64],
    front: Front,
    w: usize,
    bound: u64,
) -> Result<Placed, Failed>
    requires { Ready (length columns.now.start.now) (state_of placed.old order.old front.at front.top) }
    ensures { Scanned columns.now.start.now columns.now.chains.writer.now w bound (state_of placed.old order.old front.at front.top)
        (tried_of placed.new order.new result) }
{
    let mut at = front.at;
    let mut asked = None;
    for i in (0..front.top).rev() {
        if columns.start[i] <= bound {
            let front = Front { at, top: i + 1 };
            return Ok(Placed { front, asked });
        }
        if placed[i] == 0 {
            let v = columns.chains.writer[i] as usize;
            if clash(i, v, w, asked) {
                return Err(Failed { at });
            }
            asked = ask(v, w, asked);
            placed[i] = 1;
            at -= 1;
            order[at] = i as u64;
        }
    }
    let front = Front { at, top: 0 };
    Ok(Placed { front, asked })
}

// Places what is left of the reads of w, by the chain, and then w; where the order begins then.
pub fn own(chains: &Chains, placed: &mut [u8], order: &mut [u64], at: usize, w: usize) -> usize
    requires ready { Ready (length chains.now.writer.now) (state_of placed.old order.old at (length chains.now.writer.now)) }
    requires whose { Whose chains.now.writer.now (state_of placed.old order.old at (length chains.now.writer.now)) w }
    ensures { (top : ℕ) → Owned chains.now.writer.now w (state_of placed.old order.old at top) (state_of placed.new order.new result top) }
{
    let mut at = at;
    let mut k = chains.last[w] as usize;
    // The next link is the one that this read names.
    while k > 0 {
        let i = k - 1;
        k = chains.prev[i] as usize;
        if placed[i] == 0 {
            placed[i] = 1;
            at -= 1;
            order[at] = i as u64;
        }
    }
    placed[w] = 1;
    at -= 1;
    order[at] = w as u64;
    at
}

// One step: what starts after w ends, w's other reads, and w.
pub fn step(
    columns: &Columns,
    placed: &mut [u8],
    order: &mut [u64],
    front: Front,
    w: usize,
) -> Result<Placed, Failed>
    requires holds { Holds (view columns.now) (state_of placed.old order.old front.at front.top) }
    requires whose { Whose columns.now.chains.writer.now (state_of placed.old order.old front.at front.top) w }
    ensures { Stepped (view columns.now) w (state_of placed.old order.old front.at front.top) (tried_of placed.new order.new result) }
{
    let seen = scan(columns, placed, order, front, w, columns.finish[w])?;
    let at = own(&columns.chains, placed, order, seen.front.at, w);
    let front = Front {
        at,
        top: seen.front.top,
    };
    Ok(Placed {
        front,
        asked: seen.asked,
    })
}
