// The marks of a chunk's operations: its clusters are set free to be placed, and shut again, by the chains of their reads.
#![tactic(auto)]

ghost use Rattle.std.specs.Prelude.{◌≡◌, ◌++◌, ℕ, ◌≤◌, ◌<◌, length, get_or};
ghost use Rattle.history.specs.Table.{largest_count};
ghost use Rattle.freeing.specs.Marks.{Writes, Dyed, Painted, Above};

use positions::Chains;

// The marks of what is to be placed, and of what is not.
pub const FREE: u8 = 0;

pub const SHUT: u8 = 1;

// Marks the cluster of the write w: its reads, by the chain, and w.
pub fn dye(chains: &Chains, w: usize, mark: u8, placed: &mut [u8])
    requires w_in_bounds { (w < length chains.now.writer.now) × (get_or chains.now.writer.now w 0 ≡ w) }
    requires writer_in_bounds { length chains.now.writer.now ≤ length placed.old }
    ensures { Dyed chains.now.writer.now w mark placed.old placed.new }
{
    let mut k = chains.last[w] as usize;
    // The next link is the one that this read names.
    while k > 0 {
        let i = k - 1;
        placed[i] = mark;
        k = chains.prev[i] as usize;
    }
    placed[w] = mark;
}

// Marks the clusters of the listed writes.
fn paint_list(chains: &Chains, list: &[u64], mark: u8, placed: &mut [u8])
    requires writes { Writes chains.now.writer.now list.now }
    requires writer_in_bounds { length chains.now.writer.now ≤ length placed.old }
    ensures { Painted chains.now.writer.now list.now mark placed.old placed.new }
{
    for &w in list {
        dye(chains, w as usize, mark, placed);
    }
}

// Marks the clusters of the writes of a run and of those inside it.
pub fn paint(chains: &Chains, run: &[u64], inner: &[u64], mark: u8, placed: &mut [u8])
    requires writes { Writes chains.now.writer.now (run.now ++ inner.now) }
    requires writer_in_bounds { length chains.now.writer.now ≤ length placed.old }
    ensures { Painted chains.now.writer.now (run.now ++ inner.now) mark placed.old placed.new }
{
    paint_list(chains, run, mark, placed);
    paint_list(chains, inner, mark, placed);
}

// A bound above the clusters of the listed writes: each write's place and that of its last read are below it.
fn above_list(last: &[u64], list: &[u64], top: u64) -> u64
    requires listed_in_bounds { (i : ℕ) → i < length list.now → get_or list.now i 0 < length last.now }
    requires last_len_bound { length last.now ≤ largest_count }
    ensures { Above last.now list.now top result }
{
    let mut top = top;
    for &w in list {
        top = top.max(w + 1).max(last[w as usize]);
    }
    top
}

// A bound above the clusters of the writes of a run and of those inside it.
pub fn above(last: &[u64], run: &[u64], inner: &[u64]) -> usize
    requires run_in_bounds { (i : ℕ) → i < length run.now → get_or run.now i 0 < length last.now }
    requires inner_in_bounds { (i : ℕ) → i < length inner.now → get_or inner.now i 0 < length last.now }
    requires last_len_bound { length last.now ≤ largest_count }
    ensures { Above last.now (run.now ++ inner.now) 0 result }
{
    let top = above_list(last, run, 0);
    above_list(last, inner, top) as usize
}
