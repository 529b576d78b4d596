// The write of each of a list of rows, as a position among the rows.
#![tactic(auto)]

ghost use Rattle.std.specs.Prelude.{◌≡◌, map, ℕ, ◌≤◌, ◌<◌, length, get_or};
ghost use Rattle.history.specs.Table.{largest_count};
ghost use Rattle.firsts.specs.Firsts.{Firsts};
ghost use Rattle.writers.specs.Writers.{Within, writer_of, value_of};
ghost use Rattle.writers.specs.Marked.{Marked};

use history::{Op, Row};

// The value of each row.
fn value_of(table: &[u64], rows: &[u64], out: &mut [u64])
    requires out_len { length out.old ≡ length rows.now }
    requires within { Within table.now rows.now }
    ensures { out.new ≡ map (value_of table.now) rows.now }
{
    for (i, x) in rows.iter().enumerate() {
        out[i] = Op::at(table, *x as usize).value;
    }
}

// Leaves at the first holder of each value how many rows there are from the value's first write on; 0 where none writes it.
fn mark(table: &[u64], rows: &[u64], firsts: &[u64], slots: &mut [u64])
    requires within { Within table.now rows.now }
    requires firsts_len { length firsts.now ≡ length rows.now }
    requires firsts { Firsts (map (value_of table.now) rows.now) firsts.now }
    requires slots_len { length slots.old ≡ length rows.now }
    requires slots_empty { (j : ℕ) → j < length rows.now → get_or slots.old j 0 ≡ 0 }
    ensures { Marked table.now rows.now firsts.now slots.new }
{
    let n = rows.len();
    for i in (0..n).rev() {
        let o = Op::at(table, rows[i] as usize);
        if o.is_write() {
            let first = firsts[i] as usize;
            slots[first] = (n - i) as u64;
        }
    }
}

// The write of each row, from what is left at the first holder of its value.
fn pick(table: &[u64], rows: &[u64], firsts: &[u64], slots: &[u64], out: &mut [u64])
    requires firsts_len { length firsts.now ≡ length rows.now }
    requires firsts { Firsts (map (value_of table.now) rows.now) firsts.now }
    requires marked { Marked table.now rows.now firsts.now slots.now }
    requires out_len { length out.old ≡ length rows.now }
    ensures { out.new ≡ map (writer_of table.now rows.now) rows.now }
{
    let n = rows.len();
    for (i, first) in firsts.iter().enumerate() {
        out[i] = n as u64 - slots[*first as usize];
    }
}

// The write of each row; the slices have a place for each, and the slots are zeros. The values stand where the writes come to stand.
fn writers_with(table: &[u64], rows: &[u64], firsts: &mut [u64], slots: &mut [u64], out: &mut [u64])
    requires within { Within table.now rows.now }
    requires rows_len_bound { length rows.now ≤ largest_count }
    requires firsts_len { length firsts.old ≡ length rows.now }
    requires slots_len { length slots.old ≡ length rows.now }
    requires slots_empty { (j : ℕ) → j < length rows.now → get_or slots.old j 0 ≡ 0 }
    requires out_len { length out.old ≡ length rows.now }
    ensures { out.new ≡ map (writer_of table.now rows.now) rows.now }
{
    value_of(table, rows, out);
    holders::firsts(out, firsts);
    mark(table, rows, firsts, slots);
    pick(table, rows, firsts, slots, out);
}

// The write of each of at most N rows.
fn writers_sized<const N: usize>(table: &[u64], rows: &[u64], out: &mut [u64])
    requires within { Within table.now rows.now }
    requires size { N ≤ largest_count }
    requires room { length rows.now ≤ N }
    requires out_len { length out.old ≡ length rows.now }
    ensures { out.new ≡ map (writer_of table.now rows.now) rows.now }
{
    let n = rows.len();
    let mut firsts = [0u64; N];
    let mut slots = [0u64; N];
    writers_with(table, rows, &mut firsts[..n], &mut slots[..n], out);
}

// The position of the first write of each row's value among the rows; their number where there is none.
pub fn writers(table: &[u64], rows: &[u64], out: &mut [u64])
    requires within { Within table.now rows.now }
    requires rows_len_bound { length rows.now ≤ largest_count }
    requires out_len { length out.old ≡ length rows.now }
    ensures { out.new ≡ map (writer_of table.now rows.now) rows.now }
{
    if rows.len() <= Row::FEW {
        writers_sized::<{ Row::FEW }>(table, rows, out);
    } else if rows.len() <= Row::SOME {
        writers_sized::<{ Row::SOME }>(table, rows, out);
    } else {
        writers_sized::<{ Row::LARGEST_COUNT }>(table, rows, out);
    }
}
