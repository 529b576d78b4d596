// The doubled ranks of a register's stamps, from its rows by rising time: the finishes are sorted, and merged with the starts.
#![tactic(auto)]

ghost use Rattle.std.specs.Prelude.{◌≡◌, true, ◌+◌, ◌*◌, ◌≤◌, ◌<◌, length};
ghost use Rattle.lists.specs.Lists.{up_to};
ghost use Rattle.lists.specs.Sorts.{sort};
ghost use Rattle.sorting.specs.Keys.{rises};
ghost use Rattle.history.specs.Table.{largest_stamp, largest_count};
ghost use Rattle.methods.specs.Ranks.{level_of};
ghost use Rattle.ranking.specs.Ranked.{Fit, Standing, Stamps, RowsDiffer, finishes_first, Ready, comes_first, Merged, RanksOf};

use history::Op;

// The time of a stamp of the operation: one more than the stamp, so that the opening's, which is 0, lies below all others.
pub fn time(o: Op, stamp: u64) -> u64
    requires { stamp ≤ largest_stamp }
    ensures { result ≡ level_of o + stamp }
{
    if o.is_opening() { stamp } else { 1 + stamp }
}

// The times of the starts and of the finishes of the rows.
fn stamps_of(table: &[u64], rows: &[u64], starts: &mut [u64], finishes: &mut [u64])
    requires fit { Fit table.now rows.now }
    requires starts_len { length starts.old ≡ length rows.now }
    requires finishes_len { length finishes.old ≡ length rows.now }
    ensures { Stamps table.now rows.now starts.new finishes.new }
{
    for (i, x) in rows.iter().enumerate() {
        let o = Op::at(table, *x as usize);
        starts[i] = time(o, o.start);
        finishes[i] = time(o, o.finish);
    }
}

// Puts each position at the place of its row, unless a row is not below their count: whether all have their place.
fn place(rows: &[u64], list: &mut [u64]) -> bool
    requires list_len { length list.old ≡ length rows.now }
    requires rows_differ { RowsDiffer rows.now }
    ensures { result ≡ true → list.new ≡ sort (rises rows.now) (up_to (length rows.now)) }
{
    for (i, x) in rows.iter().enumerate() {
        let row = *x as usize;
        if list.len() <= row {
            return false;
        }
        list[row] = i as u64;
    }
    true
}

// The positions by row: at once, where the rows are the numbers below their count, as in a table that has no other register.
fn by_row(rows: &[u64], list: &mut [u64])
    requires list_len { length list.old ≡ length rows.now }
    requires rows_differ { RowsDiffer rows.now }
    ensures { list.new ≡ sort (rises rows.now) (up_to (length list.old)) }
{
    if !place(rows, list) {
        sorting::places_by(rows, list);
    }
}

// The positions by rising finish; those that have one finish by row, in which sequence they are put first, as the sort is stable.
fn by_finish(rows: &[u64], finishes: &[u64], list: &mut [u64])
    requires list_len { length list.old ≡ length rows.now }
    requires rows_differ { RowsDiffer rows.now }
    ensures { list.new ≡ sort (finishes_first rows.now finishes.now) (up_to (length list.old)) }
{
    by_row(rows, list);
    sorting::sort_by(finishes, list);
}

// Whether there is a start at i, not above the finish: at an equal stamp starts come before finishes.
fn comes_first(starts: &[u64], i: usize, finish: u64) -> bool
    ensures { result ≡ comes_first starts.now i finish }
{
    i < starts.len() && starts[i] <= finish
}

fn doubled(rank: usize) -> u64
    requires { rank < 2 * largest_count }
    ensures { result ≡ 2 * rank }
{
    2 * rank as u64
}

// Puts twice its rank in the place of each start and of each finish, with the positions by rising finish. It ends with the finishes: each start has
// one that is not below it, so by then the starts have their ranks too.
fn merge(list: &[u64], start: &mut [u64], finish: &mut [u64])
    requires ready { Ready start.old finish.old list.now }
    requires list_len_bound { length list.now ≤ largest_count }
    ensures { Merged start.old finish.old list.now start.new finish.new }
{
    let mut i = 0;
    let mut j = 0;
    // Of two lists the one with the lower stamp goes on.
    while j < list.len() {
        let at = list[j] as usize;
        if comes_first(start, i, finish[at]) {
            start[i] = doubled(i + j);
            i += 1;
        } else {
            finish[at] = doubled(i + j);
            j += 1;
        }
    }
}

// The doubled ranks of the starts and of the finishes of a register's rows, which stand by rising time; the list has a place for each row.
pub fn ranks(table: &[u64], rows: &[u64], list: &mut [u64], start: &mut [u64], finish: &mut [u64])
    requires fit { Fit table.now rows.now }
    requires rows_len_bound { length rows.now ≤ largest_count }
    requires list_len { length list.old ≡ length rows.now }
    requires start_len { (length start.old ≡ length rows.now) × (length finish.old ≡ length rows.now) }
    requires standing { Standing table.now rows.now }
    ensures { RanksOf table.now rows.now start.new finish.new }
{
    stamps_of(table, rows, start, finish);
    by_finish(rows, finish, list);
    merge(list, start, finish);
}
