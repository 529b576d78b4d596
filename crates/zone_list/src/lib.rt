// The zone list of a register: for each write its row, the direction of its zone, and the recorded stamps of the zone's ends.
#![tactic(auto)]

ghost use Rattle.std.specs.Prelude.{◌≡◌, ℕ, ◌+◌, ◌*◌, ◌≤◌, ◌<◌, length, get_or, take};
ghost use mathlib.Core.List.{◌∷◌, flat_map};
ghost use Rattle.std.proofs.lemmas.List.Edits.{sets};
ghost use Rattle.history.specs.Table.{largest_count, row_count, rows_of, history};
ghost use Rattle.history.specs.Screen.{Screened};
ghost use Rattle.methods.specs.Mark.{written};
ghost use Rattle.ranking.specs.Ranked.{Fit};
ghost use Rattle.positions.specs.View.{view};
ghost use Rattle.columns.specs.Rows.{Listed};
ghost use Rattle.columns.specs.Made.{Made};
ghost use Rattle.zones.specs.Zones.{Zoned, by_low};
ghost use Rattle.zone_list.specs.ZoneList.{directed, outcome, zone_call, OfAlike};
ghost use Rattle.zone_list.specs.Shown.{Shown};
ghost use Rattle.zone_list.specs.Stamps.{stamps_at, Timely, Writes, numbers_at, Laid, OfRows};

use history::{Answer, Code, Op, Row};
use methods::Zone;
use positions::{Chains, Columns};
use zones::Zones;

// The numbers of a write.
pub const NUMBERS: usize = 4;

// The direction of a zone; the list has its number.
#[derive(Clone, Copy)]
pub enum Direction {
    Forward = 1,
    Backward = 2,
}

// The smallest of the finish of the write w and of its reads as they are recorded, along their chain.
fn first_finish(table: &[u64], rows: &[u64], columns: &Columns, w: usize) -> u64
    requires fit { Fit table.now rows.now }
    requires writer_len { length columns.now.chains.writer.now ≡ length rows.now }
    requires w_in_bounds { w < length rows.now }
    requires w_value { get_or columns.now.chains.writer.now w 0 ≡ w }
    ensures { result ≡ (stamps_at table.now rows.now columns.now.chains.writer.now w).finish }
{
    let mut finish = Op::at(table, rows[w] as usize).finish;
    let mut k = columns.chains.last[w] as usize;
    // The next link is the one that this read names.
    while k > 0 {
        let i = k - 1;
        let read = Op::at(table, rows[i] as usize);
        k = columns.chains.prev[i] as usize;
        finish = finish.min(read.finish);
    }
    finish
}

// The smallest finish and the largest start in the cluster of the write w as they are recorded. The last read, or the write, starts last. An even
// finish was not shortened: no read finishes below it.
fn stamps(table: &[u64], rows: &[u64], columns: &Columns, w: usize) -> Zone
    requires fit { Fit table.now rows.now }
    requires writer_len { length columns.now.chains.writer.now ≡ length rows.now }
    requires timely { Timely table.now rows.now columns.now.finish.now columns.now.chains.writer.now }
    requires w_in_bounds { w < length rows.now }
    requires w_value { get_or columns.now.chains.writer.now w 0 ≡ w }
    ensures { result ≡ stamps_at table.now rows.now columns.now.chains.writer.now w }
{
    let last = w.max((columns.chains.last[w] as usize).saturating_sub(1));
    let start = Op::at(table, rows[last] as usize).start;
    let finish = if columns.finish[w] % 2 == 0 {
        Op::at(table, rows[w] as usize).finish
    } else {
        first_finish(table, rows, columns, w)
    };
    Zone { finish, start }
}

// The numbers of the write of a row at a place of the list, with the direction of its zone and the recorded stamps of its cluster.
fn put_zone(row: u64, ahead: bool, z: Zone, list: &mut [u64], at: usize)
    requires { at + 4 ≤ length list.old }
    ensures { list.new ≡ sets list.old at (row ∷ directed ahead z) }
{
    let numbers = if ahead {
        [row, Direction::Forward as u64, z.finish, z.start]
    } else {
        [row, Direction::Backward as u64, z.start, z.finish]
    };
    list[at..at + NUMBERS].copy_from_slice(&numbers);
}

// Those of the listed writes, at the front of the list. The direction goes by rank: the opening's stamps can be equal to a read's.
fn put_zones(
    table: &[u64],
    rows: &[u64],
    columns: &Columns,
    late: &[u64],
    places: &[u64],
    list: &mut [u64],
)
    requires fit { Fit table.now rows.now }
    requires writer_len { length columns.now.chains.writer.now ≡ length rows.now }
    requires timely { Timely table.now rows.now columns.now.finish.now columns.now.chains.writer.now }
    requires late_len { length late.now ≡ length rows.now }
    requires writes { Writes columns.now.chains.writer.now places.now }
    requires list_room { length places.now * 4 ≤ length list.old }
    ensures { list.new ≡ written (flat_map (numbers_at table.now rows.now columns.now.finish.now columns.now.chains.writer.now late.now) places.now)
        list.old }
{
    let zones = Zones {
        finish: columns.finish,
        late,
    };
    for (i, &w) in places.iter().enumerate() {
        let w = w as usize;
        let z = stamps(table, rows, columns, w);
        put_zone(rows[w], zones.of(w).forward(), z, list, i * NUMBERS);
    }
}

// The zones of the columns, the writes by low end, and their zone list where the list has the places; the number of writes.
pub fn fill(
    table: &[u64],
    rows: &[u64],
    columns: &Columns,
    low: &mut [u64],
    late: &mut [u64],
    places: &mut [u64],
    list: &mut [u64],
) -> usize
    requires made { Made table.now rows.now (view columns.now) }
    requires listed { (register : ℕ) × Listed table.now register rows.now }
    requires late_value { length late.old ≡ length rows.now }
    requires places_value { length places.old ≡ length rows.now }
    requires low_room { length rows.now ≤ length low.old }
    requires few { length rows.now ≤ largest_count }
    ensures r_in_bounds { result ≤ length rows.now }
    ensures zoned { Zoned (view columns.now) late.new }
    ensures places_after { take result places.new ≡ by_low columns.now.finish.now late.new columns.now.chains.writer.now }
    ensures of_rows { OfRows table.now rows.now result list.old list.new }
{
    let m = zones::by_low(
        columns.start,
        columns.finish,
        columns.chains.writer,
        columns.chains.last,
        late,
        low,
        places,
    );
    if m * NUMBERS <= list.len() {
        put_zones(table, rows, columns, late, &places[..m], list);
    }
    m
}

// The zone list of a screened register of up to N rows, from these by rising time, where the list has the places; the number of writes.
fn list_sized<const N: usize>(table: &[u64], rows: &[u64], list: &mut [u64]) -> usize
    requires size { N ≤ largest_count }
    requires listed { (register : ℕ) × Listed table.now register rows.now }
    requires few { length rows.now ≤ N }
    ensures { OfRows table.now rows.now result list.old list.new }
{
    let n = rows.len();
    let start = &mut [0u64; N][..n];
    let finish = &mut [0u64; N][..n];
    let writer = &mut [0u64; N][..n];
    let last = &mut [0u64; N][..n];
    let prev = &mut [0u64; N][..n];
    columns::fill(table, rows, start, finish, writer, last, prev);
    let chains = Chains { writer, last, prev };
    let columns = Columns {
        start,
        finish,
        chains,
    };
    let mut low = [0u64; N];
    let mut late = [0u64; N];
    let mut places = [0u64; N];
    fill(
        table,
        rows,
        &columns,
        &mut low,
        &mut late[..n],
        &mut places[..n],
        list,
    )
}

// The zone list of a screened register, from its rows by rising time.
fn list_rows(table: &[u64], rows: &[u64], list: &mut [u64]) -> usize
    requires listed { (register : ℕ) × Listed table.now register rows.now }
    requires few { length rows.now ≤ largest_count }
    ensures { OfRows table.now rows.now result list.old list.new }
{
    if rows.len() <= Row::FEW {
        list_sized::<{ Row::FEW }>(table, rows, list)
    } else if rows.len() <= Row::SOME {
        list_sized::<{ Row::SOME }>(table, rows, list)
    } else {
        list_sized::<{ Row::LARGEST_COUNT }>(table, rows, list)
    }
}

// The zone list of a register that passes the screening, from its rows in table sequence, at the front of the list where that has four places a
// write; the number of writes.
pub fn list_gathered(table: &[u64], register: u64, rows: &mut [u64], list: &mut [u64]) -> usize
    requires screened { Screened (length table.now) (history table.now register) }
    requires rows_value { rows.old ≡ rows_of table.now register }
    ensures { Laid (history table.now register) result list.old list.new }
{
    columns::put_by_time(table, rows);
    list_rows(table, rows, list)
}

// The call, where a table that passes tests 1 and 2 has up to N rows.
fn write_sized<const N: usize>(table: &[u64], register: u64, list: &mut [u64]) -> Answer
    requires size { N ≤ largest_count }
    requires room { row_count table.now ≤ largest_count → row_count table.now ≤ N }
    ensures outcome { outcome result list.new ≡ zone_call table.now register list.old }
    ensures shown { result.code ≡ 0 → Shown (history table.now register) list.new }
    ensures alike { OfAlike table.now register list.old (outcome result list.new) }
{
    let mut rows = [0u64; N];
    let met = screening::examine_into(table, register, false, &mut rows);
    if met.code != 0 {
        return met;
    }
    let n = met.rows as usize;
    let m = list_gathered(table, register, &mut rows[..n], list);
    if list.len() < m * NUMBERS {
        return Code::ShortList.at(0);
    }
    met
}

// The zone list at the front of the lent list: four numbers a write, by rising low end: its row, 1 for forward or 2 for backward, low stamp,
// high stamp. A refusal leaves the list as it was.
pub fn write(table: &[u64], register: u64, list: &mut [u64]) -> Answer
    ensures outcome { outcome result list.new ≡ zone_call table.now register list.old }
    ensures shown { result.code ≡ 0 → Shown (history table.now register) list.new }
    ensures alike { OfAlike table.now register list.old (outcome result list.new) }
{
    if table.len() / Row::COLUMNS <= Row::FEW {
        write_sized::<{ Row::FEW }>(table, register, list)
    } else {
        write_sized::<{ Row::LARGEST_COUNT }>(table, register, list)
    }
}
