// The zones of a prepared history in columns, and the writes by low end.
#![tactic(auto)]

ghost use Rattle.std.specs.Prelude.{◌≡◌, ◌≤◌, ◌<◌, length, get_or, take};
ghost use Rattle.zones.specs.Zones.{last_by, Ends, zone_by, writes_at, by_low, Lates, Lows};

use methods::Zone;

// The zones of a history's writes: for each operation its finish, and at the place of each write the largest start of its cluster.
#[derive(Clone, Copy)]
pub struct Zones<'a> {
    pub finish: &'a [u64],
    pub late: &'a [u64],
    pub ghost matched: { length late.now ≡ length finish.now },
}

impl Zones<'_> {
    ghost use Rattle.zones.specs.Zones.{zone_by};

    // The zone of the write w.
    pub fn of(&self, w: usize) -> Zone
        requires { w < length self.now.finish.now }
        ensures { result ≡ zone_by self.now.finish.now self.now.late.now w }
    {
        Zone {
            finish: self.finish[w],
            start: self.late[w],
        }
    }
}

// The largest start in the cluster of the write w.
fn last_start(start: &[u64], last: &[u64], w: usize) -> u64
    requires start_in_bounds { w < length start.now }
    requires last_in_bounds { w < length last.now }
    requires read_in_bounds { get_or last.now w 0 ≤ length start.now }
    ensures { result ≡ last_by start.now last.now w }
{
    let own = start[w];
    let k = last[w] as usize;
    if k < 1 { own } else { own.max(start[k - 1]) }
}

// The writes, at the front of the list; at the place of each the largest start of its cluster, and the low end of its zone; their number.
fn low_ends(
    start: &[u64],
    finish: &[u64],
    writer: &[u64],
    last: &[u64],
    late: &mut [u64],
    low: &mut [u64],
    list: &mut [u64],
) -> usize
    requires ends { Ends start.now writer.now last.now }
    requires finish_len { length finish.now ≡ length writer.now }
    requires late_len { length late.old ≡ length start.now }
    requires low_room { length writer.now ≤ length low.old }
    requires list_room { length writer.now ≤ length list.old }
    ensures upper_bound { result ≤ length writer.now }
    ensures list_after { take result list.new ≡ writes_at writer.now }
    ensures lates { Lates start.now writer.now last.now (length start.now) late.new }
    ensures lows { Lows finish.now late.new writer.now (length writer.now) low.new }
{
    let mut m = 0;
    for (i, &v) in writer.iter().enumerate() {
        if v == i as u64 {
            late[i] = last_start(start, last, i);
            let zones = Zones { finish, late };
            low[i] = zones.of(i).low();
            list[m] = v;
            m += 1;
        }
    }
    m
}

// The writes by low end, at the front of the list, and at the place of each the largest start of its cluster, where `low` has a place for the
// low end of each; their number.
pub fn by_low(
    start: &[u64],
    finish: &[u64],
    writer: &[u64],
    last: &[u64],
    late: &mut [u64],
    low: &mut [u64],
    list: &mut [u64],
) -> usize
    requires ends { Ends start.now writer.now last.now }
    requires finish_len { length finish.now ≡ length writer.now }
    requires late_len { length late.old ≡ length start.now }
    requires low_room { length writer.now ≤ length low.old }
    requires list_room { length writer.now ≤ length list.old }
    ensures upper_bound { result ≤ length writer.now }
    ensures list_after { take result list.new ≡ by_low finish.now late.new writer.now }
    ensures lates { Lates start.now writer.now last.now (length start.now) late.new }
{
    let m = low_ends(start, finish, writer, last, late, low, list);
    sorting::sort_by(low, &mut list[..m]);
    m
}
