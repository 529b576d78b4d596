// FZF's chunks over the columns: the runs of forward zones, the backward zones inside them, and the dangling ones.
#![tactic(auto)]

ghost use Rattle.std.specs.Prelude.{◌≡◌, true, Bool, List, ℕ, ◌≤◌, ◌<◌, length, get_or, take, drop};
ghost use Rattle.history.specs.Table.{largest_count};
ghost use Rattle.lists.specs.Lists.{keep};
ghost use Rattle.placing.specs.States.{is_free};
ghost use Rattle.freeing.specs.Freed.{Shut};
ghost use Rattle.zones.specs.Zones.{Inside, cluster_at};
ghost use Rattle.chunking.specs.Chunks.{faces, lies, Spans, Skips};
ghost use Rattle.chunking.specs.Inner.{Rises, Behind, Reaches, Encloses, Sides, Marked, Hangs};

use positions::Chains;
use zones::Zones;

// Where a run of forward zones ends in their list, and its largest high end.
#[derive(Clone, Copy)]
pub struct Span {
    pub end: usize,
    pub top: u64,
}

// How many backward writes lie inside a run, and where those behind it begin.
#[derive(Clone, Copy)]
pub struct Enclosed {
    pub count: usize,
    pub next: usize,
}

// Those of the listed writes that pass a test, at the front of `out`; their number.
fn keep<F: Fn(usize) -> bool>(passes: F, list: &[u64], out: &mut [u64]) -> usize
    requires tests { (i : ℕ) → i < length list.now → F.pre passes (get_or list.now i 0) }
    requires room { length list.now ≤ length out.old }
    ensures few { result ≤ length list.now }
    ensures written { (test : ℕ → Bool) → ((i : ℕ) (r : Bool) → i < length list.now → F.post passes (get_or list.now i 0) r →
        r ≡ test (get_or list.now i 0)) → take result out.new ≡ keep test list.now }
{
    let mut m = 0;
    for &w in list {
        if passes(w as usize) {
            out[m] = w;
            m += 1;
        }
    }
    m
}

// Whether the zone of w is forward, or backward, as asked.
fn faces(zones: &Zones, forward: bool, w: usize) -> bool
    requires { w < length zones.now.finish.now }
    ensures { result ≡ faces zones.now.finish.now zones.now.late.now forward w }
{
    zones.of(w).forward() == forward
}

// Those of the listed writes whose zones are forward, or backward, at the front of `out`; their number.
pub fn part(zones: &Zones, list: &[u64], forward: bool, out: &mut [u64]) -> usize
    requires inside { Inside zones.now.finish.now list.now }
    requires list_in_bounds { length list.now ≤ length out.old }
    ensures { (result ≤ length list.now) ×
        (take result out.new ≡ keep (faces zones.now.finish.now zones.now.late.now forward) list.now) }
{
    keep(|w| faces(zones, forward, w), list, out)
}

// The run that begins at a.
pub fn run(zones: &Zones, list: &[u64], a: usize) -> Span
    requires inside { Inside zones.now.finish.now list.now }
    requires a_in_bounds { a < length list.now }
    ensures { Spans zones.now.finish.now zones.now.late.now list.now a result × (a < result.end) × (result.end ≤ length list.now) }
{
    let mut top = zones.of(list[a] as usize).high();
    for i in a + 1..list.len() {
        let zone = zones.of(list[i] as usize);
        if top <= zone.low() {
            return Span { end: i, top };
        }
        top = top.max(zone.high());
    }
    let end = list.len();
    Span { end, top }
}

// Whether the zone of w lies between bottom and top.
fn lies(zones: &Zones, bottom: u64, top: u64, w: usize) -> bool
    requires { w < length zones.now.finish.now }
    ensures { result ≡ lies zones.now.finish.now zones.now.late.now bottom top w }
{
    let zone = zones.of(w);
    bottom < zone.low() && zone.high() < top
}

// Where those with a lower low end than top end, in a list by low end from i on.
fn reach(zones: &Zones, list: &[u64], i: usize, top: u64) -> usize
    requires inside { Inside zones.now.finish.now list.now }
    requires i_in_bounds { i ≤ length list.now }
    ensures { Reaches zones.now.finish.now zones.now.late.now list.now i top result }
{
    (i..list.len())
        .find(|&k| top <= zones.of(list[k] as usize).low())
        .unwrap_or(list.len())
}

// Those of the backward writes, by low end, whose zones lie between bottom and top, at the front of `out`, where those before i lie too low.
pub fn enclose(
    zones: &Zones,
    list: &[u64],
    i: usize,
    bottom: u64,
    top: u64,
    out: &mut [u64],
) -> Enclosed
    requires inside { Inside zones.now.finish.now list.now }
    requires list_in_bounds { length list.now ≤ length out.old }
    requires rises { Rises zones.now.finish.now zones.now.late.now list.now }
    requires behind { Behind zones.now.finish.now zones.now.late.now list.now i bottom }
    ensures { Encloses zones.now.finish.now zones.now.late.now list.now bottom top out.new result }
{
    let next = reach(zones, list, i, top);
    let count = keep(|w| lies(zones, bottom, top, w), &list[i..next], out);
    Enclosed { count, next }
}

// Marks the listed places.
fn mark(list: &[u64], marks: &mut [u8])
    requires { (i : ℕ) → i < length list.now → get_or list.now i 0 < length marks.old }
    ensures { Marked list.now marks.old marks.new }
{
    for &w in list {
        marks[w as usize] = 1;
    }
}

// Marks the backward writes whose zones lie inside a run of the forward ones, on a clean slice; `list` has room for them.
pub fn mark_inner(
    zones: &Zones,
    forwards: &[u64],
    backwards: &[u64],
    list: &mut [u64],
    marks: &mut [u8],
)
    requires sides { Sides zones.now.finish.now zones.now.late.now forwards.now backwards.now }
    requires backwards_in_bounds { length backwards.now ≤ length list.old }
    requires marks_in_bounds { (i : ℕ) → i < length backwards.now → get_or backwards.now i 0 < length marks.old }
    requires clean { (i : ℕ) → i < length marks.old → is_free marks.old i ≡ true }
    ensures { Hangs zones.now.finish.now zones.now.late.now forwards.now backwards.now marks.new }
{
    let mut a = 0;
    let mut i = 0;
    // A run ends where its zones say, so that the next place is no step of one.
    while a < forwards.len() {
        let bottom = zones.of(forwards[a] as usize).low();
        let span = run(zones, forwards, a);
        let found = enclose(zones, backwards, i, bottom, span.top, list);
        mark(&list[..found.count], marks);
        a = span.end;
        i = found.next;
    }
}

// The place of the first dangling one of the backward zones from j on, or the end of their list.
pub fn skip(backwards: &[u64], marks: &[u8], j: usize) -> usize
    requires marks_in_bounds { (i : ℕ) → i < length backwards.now → get_or backwards.now i 0 < length marks.now }
    requires j_in_bounds { j ≤ length backwards.now }
    ensures { (finish late forwards : List ℕ) → Hangs finish late forwards backwards.now marks.now →
        Skips finish late forwards backwards.now j result }
{
    for i in j..backwards.len() {
        if marks[backwards[i] as usize] == 0 {
            return i;
        }
    }
    backwards.len()
}

// The cluster of the write w, laid down whole at the end of the order; where it begins.
pub fn cluster(chains: &Chains, w: usize, placed: &mut [u8], order: &mut [u64]) -> usize
    requires w_in_bounds { (w < length chains.now.writer.now) × (get_or chains.now.writer.now w 0 ≡ w) }
    requires writer_len_bound { (length chains.now.writer.now ≤ largest_count) × (length chains.now.writer.now ≤ length placed.old) ×
        (length chains.now.writer.now ≤ length order.old) }
    requires shut { Shut (length chains.now.writer.now) placed.old }
    ensures end { (drop result order.new ≡ cluster_at chains.now.writer.now w) × (result ≤ length order.new) }
    ensures marks { Shut (length chains.now.writer.now) placed.new }
{
    freeing::dye(chains, w, freeing::FREE, placed);
    let end = order.len();
    placing::own(chains, placed, order, end, w)
}
