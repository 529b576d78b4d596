// The joining of FZF: chunks and dangling clusters of a prepared history in columns, each with its order, by low end.
#![tactic(auto)]

ghost use Rattle.std.specs.Prelude.{◌≡◌, ◌++◌, ℕ, ◌+◌, ◌≤◌, ◌<◌, length, get_or, take, IfSome};
ghost use Rattle.history.specs.Table.{largest_count};
ghost use Rattle.methods.specs.Zones.{low};
ghost use Rattle.methods.specs.Fzf.{fzf};
ghost use Rattle.methods.specs.Mark.{untried};
ghost use Rattle.positions.specs.View.{view};
ghost use Rattle.placing.specs.Searched.{Searched};
ghost use Rattle.zones.specs.Zones.{zone_by, Zoned, Inside};
ghost use Rattle.freeing.specs.Freed.{Shut};
ghost use Rattle.chunking.specs.Inner.{Behind, Hangs};
ghost use Rattle.joining.specs.Items.{Known, forths, backs, Cut, Lent, Poised, Chunked, Nexts};
ghost use Rattle.joining.specs.Next.{chunk_first, over_at, Waiting};

use choice::Chunk;
use placing::Search;
use positions::Columns;
use zones::Zones;

// The clusters of a prepared history: its columns, at the place of each write the largest start of its cluster, and the
// writes of the forward and of the backward zones, by low end.
#[derive(Clone, Copy)]
pub struct Clusters<'a, 'b, 'c> {
    pub columns: Columns<'b, 'c>,
    pub late: &'a [u64],
    pub forwards: &'a [u64],
    pub backwards: &'a [u64],
    pub ghost few: { length columns.start.now ≤ largest_count },
    pub ghost zoned: { Zoned (view columns) late.now },
    pub ghost all_forward: { forwards.now ≡ forths (view columns) late.now },
    pub ghost all_backward: { backwards.now ≡ backs (view columns) late.now },
}

// How far the joining is: where the forward and the backward writes that are left begin, and the backward ones that may
// lie inside the next chunk.
#[derive(Clone, Copy)]
pub struct Cursor {
    pub forward: usize,
    pub backward: usize,
    pub inner: usize,
}

// What a chunk gives: where its order begins at the end of the part, if it has one; and where the backward writes behind
// it begin.
#[derive(Clone, Copy)]
struct Ordered {
    at: Option<usize>,
    next: usize,
}

// What an item gives that has an order: where that begins at the end of the part, and what is left behind the item.
#[derive(Clone, Copy)]
pub struct Next {
    pub at: usize,
    pub cursor: Cursor,
}

// The low end of a cluster's zone, by which chunks and dangling clusters are joined.
fn low_end(clusters: &Clusters, w: usize) -> u64
    requires { w < length clusters.now.columns.finish.now }
    ensures { result ≡ low (zone_by clusters.now.columns.finish.now clusters.now.late.now w) }
{
    let zones = Zones {
        finish: clusters.columns.finish,
        late: clusters.late,
    };
    zones.of(w).low()
}

// The order of a chunk, from the writes of its run and all the backward ones, of which those before i lie too low.
fn chunk(
    clusters: &Clusters,
    run: &[u64],
    i: usize,
    top: u64,
    list: &mut [u64],
    turn: &mut [u64],
    placed: &mut [u8],
    part: &mut [u64],
) -> Ordered
    requires cut { Cut (view clusters.now.columns) clusters.now.late.now run.now }
    requires behind { Behind clusters.now.columns.finish.now clusters.now.late.now clusters.now.backwards.now i
        (low (zone_by clusters.now.columns.finish.now clusters.now.late.now (get_or run.now 0 0))) }
    requires lent { Lent (length clusters.now.columns.start.now) list.old turn.old placed.old part.old }
    requires shut { Shut (length clusters.now.columns.chains.writer.now) placed.old }
    ensures order { Chunked (view clusters.now.columns) run.now top part.new result.at }
    ensures marks { Shut (length clusters.now.columns.chains.writer.now) placed.new }
    ensures next { (limit : ℕ) →
        low (zone_by clusters.now.columns.finish.now clusters.now.late.now (get_or run.now 0 0)) ≤ limit → top ≤ limit →
        Behind clusters.now.columns.finish.now clusters.now.late.now clusters.now.backwards.now result.next limit }
{
    let zones = Zones {
        finish: clusters.columns.finish,
        late: clusters.late,
    };
    let bottom = low_end(clusters, run[0] as usize);
    let found = chunking::enclose(&zones, clusters.backwards, i, bottom, top, list);
    let chosen = Chunk {
        forwards: run,
        inner: &list[..found.count],
    };
    let at = choice::choose(&clusters.columns, &chosen, turn, placed, part);
    let next = found.next;
    Ordered { at, next }
}

// Whether a chunk comes next: there is one, and no dangling cluster has the lower low end.
fn chunk_first(clusters: &Clusters, cursor: Cursor) -> bool
    ensures { result ≡ chunk_first clusters.now.columns.finish.now clusters.now.late.now clusters.now.forwards.now
        clusters.now.backwards.now cursor.forward cursor.backward }
{
    let a = cursor.forward;
    let j = cursor.backward;
    a < clusters.forwards.len()
        && (clusters.backwards.len() <= j
            || low_end(clusters, clusters.forwards[a] as usize)
                <= low_end(clusters, clusters.backwards[j] as usize))
}

// Whether nothing is left.
fn over(clusters: &Clusters, cursor: Cursor) -> bool
    ensures { result ≡ over_at (length clusters.now.forwards.now) (length clusters.now.backwards.now) cursor.forward cursor.backward }
{
    clusters.forwards.len() <= cursor.forward && clusters.backwards.len() <= cursor.backward
}

// Puts a part behind the first m of the order; where it ends.
fn append(part: &[u64], order: &mut [u64], m: usize) -> usize
    requires { m + length part.now ≤ length order.old }
    ensures { (result ≡ m + length part.now) × (take result order.new ≡ take m order.old ++ part.now) }
{
    let end = m + part.len();
    lists::copy(part, &mut order[m..end]);
    end
}

// The next item, the chunk or the dangling cluster at the cursor, with its order at the end of the part, if it has one.
fn item(
    clusters: &Clusters,
    cursor: Cursor,
    list: &mut [u64],
    turn: &mut [u64],
    placed: &mut [u8],
    part: &mut [u64],
) -> Option<Next>
    requires waiting { Waiting clusters.now.columns.finish.now clusters.now.late.now clusters.now.forwards.now clusters.now.backwards.now
        cursor.forward cursor.backward }
    requires poised { Poised (view clusters.now.columns) clusters.now.late.now clusters.now.forwards.now clusters.now.backwards.now
        cursor.forward cursor.inner placed.old }
    requires lent { Lent (length clusters.now.columns.start.now) list.old turn.old placed.old part.old }
    ensures end { Nexts (view clusters.now.columns) clusters.now.forwards.now clusters.now.backwards.now cursor.forward cursor.backward
        part.new result }
    ensures still_poised { IfSome result (λ next. Poised (view clusters.now.columns) clusters.now.late.now clusters.now.forwards.now
        clusters.now.backwards.now next.cursor.forward next.cursor.inner placed.new) }
{
    if !chunk_first(clusters, cursor) {
        let w = clusters.backwards[cursor.backward] as usize;
        let at = chunking::cluster(&clusters.columns.chains, w, placed, part);
        let cursor = Cursor {
            backward: cursor.backward + 1,
            ..cursor
        };
        return Some(Next { at, cursor });
    }
    let zones = Zones {
        finish: clusters.columns.finish,
        late: clusters.late,
    };
    let span = chunking::run(&zones, clusters.forwards, cursor.forward);
    let run = &clusters.forwards[cursor.forward..span.end];
    let found = chunk(
        clusters,
        run,
        cursor.inner,
        span.top,
        list,
        turn,
        placed,
        part,
    );
    let at = found.at?;
    let cursor = Cursor {
        forward: span.end,
        inner: found.next,
        ..cursor
    };
    Some(Next { at, cursor })
}

// Joins the items by low end; the backward writes inside a run are marked, and the lent slices have a place for each operation.
pub fn join(
    clusters: &Clusters,
    marks: &[u8],
    list: &mut [u64],
    turn: &mut [u64],
    placed: &mut [u8],
    part: &mut [u64],
    order: &mut [u64],
) -> Search
    requires known { Known (view clusters.now.columns) }
    requires marks_room { length clusters.now.columns.start.now ≤ length marks.now }
    requires hangs { Hangs clusters.now.columns.finish.now clusters.now.late.now clusters.now.forwards.now clusters.now.backwards.now marks.now }
    requires lent { Lent (length clusters.now.columns.start.now) list.old turn.old placed.old part.old }
    requires shut { Shut (length clusters.now.columns.chains.writer.now) placed.old }
    requires order_room { length clusters.now.columns.start.now ≤ length order.old }
    ensures { (allowance : ℕ) → Searched (view clusters.now.columns) allowance (λ H. untried (fzf H)) order.new result }
{
    let mut m = 0;
    let mut cursor = Cursor {
        forward: 0,
        backward: 0,
        inner: 0,
    };
    // An item says where the next one begins, in three lists.
    loop {
        cursor.backward = chunking::skip(clusters.backwards, marks, cursor.backward);
        if over(clusters, cursor) {
            return Search::Fresh(0, m, 0);
        }
        let Some(next) = item(clusters, cursor, list, turn, placed, part) else {
            return Search::Stale(0);
        };
        m = append(&part[next.at..], order, m);
        cursor = next.cursor;
    }
}
