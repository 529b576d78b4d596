// FZF over a prepared history in columns: the writes by low end, the forward and the backward ones, what lies inside a run, and the joining.
#![tactic(auto)]

ghost use Rattle.std.specs.Prelude.{◌≡◌, true, ℕ, ◌≤◌, ◌<◌, length};
ghost use Rattle.history.specs.Table.{largest_count};
ghost use Rattle.methods.specs.Fzf.{fzf};
ghost use Rattle.methods.specs.Mark.{untried};
ghost use Rattle.positions.specs.View.{view};
ghost use Rattle.placing.specs.States.{is_free};
ghost use Rattle.placing.specs.Searched.{Searched};
ghost use Rattle.freeing.specs.Freed.{Shut};
ghost use Rattle.joining.specs.Items.{Known, Lent};

use history::Row;
use joining::Clusters;
use placing::Search;
use positions::Columns;
use zones::Zones;

// FZF over the clusters, with marks that are clean.
fn sides(
    clusters: &Clusters,
    marks: &mut [u8],
    list: &mut [u64],
    turn: &mut [u64],
    placed: &mut [u8],
    part: &mut [u64],
    order: &mut [u64],
) -> Search
    requires known { Known (view clusters.now.columns) }
    requires marks_room { length clusters.now.columns.start.now ≤ length marks.old }
    requires clean { (i : ℕ) → i < length marks.old → is_free marks.old i ≡ true }
    requires lent { Lent (length clusters.now.columns.start.now) list.old turn.old placed.old part.old }
    requires shut { Shut (length clusters.now.columns.chains.writer.now) placed.old }
    requires order_room { length clusters.now.columns.start.now ≤ length order.old }
    ensures { (allowance : ℕ) → Searched (view clusters.now.columns) allowance (λ H. untried (fzf H)) order.new result }
{
    let zones = Zones {
        finish: clusters.columns.finish,
        late: clusters.late,
    };
    chunking::mark_inner(&zones, clusters.forwards, clusters.backwards, list, marks);
    joining::join(clusters, marks, list, turn, placed, part, order)
}

// FZF for at most N operations.
fn search_sized<const N: usize>(columns: &Columns, order: &mut [u64]) -> Search
    requires fits { length columns.now.start.now ≤ N }
    requires size { N ≤ largest_count }
    requires known { Known (view columns.now) }
    requires order_room { length columns.now.start.now ≤ length order.old }
    ensures { (allowance : ℕ) → Searched (view columns.now) allowance (λ H. untried (fzf H)) order.new result }
{
    let mut late = [0u64; N];
    let mut list = [0u64; N];
    let mut part = [0u64; N];
    let mut forwards = [0u64; N];
    let mut backwards = [0u64; N];
    let late = &mut late[..columns.start.len()];
    // The part is written later, and has the room for the low ends until then.
    let m = zones::by_low(
        columns.start,
        columns.finish,
        columns.chains.writer,
        columns.chains.last,
        late,
        &mut part,
        &mut list,
    );
    let zones = Zones {
        finish: columns.finish,
        late,
    };
    let f = chunking::part(&zones, &list[..m], true, &mut forwards);
    let b = chunking::part(&zones, &list[..m], false, &mut backwards);
    let clusters = Clusters {
        columns: *columns,
        late,
        forwards: &forwards[..f],
        backwards: &backwards[..b],
    };
    let mut marks = [0u8; N];
    let mut inner = [0u64; N];
    let mut placed = [1u8; N];
    // The list is read no more, and has the room for a chunk's sequence.
    sides(
        &clusters,
        &mut marks,
        &mut inner,
        &mut list,
        &mut placed,
        &mut part,
        order,
    )
}

// FZF: whether the history is 2-atomic, with an order.
pub fn search(columns: &Columns, order: &mut [u64]) -> Search
    requires few { length columns.now.start.now ≤ largest_count }
    requires known { Known (view columns.now) }
    requires order_room { length columns.now.start.now ≤ length order.old }
    ensures { (allowance : ℕ) → Searched (view columns.now) allowance (λ H. untried (fzf H)) order.new result }
{
    if columns.start.len() <= Row::FEW {
        search_sized::<{ Row::FEW }>(columns, order)
    } else {
        search_sized::<{ Row::LARGEST_COUNT }>(columns, order)
    }
}
