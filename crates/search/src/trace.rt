//! The legs of a journey, from the labels of a search.
ghost use Rattle.std.specs.Prelude.{◌≡◌, ℕ, ◌^◌, ◌<◌, ◌≤◌, List, ◌++◌, length, drop, Some};
ghost use Rattle.model.specs.declared.network.Leg.{Leg as LegOf};
ghost use Rattle.model.specs.Trips.{place};
ghost use Rattle.labels.specs.declared.label.Label.{Label as LabelOf};
ghost use Rattle.labels.specs.Table.{Traced};
ghost use Rattle.labels.specs.Rows.{view, Before};

use engine::Reached;
use labels::Label;
use model::{Arc, Leg};

/// The label of the place that the last leg of a label leaves.
// arcs, rows and states, and no `Product`: a trace asks no book and no rule
fn before(arcs: &[Arc], labels: &[Option<Label>], states: u32, label: Label) -> Label
    requires size { length labels.now < 2 ^ 32 }
    requires known { (m : LabelOf) × Before arcs.now (view states labels.now) label m }
    ensures { Before arcs.now (view states labels.now) label result }
{
    let stop = arcs[label.arc as usize].tail;
    let row = stop as usize * states as usize + label.state as usize;
    let Some(found) = labels[row] else {
        unreachable()
    };
    found
}

/// Writes the legs that lead to the place that is reached at `target` into the first rows of the slip, last to first.
pub(crate) fn trace(
    arcs: &[Arc],
    labels: &[Option<Label>],
    states: u32,
    target: u32,
    reached: Reached,
    slip: &mut [Leg],
)
    requires size { (length labels.now < 2 ^ 32) × (reached.label.legs ≤ length slip.old) }
    requires known { view states labels.now (place target reached.state) ≡ Some reached.label }
    requires traced { (js : List LegOf) × Traced arcs.now (view states labels.now) js (place target reached.state) }
    ensures { (js : List LegOf) → Traced arcs.now (view states labels.now) js (place target reached.state) → slip.new ≡ js ++ drop (length js) slip.old }
{
    // the labels are followed back, and no index is counted
    let mut last = reached.label;
    while last.legs > 0 {
        let earlier = before(arcs, labels, states, last);
        slip[earlier.legs as usize] = Leg {
            arc: last.arc,
            entered: earlier.second,
            arrived: last.second,
        };
        last = earlier;
    }
}
