//! What is to be done about a node, as a survey shows it.
ghost use Rattle.std.specs.Prelude.{◌≡◌, ◌≢◌, ◌<◌, ◌≤◌, length, None, Some, IfSome, IsSome};
ghost use Rattle.spl_worker.specs.Plans.{IsLeast, IsPlanFor, nearer};

use crate::run::{Run, run_of};
use spl_node::Pivot;
use spl_state::View;

/// The root of the trunk.
pub(crate) const ROOT: u32 = 0;

/// The part of a node whose bundles have waited longest: the child that it leads to, and the number of the first of
/// them.
#[derive(Clone, Copy, Debug)]
pub(crate) struct Way {
    pub(crate) child: u32,
    pub(crate) mark: u64,
}

/// What is to be done.
#[derive(Clone, Copy, Debug)]
pub(crate) enum Plan {
    /// The root is to be raised, so that it can be split.
    Raise,
    /// The bundles of a leaf are to be merged into one.
    Merge(Run),
    /// Bundles are to be flushed to a child.
    Pass(Way),
}

/// The part of the pivot, if its bundles have waited longer than those of the part that was found before.
fn nearer(found: Option<Way>, pivot: &Pivot) -> Option<Way>
    ensures { result ≡ nearer found pivot.now }
{
    let Some(child) = pivot.child else {
        return found;
    };
    let mark = pivot.mark;
    match found {
        Some(way) if way.mark <= mark => found,
        _ => Some(Way { child, mark }),
    }
}

/// The part of the node whose bundles have waited longest. A leaf leads to no child.
fn least_way(view: &View) -> Option<Way>
    ensures { IsLeast view.now.pivots result }
{
    let mut least = None;
    for pivot in view.pivots.as_slice() {
        least = nearer(least, pivot);
    }
    least
}

/// What is to be done about the node, if it has so many bundles or more, or is a root that is to be raised.
pub(crate) fn plan_of(node: u32, view: &View, least: usize) -> Option<Plan>
    requires { 0 < least }
    ensures few { result ≡ None → length view.now.bundles < least }

    // The root is raised exactly where it is to be split; else there is nothing to do with fewer bundles.
    ensures raise { result ≡ Some Plan.Raise → node ≡ 0 }
    ensures due { node ≡ 0 → IsSome view.now.split → result ≡ Some Plan.Raise }
    ensures many { IfSome result (λ plan. plan ≢ Plan.Raise → least ≤ length view.now.bundles) }
    ensures for_view { IfSome result (IsPlanFor view.now) }
{
    if node == ROOT && view.split.is_some() {
        return Some(Plan::Raise);
    }
    let run = run_of(view, least)?;
    match least_way(view) {
        Some(way) => Some(Plan::Pass(way)),
        None => Some(Plan::Merge(run)),
    }
}
