ghost use Rattle.std.specs.Prelude.{◌≡◌, ◌<◌, ◌≤◌, length, None, IfSome, IsSome};
ghost use Rattle.spl_worker.specs.Plans.{IsWhole};

use spl_state::View;

/// Bundles of a node, from the first one up to the last one.
#[derive(Clone, Copy, Debug)]
pub(crate) struct Run {
    pub(crate) first: u64,
    pub(crate) last: u64,
}

impl Run {
    /// One bundle.
    pub(crate) fn of_one(number: u64) -> Run
        ensures first { result.first ≡ number }
        ensures last { result.last ≡ number }
    {
        Run {
            first: number,
            last: number,
        }
    }
}

/// All bundles of the node, if it has so many or more.
pub(crate) fn run_of(view: &View, least: usize) -> Option<Run>
    requires { 0 < least }
    ensures few { result ≡ None → length view.now.bundles < least }
    ensures many { IsSome result → least ≤ length view.now.bundles }
    ensures whole { IfSome result (IsWhole view.now) }
{
    let bundles = view.bundles.as_slice();
    if bundles.len() < least {
        return None;
    }
    let (Some(first), Some(last)) = (bundles.first(), bundles.last()) else {
        return None;
    };
    Some(Run {
        first: first.number,
        last: last.number,
    })
}
