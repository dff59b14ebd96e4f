//! Bundles that are worth merging by themselves.
ghost use Rattle.std.specs.Prelude.{◌≡◌, find};
ghost use Rattle.spl_worker.specs.Wide.{is_wide, is_wide_from, newest, wide_number};

use spl_state::{BundleView, View};

/// Whether the bundle has two branches or more, and nobody merges it.
fn is_wide(bundle: &BundleView) -> bool
    ensures { result ≡ is_wide bundle.now }
{
    bundle.branches >= 2 && bundle.ticket.is_none()
}

/// The number of the bundle, if it is wide.
fn wide_number(bundle: Option<BundleView>) -> Option<u64>
    ensures { result ≡ wide_number bundle }
{
    let bundle = bundle?;
    if is_wide(&bundle) {
        Some(bundle.number)
    } else {
        None
    }
}

/// The number of the newest bundle of the node, if it is wide.
pub(crate) fn newest_wide(view: &View) -> Option<u64>
    ensures { result ≡ wide_number (newest view.now.bundles) }
{
    wide_number(view.bundles.as_slice().last().copied())
}

/// The first bundle from the mark on that has two branches or more and that nobody merges.
fn first_from(bundles: &[BundleView], mark: u64) -> Option<BundleView>
    ensures { result ≡ find (is_wide_from mark) bundles.now }
{
    bundles.iter().copied().find(|bundle| mark <= bundle.number
        && bundle.branches >= 2
        && bundle.ticket.is_none())
}

/// The number of the first wide bundle of the node from the mark on.
pub(crate) fn first_wide(view: &View, mark: u64) -> Option<u64>
    ensures { result ≡ wide_number (find (is_wide_from mark) view.now.bundles) }
{
    wide_number(first_from(view.bundles.as_slice(), mark))
}
