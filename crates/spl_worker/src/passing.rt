//! How the bundles of a node are flushed to its children.
ghost use Rattle.std.specs.Prelude.{◌≡◌, ◌<◌, ◌^◌, IfErr, IfOk, OnErr, OnOk};
ghost use Rattle.spl_desk.specs.Branches.{branch_kind};
ghost use Rattle.spl_desk.specs.Calls.{HasSeen, MadeFew, MayCall};
ghost use Rattle.spl_desk.specs.Quiet.{HasWorkCause};
ghost use Rattle.spl_job.specs.Holding.{told_by};
ghost use Rattle.spl_worker.specs.Plans.{IsWay};
ghost use Rattle.spl_worker.specs.Reliefs.{WasPassed};
ghost use Rattle.spl_worker.specs.Working.{HasGoneOn, HasWorked};

use crate::look::look;
use crate::merge::merge_run;
use crate::plan::Way;
use crate::relief::Relief;
use crate::run::Run;
use crate::wide::{first_wide, newest_wide};
use spl_branch::Branch;
use spl_bundle::MAX_LISTS;
use spl_desk::{CallFault, Desk, Turns};
use spl_flusher::{Flushed, flush_to};
use spl_grower::{Grown, split_child};
use spl_message::MergeLaw;
use spl_pager::Pager;
use spl_port::Port;
use spl_state::View;

/// Merges the newest bundle of the node, if it has more than one branch and nobody merges it.
fn tidy<T: Turns<Branch<P::Seal>>, P: Port, G: Pager, L: MergeLaw>(
    desk: &mut Desk<'_, T, P, G, L>,
    node: u32,
) -> Result<(), CallFault>
    requires turns { (T.means desk.old.turns).turns < 2 ^ 41 }
    requires ready { T.ready desk.old.turns }
    requires seen { HasSeen (T.saw desk.old.turns) }
    requires nothing { MayCall (T.means desk.old.turns) }
    requires law { L.rule desk.old.law.now ≡ (T.means desk.old.turns).rule }
    requires lawful { L.ready desk.old.law.now }
    requires known { node < told_by (T.means desk.old.turns) }
    ensures worked { HasWorked (branch_kind P.Seal.TELLS) (T.means desk.old.turns) (T.saw desk.old.turns)
        (T.means desk.new.turns) (T.saw desk.new.turns) (P.counts desk.old.port.now) (P.counts desk.new.port.now) }
    ensures ready { T.ready desk.new.turns }
    ensures went { OnOk result (HasGoneOn (T.means desk.old.turns) (T.means desk.new.turns)) }
    ensures err_few { OnErr result (MadeFew (T.means desk.old.turns) (T.means desk.new.turns) 1) }
    ensures law { desk.new.law.now ≡ desk.old.law.now }
    ensures pager { desk.new.pager.now ≡ desk.old.pager.now }
    ensures device { desk.new.port.ghost_name ≡ desk.old.port.ghost_name }
    ensures faults { OnOk result ((P.counts desk.new.port.now).faults ≡ (P.counts desk.old.port.now).faults) }
    ensures cause { IfErr result (HasWorkCause (branch_kind P.Seal.TELLS) (T.means desk.old.turns)
        (T.saw desk.old.turns) (T.means desk.new.turns) (T.saw desk.new.turns)
        (P.counts desk.old.port.now) (P.counts desk.new.port.now)) }
{
    let view = look(&mut desk.turns, node)?;
    let Some(number) = newest_wide(&view) else {
        return Ok(());
    };
    merge_run(desk, node, Run::of_one(number))?;
    Ok(())
}

/// Flushes the bundles of the part to its child.
fn flush<T: Turns<Branch<P::Seal>>, P: Port, G: Pager, L: MergeLaw>(
    desk: &mut Desk<'_, T, P, G, L>,
    node: u32,
    view: &View,
    way: Way,
) -> Result<Relief, CallFault>
    requires turns { (T.means desk.old.turns).turns < 2 ^ 41 }
    requires ready { T.ready desk.old.turns }
    requires seen { HasSeen (T.saw desk.old.turns) }
    requires nothing { MayCall (T.means desk.old.turns) }
    requires law { L.rule desk.old.law.now ≡ (T.means desk.old.turns).rule }
    requires lawful { L.ready desk.old.law.now }
    requires way { IsWay (T.means desk.old.turns) node way }
    ensures worked { HasWorked (branch_kind P.Seal.TELLS) (T.means desk.old.turns) (T.saw desk.old.turns)
        (T.means desk.new.turns) (T.saw desk.new.turns) (P.counts desk.old.port.now) (P.counts desk.new.port.now) }
    ensures ready { T.ready desk.new.turns }
    ensures went { OnOk result (HasGoneOn (T.means desk.old.turns) (T.means desk.new.turns)) }
    ensures err_few { OnErr result (MadeFew (T.means desk.old.turns) (T.means desk.new.turns) 1) }
    ensures law { desk.new.law.now ≡ desk.old.law.now }
    ensures pager { desk.new.pager.now ≡ desk.old.pager.now }
    ensures device { desk.new.port.ghost_name ≡ desk.old.port.ghost_name }
    ensures made { IfOk result (WasPassed (branch_kind P.Seal.TELLS) (T.means desk.old.turns)
        (T.saw desk.old.turns) (T.means desk.new.turns) (T.saw desk.new.turns)) }
    ensures faults { OnOk result ((P.counts desk.new.port.now).faults ≡ (P.counts desk.old.port.now).faults) }
    ensures cause { IfErr result (HasWorkCause (branch_kind P.Seal.TELLS) (T.means desk.old.turns)
        (T.saw desk.old.turns) (T.means desk.new.turns) (T.saw desk.new.turns)
        (P.counts desk.old.port.now) (P.counts desk.new.port.now)) }
{
    let child = way.child;
    match flush_to(&mut desk.turns, node, child)? {
        Flushed::Done => {
            tidy(desk, child)?;
            Ok(Relief::Flushed)
        }
        Flushed::NeedsRoom => Ok(Relief::Below { child }),
        // There are fewer branches to flush once a bundle that is live for the part is merged.
        Flushed::NeedsCompact { .. } => match first_wide(view, way.mark) {
            Some(number) => merge_run(desk, node, Run::of_one(number)),
            None => Ok(Relief::Stale),
        },
        Flushed::Moved | Flushed::Busy => Ok(Relief::Stale),
    }
}

/// Flushes the bundles of the part to its child, which was seen with room for one more.
fn flush_where_room<T: Turns<Branch<P::Seal>>, P: Port, G: Pager, L: MergeLaw>(
    desk: &mut Desk<'_, T, P, G, L>,
    node: u32,
    view: &View,
    below: &View,
    way: Way,
) -> Result<Relief, CallFault>
    requires turns { (T.means desk.old.turns).turns < 2 ^ 41 }
    requires ready { T.ready desk.old.turns }
    requires seen { HasSeen (T.saw desk.old.turns) }
    requires nothing { MayCall (T.means desk.old.turns) }
    requires law { L.rule desk.old.law.now ≡ (T.means desk.old.turns).rule }
    requires lawful { L.ready desk.old.law.now }
    requires way { IsWay (T.means desk.old.turns) node way }
    ensures worked { HasWorked (branch_kind P.Seal.TELLS) (T.means desk.old.turns) (T.saw desk.old.turns)
        (T.means desk.new.turns) (T.saw desk.new.turns) (P.counts desk.old.port.now) (P.counts desk.new.port.now) }
    ensures ready { T.ready desk.new.turns }
    ensures went { OnOk result (HasGoneOn (T.means desk.old.turns) (T.means desk.new.turns)) }
    ensures err_few { OnErr result (MadeFew (T.means desk.old.turns) (T.means desk.new.turns) 1) }
    ensures law { desk.new.law.now ≡ desk.old.law.now }
    ensures pager { desk.new.pager.now ≡ desk.old.pager.now }
    ensures device { desk.new.port.ghost_name ≡ desk.old.port.ghost_name }
    ensures made { IfOk result (WasPassed (branch_kind P.Seal.TELLS) (T.means desk.old.turns)
        (T.saw desk.old.turns) (T.means desk.new.turns) (T.saw desk.new.turns)) }
    ensures faults { OnOk result ((P.counts desk.new.port.now).faults ≡ (P.counts desk.old.port.now).faults) }
    ensures cause { IfErr result (HasWorkCause (branch_kind P.Seal.TELLS) (T.means desk.old.turns)
        (T.saw desk.old.turns) (T.means desk.new.turns) (T.saw desk.new.turns)
        (P.counts desk.old.port.now) (P.counts desk.new.port.now)) }
{
    if below.bundles.as_slice().len() < MAX_LISTS {
        flush(desk, node, view, way)
    } else {
        Ok(Relief::Below { child: way.child })
    }
}

/// Splits the child, which was seen to be too big. If the node can't have one more child, it flushes to this one
/// instead.
fn split_or_flush<T: Turns<Branch<P::Seal>>, P: Port, G: Pager, L: MergeLaw>(
    desk: &mut Desk<'_, T, P, G, L>,
    node: u32,
    view: &View,
    below: &View,
    way: Way,
) -> Result<Relief, CallFault>
    requires turns { (T.means desk.old.turns).turns < 2 ^ 41 }
    requires ready { T.ready desk.old.turns }
    requires seen { HasSeen (T.saw desk.old.turns) }
    requires nothing { MayCall (T.means desk.old.turns) }
    requires law { L.rule desk.old.law.now ≡ (T.means desk.old.turns).rule }
    requires lawful { L.ready desk.old.law.now }
    requires way { IsWay (T.means desk.old.turns) node way }
    ensures worked { HasWorked (branch_kind P.Seal.TELLS) (T.means desk.old.turns) (T.saw desk.old.turns)
        (T.means desk.new.turns) (T.saw desk.new.turns) (P.counts desk.old.port.now) (P.counts desk.new.port.now) }
    ensures ready { T.ready desk.new.turns }
    ensures went { OnOk result (HasGoneOn (T.means desk.old.turns) (T.means desk.new.turns)) }
    ensures err_few { OnErr result (MadeFew (T.means desk.old.turns) (T.means desk.new.turns) 1) }
    ensures law { desk.new.law.now ≡ desk.old.law.now }
    ensures pager { desk.new.pager.now ≡ desk.old.pager.now }
    ensures device { desk.new.port.ghost_name ≡ desk.old.port.ghost_name }
    ensures made { IfOk result (WasPassed (branch_kind P.Seal.TELLS) (T.means desk.old.turns)
        (T.saw desk.old.turns) (T.means desk.new.turns) (T.saw desk.new.turns)) }
    ensures faults { OnOk result ((P.counts desk.new.port.now).faults ≡ (P.counts desk.old.port.now).faults) }
    ensures cause { IfErr result (HasWorkCause (branch_kind P.Seal.TELLS) (T.means desk.old.turns)
        (T.saw desk.old.turns) (T.means desk.new.turns) (T.saw desk.new.turns)
        (P.counts desk.old.port.now) (P.counts desk.new.port.now)) }
{
    match split_child(&mut desk.turns, node, way.child)? {
        Grown::Done => Ok(Relief::Grown),
        Grown::Full => flush_where_room(desk, node, view, below, way),
        Grown::Unneeded | Grown::Moved | Grown::Busy => Ok(Relief::Stale),
    }
}

/// Does what the child needs, as a survey shows it.
fn go_down<T: Turns<Branch<P::Seal>>, P: Port, G: Pager, L: MergeLaw>(
    desk: &mut Desk<'_, T, P, G, L>,
    node: u32,
    view: &View,
    below: &View,
    way: Way,
) -> Result<Relief, CallFault>
    requires turns { (T.means desk.old.turns).turns < 2 ^ 41 }
    requires ready { T.ready desk.old.turns }
    requires seen { HasSeen (T.saw desk.old.turns) }
    requires nothing { MayCall (T.means desk.old.turns) }
    requires law { L.rule desk.old.law.now ≡ (T.means desk.old.turns).rule }
    requires lawful { L.ready desk.old.law.now }
    requires way { IsWay (T.means desk.old.turns) node way }
    ensures worked { HasWorked (branch_kind P.Seal.TELLS) (T.means desk.old.turns) (T.saw desk.old.turns)
        (T.means desk.new.turns) (T.saw desk.new.turns) (P.counts desk.old.port.now) (P.counts desk.new.port.now) }
    ensures ready { T.ready desk.new.turns }
    ensures went { OnOk result (HasGoneOn (T.means desk.old.turns) (T.means desk.new.turns)) }
    ensures err_few { OnErr result (MadeFew (T.means desk.old.turns) (T.means desk.new.turns) 1) }
    ensures law { desk.new.law.now ≡ desk.old.law.now }
    ensures pager { desk.new.pager.now ≡ desk.old.pager.now }
    ensures device { desk.new.port.ghost_name ≡ desk.old.port.ghost_name }
    ensures made { IfOk result (WasPassed (branch_kind P.Seal.TELLS) (T.means desk.old.turns)
        (T.saw desk.old.turns) (T.means desk.new.turns) (T.saw desk.new.turns)) }
    ensures faults { OnOk result ((P.counts desk.new.port.now).faults ≡ (P.counts desk.old.port.now).faults) }
    ensures cause { IfErr result (HasWorkCause (branch_kind P.Seal.TELLS) (T.means desk.old.turns)
        (T.saw desk.old.turns) (T.means desk.new.turns) (T.saw desk.new.turns)
        (P.counts desk.old.port.now) (P.counts desk.new.port.now)) }
{
    if below.split.is_some() {
        split_or_flush(desk, node, view, below, way)
    } else {
        flush_where_room(desk, node, view, below, way)
    }
}

/// Flushes the bundles of the part to its child, or does first what the child needs.
pub(crate) fn pass_down<T: Turns<Branch<P::Seal>>, P: Port, G: Pager, L: MergeLaw>(
    desk: &mut Desk<'_, T, P, G, L>,
    node: u32,
    view: &View,
    way: Way,
) -> Result<Relief, CallFault>
    requires turns { (T.means desk.old.turns).turns < 2 ^ 41 }
    requires ready { T.ready desk.old.turns }
    requires seen { HasSeen (T.saw desk.old.turns) }
    requires nothing { MayCall (T.means desk.old.turns) }
    requires law { L.rule desk.old.law.now ≡ (T.means desk.old.turns).rule }
    requires lawful { L.ready desk.old.law.now }
    requires way { IsWay (T.means desk.old.turns) node way }
    ensures worked { HasWorked (branch_kind P.Seal.TELLS) (T.means desk.old.turns) (T.saw desk.old.turns)
        (T.means desk.new.turns) (T.saw desk.new.turns) (P.counts desk.old.port.now) (P.counts desk.new.port.now) }
    ensures ready { T.ready desk.new.turns }
    ensures went { OnOk result (HasGoneOn (T.means desk.old.turns) (T.means desk.new.turns)) }
    ensures err_few { OnErr result (MadeFew (T.means desk.old.turns) (T.means desk.new.turns) 1) }
    ensures law { desk.new.law.now ≡ desk.old.law.now }
    ensures pager { desk.new.pager.now ≡ desk.old.pager.now }
    ensures device { desk.new.port.ghost_name ≡ desk.old.port.ghost_name }
    ensures made { IfOk result (WasPassed (branch_kind P.Seal.TELLS) (T.means desk.old.turns)
        (T.saw desk.old.turns) (T.means desk.new.turns) (T.saw desk.new.turns)) }
    ensures faults { OnOk result ((P.counts desk.new.port.now).faults ≡ (P.counts desk.old.port.now).faults) }
    ensures cause { IfErr result (HasWorkCause (branch_kind P.Seal.TELLS) (T.means desk.old.turns)
        (T.saw desk.old.turns) (T.means desk.new.turns) (T.saw desk.new.turns)
        (P.counts desk.old.port.now) (P.counts desk.new.port.now)) }
{
    let below = look(&mut desk.turns, way.child)?;
    go_down(desk, node, view, &below, way)
}
