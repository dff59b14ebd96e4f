//! One piece of work that is to give a node room.
ghost use Rattle.std.specs.Prelude.{◌≡◌, ◌<◌, ◌^◌, IfErr, IfOk, OnErr, OnOk};
ghost use Rattle.spl_desk.specs.Branches.{branch_kind};
ghost use Rattle.spl_desk.specs.Calls.{HasSeen, MadeFew, MayCall};
ghost use Rattle.spl_desk.specs.Quiet.{HasWorkCause};
ghost use Rattle.spl_job.specs.Holding.{told_by};
ghost use Rattle.spl_worker.specs.Plans.{IsNamed, IsPlanned};
ghost use Rattle.spl_worker.specs.Reliefs.{WasPassed, WasRelieved, raised_relief};
ghost use Rattle.spl_worker.specs.Working.{HasGoneOn, HasWorked};

use crate::look::look;
use crate::merge::merge_run;
use crate::passing::pass_down;
use crate::plan::{Plan, plan_of};
use crate::relief::Relief;
use spl_branch::Branch;
use spl_desk::{CallFault, Desk, Turns};
use spl_grower::{Grown, raise_root};
use spl_message::MergeLaw;
use spl_pager::Pager;
use spl_port::Port;
use spl_state::View;

/// The result of raising the root, for the node.
fn raised_relief(grown: Grown) -> Relief
    ensures { result ≡ raised_relief grown }
{
    match grown {
        Grown::Done => Relief::Grown,
        Grown::Unneeded | Grown::Full | Grown::Moved | Grown::Busy => Relief::Stale,
    }
}

/// Raises the root.
fn raise<T: Turns<Branch<P::Seal>>, P: Port, G: Pager, L: MergeLaw>(
    desk: &mut Desk<'_, T, P, G, L>,
) -> Result<Relief, CallFault>
    requires turns { (T.means desk.old.turns).turns < 2 ^ 41 }
    requires ready { T.ready desk.old.turns }
    requires seen { HasSeen (T.saw desk.old.turns) }
    requires nothing { MayCall (T.means desk.old.turns) }
    requires law { L.rule desk.old.law.now ≡ (T.means desk.old.turns).rule }
    requires lawful { L.ready desk.old.law.now }
    requires known { 0 < told_by (T.means desk.old.turns) }
    ensures worked { HasWorked (branch_kind P.Seal.TELLS) (T.means desk.old.turns) (T.saw desk.old.turns)
        (T.means desk.new.turns) (T.saw desk.new.turns) (P.counts desk.old.port.now) (P.counts desk.new.port.now) }
    ensures ready { T.ready desk.new.turns }
    ensures went { OnOk result (HasGoneOn (T.means desk.old.turns) (T.means desk.new.turns)) }
    ensures err_few { OnErr result (MadeFew (T.means desk.old.turns) (T.means desk.new.turns) 1) }
    ensures law { desk.new.law.now ≡ desk.old.law.now }
    ensures pager { desk.new.pager.now ≡ desk.old.pager.now }
    ensures device { desk.new.port.ghost_name ≡ desk.old.port.ghost_name }
    ensures made { IfOk result (WasPassed (branch_kind P.Seal.TELLS) (T.means desk.old.turns)
        (T.saw desk.old.turns) (T.means desk.new.turns) (T.saw desk.new.turns)) }
    ensures faults { OnOk result ((P.counts desk.new.port.now).faults ≡ (P.counts desk.old.port.now).faults) }
    ensures cause { IfErr result (HasWorkCause (branch_kind P.Seal.TELLS) (T.means desk.old.turns)
        (T.saw desk.old.turns) (T.means desk.new.turns) (T.saw desk.new.turns)
        (P.counts desk.old.port.now) (P.counts desk.new.port.now)) }
{
    Ok(raised_relief(raise_root(&mut desk.turns)?))
}

/// Does what is to be done about the node.
fn carry_out<T: Turns<Branch<P::Seal>>, P: Port, G: Pager, L: MergeLaw>(
    desk: &mut Desk<'_, T, P, G, L>,
    node: u32,
    view: &View,
    plan: Plan,
) -> Result<Relief, CallFault>
    requires turns { (T.means desk.old.turns).turns < 2 ^ 41 }
    requires ready { T.ready desk.old.turns }
    requires seen { HasSeen (T.saw desk.old.turns) }
    requires nothing { MayCall (T.means desk.old.turns) }
    requires law { L.rule desk.old.law.now ≡ (T.means desk.old.turns).rule }
    requires lawful { L.ready desk.old.law.now }
    requires known { node < told_by (T.means desk.old.turns) }
    requires planned { IsPlanned (T.means desk.old.turns) node plan }
    ensures worked { HasWorked (branch_kind P.Seal.TELLS) (T.means desk.old.turns) (T.saw desk.old.turns)
        (T.means desk.new.turns) (T.saw desk.new.turns) (P.counts desk.old.port.now) (P.counts desk.new.port.now) }
    ensures ready { T.ready desk.new.turns }
    ensures went { OnOk result (HasGoneOn (T.means desk.old.turns) (T.means desk.new.turns)) }
    ensures err_few { OnErr result (MadeFew (T.means desk.old.turns) (T.means desk.new.turns) 1) }
    ensures law { desk.new.law.now ≡ desk.old.law.now }
    ensures pager { desk.new.pager.now ≡ desk.old.pager.now }
    ensures device { desk.new.port.ghost_name ≡ desk.old.port.ghost_name }
    ensures made { IfOk result (WasPassed (branch_kind P.Seal.TELLS) (T.means desk.old.turns)
        (T.saw desk.old.turns) (T.means desk.new.turns) (T.saw desk.new.turns)) }
    ensures faults { OnOk result ((P.counts desk.new.port.now).faults ≡ (P.counts desk.old.port.now).faults) }
    ensures cause { IfErr result (HasWorkCause (branch_kind P.Seal.TELLS) (T.means desk.old.turns)
        (T.saw desk.old.turns) (T.means desk.new.turns) (T.saw desk.new.turns)
        (P.counts desk.old.port.now) (P.counts desk.new.port.now)) }
{
    match plan {
        Plan::Raise => raise(desk),
        Plan::Merge(run) => merge_run(desk, node, run),
        Plan::Pass(way) => pass_down(desk, node, view, way),
    }
}

/// Surveys the node, and does one piece of work if it has so many bundles or more, or is a root that is to be raised.
pub(crate) fn relieve<T: Turns<Branch<P::Seal>>, P: Port, G: Pager, L: MergeLaw>(
    desk: &mut Desk<'_, T, P, G, L>,
    node: u32,
    least: usize,
) -> Result<Relief, CallFault>
    requires least { 0 < least }
    requires turns { (T.means desk.old.turns).turns < 2 ^ 41 }
    requires ready { T.ready desk.old.turns }
    requires seen { HasSeen (T.saw desk.old.turns) }
    requires nothing { MayCall (T.means desk.old.turns) }
    requires law { L.rule desk.old.law.now ≡ (T.means desk.old.turns).rule }
    requires lawful { L.ready desk.old.law.now }
    requires known { IsNamed (T.means desk.old.turns) node }
    ensures worked { HasWorked (branch_kind P.Seal.TELLS) (T.means desk.old.turns) (T.saw desk.old.turns)
        (T.means desk.new.turns) (T.saw desk.new.turns) (P.counts desk.old.port.now) (P.counts desk.new.port.now) }
    ensures ready { T.ready desk.new.turns }
    ensures went { OnOk result (HasGoneOn (T.means desk.old.turns) (T.means desk.new.turns)) }
    ensures err_few { OnErr result (MadeFew (T.means desk.old.turns) (T.means desk.new.turns) 1) }
    ensures law { desk.new.law.now ≡ desk.old.law.now }
    ensures pager { desk.new.pager.now ≡ desk.old.pager.now }
    ensures device { desk.new.port.ghost_name ≡ desk.old.port.ghost_name }
    ensures left { OnOk result ((T.means desk.old.turns).turns < (T.means desk.new.turns).turns) }
    ensures made { IfOk result (WasRelieved (branch_kind P.Seal.TELLS) (T.means desk.old.turns)
        (T.saw desk.old.turns) (T.means desk.new.turns) (T.saw desk.new.turns) node least) }
    ensures faults { OnOk result ((P.counts desk.new.port.now).faults ≡ (P.counts desk.old.port.now).faults) }
    ensures cause { IfErr result (HasWorkCause (branch_kind P.Seal.TELLS) (T.means desk.old.turns)
        (T.saw desk.old.turns) (T.means desk.new.turns) (T.saw desk.new.turns)
        (P.counts desk.old.port.now) (P.counts desk.new.port.now)) }
{
    let view = look(&mut desk.turns, node)?;
    match plan_of(node, &view, least) {
        Some(plan) => carry_out(desk, node, &view, plan),
        None => Ok(Relief::Room {
            running: view.running,
        }),
    }
}
