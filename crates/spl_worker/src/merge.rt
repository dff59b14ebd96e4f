//! How a run of bundles is merged.
ghost use Rattle.std.specs.Prelude.{◌≡◌, ◌<◌, ◌^◌, IfErr, IfOk, OnErr, OnOk};
ghost use Rattle.spl_desk.specs.Branches.{branch_kind};
ghost use Rattle.spl_desk.specs.Calls.{HasSeen, MadeFew, MayCall};
ghost use Rattle.spl_desk.specs.Quiet.{HasWorkCause};
ghost use Rattle.spl_job.specs.Holding.{told_by};
ghost use Rattle.spl_compactor.specs.Outcomes.{WasAskedFor};
ghost use Rattle.spl_worker.specs.Reliefs.{WasPassed, merged_relief};
ghost use Rattle.spl_worker.specs.Working.{HasGoneOn, HasWorked};

use crate::relief::Relief;
use crate::run::Run;
use spl_branch::Branch;
use spl_compactor::{Compacted, compact};
use spl_desk::{CallFault, Desk, Turns};
use spl_message::MergeLaw;
use spl_pager::Pager;
use spl_port::Port;

/// The result of a merge, for the node.
fn merged_relief(compacted: Compacted) -> Relief
    ensures { result ≡ merged_relief compacted }
{
    match compacted {
        Compacted::Done => Relief::Compacted,
        Compacted::Stale | Compacted::Gone | Compacted::Crossed | Compacted::Busy => Relief::Stale,
    }
}

/// Merges the run of the node into one branch.
pub(crate) fn merge_run<T: Turns<Branch<P::Seal>>, P: Port, G: Pager, L: MergeLaw>(
    desk: &mut Desk<'_, T, P, G, L>,
    node: u32,
    run: Run,
) -> Result<Relief, CallFault>
    requires turns { (T.means desk.old.turns).turns < 2 ^ 41 }
    requires ready { T.ready desk.old.turns }
    requires seen { HasSeen (T.saw desk.old.turns) }
    requires nothing { MayCall (T.means desk.old.turns) }
    requires law { L.rule desk.old.law.now ≡ (T.means desk.old.turns).rule }
    requires lawful { L.ready desk.old.law.now }
    requires known { node < told_by (T.means desk.old.turns) }
    ensures worked { HasWorked (branch_kind P.Seal.TELLS) (T.means desk.old.turns) (T.saw desk.old.turns)
        (T.means desk.new.turns) (T.saw desk.new.turns) (P.counts desk.old.port.now) (P.counts desk.new.port.now) }
    ensures ready { T.ready desk.new.turns }
    ensures went { OnOk result (HasGoneOn (T.means desk.old.turns) (T.means desk.new.turns)) }
    ensures err_few { OnErr result (MadeFew (T.means desk.old.turns) (T.means desk.new.turns) 1) }
    ensures law { desk.new.law.now ≡ desk.old.law.now }
    ensures pager { desk.new.pager.now ≡ desk.old.pager.now }
    ensures device { desk.new.port.ghost_name ≡ desk.old.port.ghost_name }
    ensures made { IfOk result (WasPassed (branch_kind P.Seal.TELLS) (T.means desk.old.turns)
        (T.saw desk.old.turns) (T.means desk.new.turns) (T.saw desk.new.turns)) }
    ensures asked { OnOk result (WasAskedFor (branch_kind P.Seal.TELLS) (T.means desk.old.turns)
        (T.saw desk.old.turns) (T.means desk.new.turns) (T.saw desk.new.turns) node run.first run.last) }
    ensures faults { OnOk result ((P.counts desk.new.port.now).faults ≡ (P.counts desk.old.port.now).faults) }
    ensures cause { IfErr result (HasWorkCause (branch_kind P.Seal.TELLS) (T.means desk.old.turns)
        (T.saw desk.old.turns) (T.means desk.new.turns) (T.saw desk.new.turns)
        (P.counts desk.old.port.now) (P.counts desk.new.port.now)) }
{
    Ok(merged_relief(compact(desk, node, run.first, run.last)?))
}
