ghost use Rattle.std.specs.Prelude.{◌≡◌, ◌<◌, ◌≤◌, ◌^◌, ℕ, IfErr, IfOk, OnErr, OnOk};
ghost use Rattle.spl_desk.specs.Branches.{branch_kind};
ghost use Rattle.spl_desk.specs.Calls.{HasSeen, MadeFew, MayCall, NeverFell};
ghost use Rattle.spl_desk.specs.Quiet.{HasWorkCause, IsQuiet};
ghost use Rattle.spl_compactor.specs.Compacting.{AfterWork, IsStarted, told_by};
ghost use Rattle.spl_compactor.specs.Outcomes.{WasAskedFor, WasCompacted, WasEnded};

use crate::Compacted;
use crate::merging::{merge, publish_output};
use crate::placing::place;
use spl_branch::Branch;
use spl_desk::{CallFault, Desk, Turns};
use spl_enter::check_turns;
use spl_job::merging::{Started, start};
use spl_job::steps::abandon;
use spl_message::MergeLaw;
use spl_pager::Pager;
use spl_port::Port;
use spl_state::Ticket;

/// Merges the run of the ticket, and replaces the run by the result.
fn work<T: Turns<Branch<P::Seal>>, P: Port, G: Pager, L: MergeLaw>(
    desk: &mut Desk<'_, T, P, G, L>,
    ticket: &Ticket<Branch<P::Seal>>,
) -> Result<Compacted, CallFault>
    requires turns { (T.means desk.old.turns).turns < 2 ^ 41 }
    requires ready { T.ready desk.old.turns }
    requires seen { HasSeen (T.saw desk.old.turns) }
    requires law { L.rule desk.old.law.now ≡ (T.means desk.old.turns).rule }
    requires lawful { L.ready desk.old.law.now }
    requires started { (least : ℕ) × (ticket.now.node < least) × IsStarted (T.means desk.old.turns) least ticket.now }
    ensures quiet { IsQuiet (branch_kind P.Seal.TELLS) (T.means desk.old.turns) (T.saw desk.old.turns)
        (T.means desk.new.turns) (T.saw desk.new.turns) }
    ensures few { MadeFew (T.means desk.old.turns) (T.means desk.new.turns) 0 }
    ensures ready { T.ready desk.new.turns }
    ensures law { desk.new.law.now ≡ desk.old.law.now }
    ensures pager { desk.new.pager.now ≡ desk.old.pager.now }
    ensures device { desk.new.port.ghost_name ≡ desk.old.port.ghost_name }
    ensures port { NeverFell (P.counts desk.old.port.now) (P.counts desk.new.port.now) }
    ensures worked { (least : ℕ) → ticket.now.node < least → IsStarted (T.means desk.old.turns) least ticket.now
        → IfOk result (AfterWork (T.means desk.new.turns) least) }
    ensures made { IfOk result (WasEnded (branch_kind P.Seal.TELLS) (T.means desk.old.turns)
        (T.saw desk.old.turns) (T.means desk.new.turns) (T.saw desk.new.turns)) }
    ensures faults { OnOk result ((P.counts desk.new.port.now).faults ≡ (P.counts desk.old.port.now).faults) }
    ensures cause { IfErr result (HasWorkCause (branch_kind P.Seal.TELLS) (T.means desk.old.turns)
        (T.saw desk.old.turns) (T.means desk.new.turns) (T.saw desk.new.turns)
        (P.counts desk.old.port.now) (P.counts desk.new.port.now)) }
{
    let output = merge(desk, ticket)?;
    let published = publish_output(desk.alloc, &mut desk.turns, output)?;
    place(&mut desk.turns, ticket.node, published)
}

/// Asks for the run, and works on it if the actor gets it.
fn inner<T: Turns<Branch<P::Seal>>, P: Port, G: Pager, L: MergeLaw>(
    desk: &mut Desk<'_, T, P, G, L>,
    node: u32,
    first: u64,
    last: u64,
) -> Result<Compacted, CallFault>
    requires turns { (T.means desk.old.turns).turns < 2 ^ 41 }
    requires ready { T.ready desk.old.turns }
    requires seen { HasSeen (T.saw desk.old.turns) }
    requires nothing { MayCall (T.means desk.old.turns) }
    requires law { L.rule desk.old.law.now ≡ (T.means desk.old.turns).rule }
    requires lawful { L.ready desk.old.law.now }
    requires known { node < told_by (T.means desk.old.turns) }
    ensures quiet { IsQuiet (branch_kind P.Seal.TELLS) (T.means desk.old.turns) (T.saw desk.old.turns)
        (T.means desk.new.turns) (T.saw desk.new.turns) }
    ensures few { MadeFew (T.means desk.old.turns) (T.means desk.new.turns) 0 }
    ensures ready { T.ready desk.new.turns }
    ensures left { OnOk result ((T.means desk.old.turns).turns < (T.means desk.new.turns).turns) }
    ensures law { desk.new.law.now ≡ desk.old.law.now }
    ensures pager { desk.new.pager.now ≡ desk.old.pager.now }
    ensures device { desk.new.port.ghost_name ≡ desk.old.port.ghost_name }
    ensures port { NeverFell (P.counts desk.old.port.now) (P.counts desk.new.port.now) }
    ensures worked { IfOk result (AfterWork (T.means desk.new.turns) (told_by (T.means desk.old.turns))) }
    ensures asked { OnOk result (WasAskedFor (branch_kind P.Seal.TELLS) (T.means desk.old.turns)
        (T.saw desk.old.turns) (T.means desk.new.turns) (T.saw desk.new.turns) node first last) }
    ensures made { IfOk result (WasCompacted (branch_kind P.Seal.TELLS) (T.means desk.old.turns)
        (T.saw desk.old.turns) (T.means desk.new.turns) (T.saw desk.new.turns) node first last) }
    ensures faults { OnOk result ((P.counts desk.new.port.now).faults ≡ (P.counts desk.old.port.now).faults) }
    ensures cause { IfErr result (HasWorkCause (branch_kind P.Seal.TELLS) (T.means desk.old.turns)
        (T.saw desk.old.turns) (T.means desk.new.turns) (T.saw desk.new.turns)
        (P.counts desk.old.port.now) (P.counts desk.new.port.now)) }
{
    check_turns(&desk.turns)?;
    match start(&mut desk.turns, node, first, last)? {
        Started::Ticket(ticket) => work(desk, &ticket),
        Started::Busy { .. } => Ok(Compacted::Busy),
        Started::Gone => Ok(Compacted::Gone),
        Started::Crossed => Ok(Compacted::Crossed),
    }
}

/// Merges the run, and gives back what the actor has if the run is stale.
fn attempt<T: Turns<Branch<P::Seal>>, P: Port, G: Pager, L: MergeLaw>(
    desk: &mut Desk<'_, T, P, G, L>,
    node: u32,
    first: u64,
    last: u64,
) -> Result<Compacted, CallFault>
    requires turns { (T.means desk.old.turns).turns < 2 ^ 41 }
    requires ready { T.ready desk.old.turns }
    requires seen { HasSeen (T.saw desk.old.turns) }
    requires nothing { MayCall (T.means desk.old.turns) }
    requires law { L.rule desk.old.law.now ≡ (T.means desk.old.turns).rule }
    requires lawful { L.ready desk.old.law.now }
    requires known { node < told_by (T.means desk.old.turns) }
    ensures quiet { IsQuiet (branch_kind P.Seal.TELLS) (T.means desk.old.turns) (T.saw desk.old.turns)
        (T.means desk.new.turns) (T.saw desk.new.turns) }
    ensures few { MadeFew (T.means desk.old.turns) (T.means desk.new.turns) 0 }
    ensures ready { T.ready desk.new.turns }
    ensures nothing { OnOk result (MayCall (T.means desk.new.turns)) }
    ensures told { OnOk result (told_by (T.means desk.old.turns) ≤ told_by (T.means desk.new.turns)) }
    ensures left { OnOk result ((T.means desk.old.turns).turns < (T.means desk.new.turns).turns) }
    ensures law { desk.new.law.now ≡ desk.old.law.now }
    ensures pager { desk.new.pager.now ≡ desk.old.pager.now }
    ensures device { desk.new.port.ghost_name ≡ desk.old.port.ghost_name }
    ensures port { NeverFell (P.counts desk.old.port.now) (P.counts desk.new.port.now) }
    ensures asked { OnOk result (WasAskedFor (branch_kind P.Seal.TELLS) (T.means desk.old.turns)
        (T.saw desk.old.turns) (T.means desk.new.turns) (T.saw desk.new.turns) node first last) }
    ensures made { IfOk result (WasCompacted (branch_kind P.Seal.TELLS) (T.means desk.old.turns)
        (T.saw desk.old.turns) (T.means desk.new.turns) (T.saw desk.new.turns) node first last) }
    ensures faults { OnOk result ((P.counts desk.new.port.now).faults ≡ (P.counts desk.old.port.now).faults) }
    ensures cause { IfErr result (HasWorkCause (branch_kind P.Seal.TELLS) (T.means desk.old.turns)
        (T.saw desk.old.turns) (T.means desk.new.turns) (T.saw desk.new.turns)
        (P.counts desk.old.port.now) (P.counts desk.new.port.now)) }
{
    match inner(desk, node, first, last)? {
        Compacted::Stale => {
            check_turns(&desk.turns)?;
            abandon(&mut desk.turns);
            Ok(Compacted::Stale)
        }
        other => Ok(other),
    }
}

/// Merges the bundles of the node from `first` up to `last` into one branch, which replaces them. The actor has nothing
/// before and afterwards.
pub fn compact<T: Turns<Branch<P::Seal>>, P: Port, G: Pager, L: MergeLaw>(
    desk: &mut Desk<'_, T, P, G, L>,
    node: u32,
    first: u64,
    last: u64,
) -> Result<Compacted, CallFault>
    requires turns { (T.means desk.old.turns).turns < 2 ^ 41 }
    requires ready { T.ready desk.old.turns }
    requires seen { HasSeen (T.saw desk.old.turns) }
    requires nothing { MayCall (T.means desk.old.turns) }
    requires law { L.rule desk.old.law.now ≡ (T.means desk.old.turns).rule }
    requires lawful { L.ready desk.old.law.now }
    requires known { node < told_by (T.means desk.old.turns) }
    ensures quiet { IsQuiet (branch_kind P.Seal.TELLS) (T.means desk.old.turns) (T.saw desk.old.turns)
        (T.means desk.new.turns) (T.saw desk.new.turns) }
    ensures nothing { MayCall (T.means desk.new.turns) }
    ensures ready { T.ready desk.new.turns }
    ensures ok_few { OnOk result (MadeFew (T.means desk.old.turns) (T.means desk.new.turns) 0) }
    ensures err_few { OnErr result (MadeFew (T.means desk.old.turns) (T.means desk.new.turns) 1) }
    ensures left { OnOk result ((T.means desk.old.turns).turns < (T.means desk.new.turns).turns) }
    ensures told { OnOk result (told_by (T.means desk.old.turns) ≤ told_by (T.means desk.new.turns)) }
    ensures law { desk.new.law.now ≡ desk.old.law.now }
    ensures pager { desk.new.pager.now ≡ desk.old.pager.now }
    ensures device { desk.new.port.ghost_name ≡ desk.old.port.ghost_name }
    ensures port { NeverFell (P.counts desk.old.port.now) (P.counts desk.new.port.now) }

    // A turn of this call asked for this run; and one served the last node that had the run, or found no node with it,
    // or refused it.
    ensures asked { OnOk result (WasAskedFor (branch_kind P.Seal.TELLS) (T.means desk.old.turns)
        (T.saw desk.old.turns) (T.means desk.new.turns) (T.saw desk.new.turns) node first last) }
    ensures made { IfOk result (WasCompacted (branch_kind P.Seal.TELLS) (T.means desk.old.turns)
        (T.saw desk.old.turns) (T.means desk.new.turns) (T.saw desk.new.turns) node first last) }
    ensures faults { OnOk result ((P.counts desk.new.port.now).faults ≡ (P.counts desk.old.port.now).faults) }
    ensures cause { IfErr result (HasWorkCause (branch_kind P.Seal.TELLS) (T.means desk.old.turns)
        (T.saw desk.old.turns) (T.means desk.new.turns) (T.saw desk.new.turns)
        (P.counts desk.old.port.now) (P.counts desk.new.port.now)) }
{
    match attempt(desk, node, first, last) {
        Ok(compacted) => Ok(compacted),
        Err(fault) => {
            abandon(&mut desk.turns);
            Err(fault)
        }
    }
}
