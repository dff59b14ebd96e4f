ghost use Rattle.std.specs.Prelude.{◌≡◌, ◌<◌, ◌≤◌, ◌^◌, [], false, true, IfErr, IfOk, OnErr, OnOk};
ghost use Rattle.spl_message.specs.History.{History};
ghost use Rattle.spl_holds.specs.declared.grip.Grip.TheVariants.{Free};
ghost use Rattle.spl_state.specs.View.{branch_data};
ghost use Rattle.spl_desk.specs.Branches.{branch_kind};
ghost use Rattle.spl_desk.specs.Calls.{HasSeen, MadeFew, MayCall, NeverFell};
ghost use Rattle.spl_desk.specs.Holder.{kind_of};
ghost use Rattle.spl_desk.specs.Quiet.{HasWorkCause, IsQuiet, WasMade};
ghost use Rattle.spl_enter.specs.Turning.{HasTurnCause};
ghost use Rattle.spl_job.specs.Holding.{Holding, IsHolding};
ghost use Rattle.spl_job.specs.Merging.{IsHoldingOn};
ghost use Rattle.spl_packer.specs.Outcomes.{ShowsFull, ShowsRoom, WasPacked, WroteWithRoom};
ghost use Rattle.spl_packer.specs.Packs.{AfterHang, AfterPack, HasPicked, is_over};

use crate::Packed;
use crate::build::{build, publish_built};
use crate::hang::hang;
use spl_branch::Branch;
use spl_bundle::MAX_LISTS;
use spl_desk::{CallFault, Desk, Turns};
use spl_enter::check_turns;
use spl_job::merging::survey;
use spl_job::steps::{Picked, abandon, pick};
use spl_message::{Content, MergeLaw};
use spl_pager::Pager;
use spl_port::Port;

/// The root of the trunk.
const ROOT: u32 = 0;

/// Whether the root has as many bundles as it can have.
fn is_root_full<B: Content, T: Turns<B>>(turns: &mut T) -> Result<bool, CallFault>
    requires turns { (T.means turns.old).turns < 2 ^ 41 }
    requires ready { T.ready turns.old }
    requires seen { HasSeen (T.saw turns.old) }
    requires holds { (holding : Holding) × IsHolding (T.means turns.old) holding }
    ensures quiet { IsQuiet (kind_of B.number (branch_data B.extents B.entries B.cuts B.table) B.TELLS)
        (T.means turns.old) (T.saw turns.old) (T.means turns.new) (T.saw turns.new) }
    ensures few { MadeFew (T.means turns.old) (T.means turns.new) 0 }
    ensures ready { T.ready turns.new }
    ensures holds { (holding : Holding) → IsHolding (T.means turns.old) holding
        → OnOk result (IsHoldingOn (T.means turns.new) holding) }
    ensures full { IfOk result (λ full. full ≡ true → (history : History) → T.saw turns.old history → WasMade
        (kind_of B.number (branch_data B.extents B.entries B.cuts B.table) B.TELLS)
        (T.means turns.old) history (T.means turns.new) (T.saw turns.new) ShowsFull) }
    ensures room { IfOk result (λ full. full ≡ false → (history : History) → T.saw turns.old history → WasMade
        (kind_of B.number (branch_data B.extents B.entries B.cuts B.table) B.TELLS)
        (T.means turns.old) history (T.means turns.new) (T.saw turns.new) ShowsRoom) }
    ensures left { OnOk result ((T.means turns.old).turns < (T.means turns.new).turns) }
    ensures cause { IfErr result (HasTurnCause (T.means turns.new)) }
{
    check_turns(turns)?;
    let _ = turns.actor();
    let view = survey(turns, ROOT)?;
    Ok(view.bundles.as_slice().len() >= MAX_LISTS)
}

/// Writes the branch of the picked table, and hangs it at the root.
fn pack_picked<T: Turns<Branch<P::Seal>>, P: Port, G: Pager, L: MergeLaw>(
    desk: &mut Desk<'_, T, P, G, L>,
    picked: &Picked,
) -> Result<Packed, CallFault>
    requires turns { (T.means desk.old.turns).turns < 2 ^ 41 }
    requires ready { T.ready desk.old.turns }
    requires seen { HasSeen (T.saw desk.old.turns) }
    requires picked { HasPicked (T.means desk.old.turns) picked.now [] }
    ensures quiet { IsQuiet (branch_kind P.Seal.TELLS)
        (T.means desk.old.turns) (T.saw desk.old.turns) (T.means desk.new.turns) (T.saw desk.new.turns) }
    ensures ready { T.ready desk.new.turns }
    ensures few { MadeFew (T.means desk.old.turns) (T.means desk.new.turns) 0 }
    ensures law { desk.new.law.now ≡ desk.old.law.now }
    ensures pager { desk.new.pager.now ≡ desk.old.pager.now }
    ensures device { desk.new.port.ghost_name ≡ desk.old.port.ghost_name }
    ensures port { NeverFell (P.counts desk.old.port.now) (P.counts desk.new.port.now) }
    ensures hung { AfterHang (T.means desk.new.turns) result }
    ensures made { IfOk result (WasPacked (branch_kind P.Seal.TELLS)
        (T.means desk.old.turns) (T.saw desk.old.turns) (T.means desk.new.turns) (T.saw desk.new.turns)) }
    ensures looked { WroteWithRoom (branch_kind P.Seal.TELLS) (T.means desk.old.turns) (T.saw desk.old.turns)
        (T.means desk.new.turns) (T.saw desk.new.turns) (P.counts desk.old.port.now) (P.counts desk.new.port.now) }
    ensures faults { OnOk result ((P.counts desk.new.port.now).faults ≡ (P.counts desk.old.port.now).faults) }
    ensures cause { IfErr result (HasWorkCause (branch_kind P.Seal.TELLS)
        (T.means desk.old.turns) (T.saw desk.old.turns) (T.means desk.new.turns) (T.saw desk.new.turns)
        (P.counts desk.old.port.now) (P.counts desk.new.port.now)) }
{
    // Checked before the first page is written, since a branch that finds no room is written in vain.
    if is_root_full(&mut desk.turns)? {
        return Ok(Packed::NeedsFlush);
    }
    let branch = build(desk.alloc, &mut desk.turns, desk.port, picked)?;
    publish_built(desk.alloc, &mut desk.turns, branch)?;
    hang(&mut desk.turns)
}

/// Packs the oldest frozen memtable that nobody picked, as far as that goes.
fn pack_oldest<T: Turns<Branch<P::Seal>>, P: Port, G: Pager, L: MergeLaw>(
    desk: &mut Desk<'_, T, P, G, L>,
) -> Result<Packed, CallFault>
    requires turns { (T.means desk.old.turns).turns < 2 ^ 41 }
    requires ready { T.ready desk.old.turns }
    requires seen { HasSeen (T.saw desk.old.turns) }
    requires nothing { MayCall (T.means desk.old.turns) }
    ensures quiet { IsQuiet (branch_kind P.Seal.TELLS)
        (T.means desk.old.turns) (T.saw desk.old.turns) (T.means desk.new.turns) (T.saw desk.new.turns) }
    ensures ready { T.ready desk.new.turns }
    ensures few { MadeFew (T.means desk.old.turns) (T.means desk.new.turns) 0 }
    ensures left { OnOk result ((T.means desk.old.turns).turns < (T.means desk.new.turns).turns) }
    ensures law { desk.new.law.now ≡ desk.old.law.now }
    ensures pager { desk.new.pager.now ≡ desk.old.pager.now }
    ensures device { desk.new.port.ghost_name ≡ desk.old.port.ghost_name }
    ensures port { NeverFell (P.counts desk.old.port.now) (P.counts desk.new.port.now) }
    ensures packed { AfterPack (T.means desk.new.turns) result }
    ensures made { IfOk result (WasPacked (branch_kind P.Seal.TELLS)
        (T.means desk.old.turns) (T.saw desk.old.turns) (T.means desk.new.turns) (T.saw desk.new.turns)) }
    ensures looked { WroteWithRoom (branch_kind P.Seal.TELLS) (T.means desk.old.turns) (T.saw desk.old.turns)
        (T.means desk.new.turns) (T.saw desk.new.turns) (P.counts desk.old.port.now) (P.counts desk.new.port.now) }
    ensures faults { OnOk result ((P.counts desk.new.port.now).faults ≡ (P.counts desk.old.port.now).faults) }
    ensures cause { IfErr result (HasWorkCause (branch_kind P.Seal.TELLS)
        (T.means desk.old.turns) (T.saw desk.old.turns) (T.means desk.new.turns) (T.saw desk.new.turns)
        (P.counts desk.old.port.now) (P.counts desk.new.port.now)) }
{
    check_turns(&desk.turns)?;
    match pick(&mut desk.turns)? {
        Some(picked) => pack_picked(desk, &picked),
        None => Ok(Packed::Nothing),
    }
}

/// Whether nothing of the job is left to be given back.
fn is_over(packed: Packed) -> bool
    ensures { result ≡ is_over packed }
{
    matches!(packed, Packed::Done | Packed::Nothing)
}

/// Does the same, and stops if the holder has no steps left to give back what the actor has.
fn pack_or_stop<T: Turns<Branch<P::Seal>>, P: Port, G: Pager, L: MergeLaw>(
    desk: &mut Desk<'_, T, P, G, L>,
) -> Result<Packed, CallFault>
    requires turns { (T.means desk.old.turns).turns < 2 ^ 41 }
    requires ready { T.ready desk.old.turns }
    requires seen { HasSeen (T.saw desk.old.turns) }
    requires nothing { MayCall (T.means desk.old.turns) }
    ensures quiet { IsQuiet (branch_kind P.Seal.TELLS)
        (T.means desk.old.turns) (T.saw desk.old.turns) (T.means desk.new.turns) (T.saw desk.new.turns) }
    ensures ready { T.ready desk.new.turns }
    ensures few { MadeFew (T.means desk.old.turns) (T.means desk.new.turns) 0 }
    ensures left { OnOk result ((T.means desk.old.turns).turns < (T.means desk.new.turns).turns) }
    ensures room { IfOk result (λ packed. is_over packed ≡ false → (T.means desk.new.turns).turns < 2 ^ 40) }
    ensures law { desk.new.law.now ≡ desk.old.law.now }
    ensures pager { desk.new.pager.now ≡ desk.old.pager.now }
    ensures device { desk.new.port.ghost_name ≡ desk.old.port.ghost_name }
    ensures port { NeverFell (P.counts desk.old.port.now) (P.counts desk.new.port.now) }
    ensures packed { AfterPack (T.means desk.new.turns) result }
    ensures made { IfOk result (WasPacked (branch_kind P.Seal.TELLS)
        (T.means desk.old.turns) (T.saw desk.old.turns) (T.means desk.new.turns) (T.saw desk.new.turns)) }
    ensures looked { WroteWithRoom (branch_kind P.Seal.TELLS) (T.means desk.old.turns) (T.saw desk.old.turns)
        (T.means desk.new.turns) (T.saw desk.new.turns) (P.counts desk.old.port.now) (P.counts desk.new.port.now) }
    ensures faults { OnOk result ((P.counts desk.new.port.now).faults ≡ (P.counts desk.old.port.now).faults) }
    ensures cause { IfErr result (HasWorkCause (branch_kind P.Seal.TELLS)
        (T.means desk.old.turns) (T.saw desk.old.turns) (T.means desk.new.turns) (T.saw desk.new.turns)
        (P.counts desk.old.port.now) (P.counts desk.new.port.now)) }
{
    let packed = pack_oldest(desk)?;
    if !is_over(packed) {
        check_turns(&desk.turns)?;
    }
    Ok(packed)
}

/// Packs the oldest frozen memtable that nobody picked: its branch is written, and replaces the memtable at the root.
/// However it ends, the actor has nothing afterwards.
pub fn pack<T: Turns<Branch<P::Seal>>, P: Port, G: Pager, L: MergeLaw>(
    desk: &mut Desk<'_, T, P, G, L>,
) -> Result<Packed, CallFault>
    requires turns { (T.means desk.old.turns).turns < 2 ^ 41 }
    requires ready { T.ready desk.old.turns }
    requires seen { HasSeen (T.saw desk.old.turns) }
    requires nothing { MayCall (T.means desk.old.turns) }
    ensures quiet { IsQuiet (branch_kind P.Seal.TELLS)
        (T.means desk.old.turns) (T.saw desk.old.turns) (T.means desk.new.turns) (T.saw desk.new.turns) }
    ensures ready { T.ready desk.new.turns }
    ensures nothing { MayCall (T.means desk.new.turns) }
    ensures ok_few { OnOk result (MadeFew (T.means desk.old.turns) (T.means desk.new.turns) 0) }
    ensures err_few { OnErr result (MadeFew (T.means desk.old.turns) (T.means desk.new.turns) 1) }
    ensures left { OnOk result ((T.means desk.old.turns).turns < (T.means desk.new.turns).turns) }
    ensures law { desk.new.law.now ≡ desk.old.law.now }
    ensures pager { desk.new.pager.now ≡ desk.old.pager.now }
    ensures device { desk.new.port.ghost_name ≡ desk.old.port.ghost_name }
    ensures port { NeverFell (P.counts desk.old.port.now) (P.counts desk.new.port.now) }

    // A turn of this call shows it.
    ensures made { IfOk result (WasPacked (branch_kind P.Seal.TELLS)
        (T.means desk.old.turns) (T.saw desk.old.turns) (T.means desk.new.turns) (T.saw desk.new.turns)) }

    // A page is written only where the root was seen with room for its branch.
    ensures looked { WroteWithRoom (branch_kind P.Seal.TELLS) (T.means desk.old.turns) (T.saw desk.old.turns)
        (T.means desk.new.turns) (T.saw desk.new.turns) (P.counts desk.old.port.now) (P.counts desk.new.port.now) }
    ensures faults { OnOk result ((P.counts desk.new.port.now).faults ≡ (P.counts desk.old.port.now).faults) }
    ensures cause { IfErr result (HasWorkCause (branch_kind P.Seal.TELLS)
        (T.means desk.old.turns) (T.saw desk.old.turns) (T.means desk.new.turns) (T.saw desk.new.turns)
        (P.counts desk.old.port.now) (P.counts desk.new.port.now)) }
{
    let outcome = pack_or_stop(desk);
    match outcome {
        Ok(Packed::Done | Packed::Nothing) => {}
        Ok(Packed::NeedsFlush | Packed::NotOldest) | Err(_) => abandon(&mut desk.turns),
    }
    outcome
}
