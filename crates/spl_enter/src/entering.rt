ghost use Rattle.std.specs.Prelude.{◌≡◌, ◌≢◌, ◌+◌, ◌<◌, ◌≤◌, ◌^◌, false, true, if◌then◌else◌, Ok, IfErr, IfOk, OnOk};
ghost use Rattle.spl_message.specs.History.{History};
ghost use Rattle.spl_holds.specs.declared.grip.Grip.TheVariants as grip;
ghost use Rattle.spl_state.specs.View.{branch_data};
ghost use Rattle.spl_desk.specs.Calls.{HasSeen, MadeFew};
ghost use Rattle.spl_desk.specs.Holder.{kind_of};
ghost use Rattle.spl_desk.specs.Quiet.{IsQuiet, WasMade};
ghost use Rattle.spl_job.specs.Holding.{Holding, Holds, IsHolding, after_latch, with_grip};
ghost use Rattle.spl_job.specs.Latching.{IsLockTurn, IsRefusal};
ghost use Rattle.spl_enter.specs.Both.{IsRefusalOf, after_both};
ghost use Rattle.spl_enter.specs.Turning.{HasTurnCause};

use crate::check::check_turns;
use spl_desk::{CallFault, Turns};
use spl_job::steps::{claim, lock, unlock};
use spl_message::Content;

/// Makes the claim on the node a write. If somebody reads the node, it ends the claim and returns `false`.
fn raise<B: Content, T: Turns<B>>(turns: &mut T, node: u32) -> Result<bool, CallFault>
    requires turns { (T.means turns.old).turns < 2 ^ 41 }
    requires ready { T.ready turns.old }
    requires seen { HasSeen (T.saw turns.old) }
    requires holds { (holding : Holding) × IsHolding (T.means turns.old) holding × (holding.grips node ≡ grip.Claim) }
    ensures quiet { IsQuiet (kind_of B.number (branch_data B.extents B.entries B.cuts B.table) B.TELLS)
        (T.means turns.old) (T.saw turns.old) (T.means turns.new) (T.saw turns.new) }
    ensures few { MadeFew (T.means turns.old) (T.means turns.new) 0 }
    ensures ready { T.ready turns.new }
    ensures holds { (holding : Holding) → IsHolding (T.means turns.old) holding → holding.grips node ≡ grip.Claim
        → IfOk result (λ made. IsHolding (T.means turns.new) (with_grip holding node (if made then grip.Write else grip.Free))) }
    ensures refused { result ≡ Ok false → (history : History) → T.saw turns.old history → WasMade
        (kind_of B.number (branch_data B.extents B.entries B.cuts B.table) B.TELLS)
        (T.means turns.old) history (T.means turns.new) (T.saw turns.new) (IsLockTurn node false) }
    ensures left { OnOk result ((T.means turns.old).turns < (T.means turns.new).turns) }

    // Nothing is waited for.
    ensures made_most { result ≡ Ok true → (T.means turns.new).turns ≤ (T.means turns.old).turns + 1 }
    ensures most { (T.means turns.new).turns ≤ (T.means turns.old).turns + 2 }
    ensures cause { IfErr result (HasTurnCause (T.means turns.new)) }
{
    check_turns(turns)?;
    if lock(turns, node) {
        return Ok(true);
    }
    check_turns(turns)?;
    unlock(turns, node);
    Ok(false)
}

/// Takes the write latch of the node. If another actor's latch is in the way, it keeps nothing and returns `false`.
pub fn enter<B: Content, T: Turns<B>>(turns: &mut T, node: u32) -> Result<bool, CallFault>
    requires turns { (T.means turns.old).turns < 2 ^ 41 }
    requires ready { T.ready turns.old }
    requires seen { HasSeen (T.saw turns.old) }
    requires holds { (holding : Holding) × Holds (T.means turns.old) holding
        × (holding.grips node ≡ grip.Free) × (node < holding.told) }
    ensures quiet { IsQuiet (kind_of B.number (branch_data B.extents B.entries B.cuts B.table) B.TELLS)
        (T.means turns.old) (T.saw turns.old) (T.means turns.new) (T.saw turns.new) }
    ensures few { MadeFew (T.means turns.old) (T.means turns.new) 0 }
    ensures ready { T.ready turns.new }
    ensures holds { (holding : Holding) → Holds (T.means turns.old) holding → holding.grips node ≡ grip.Free
        → IfOk result (λ made. IsHolding (T.means turns.new) (after_latch holding node made grip.Write)) }
    ensures refused { result ≡ Ok false → (history : History) → T.saw turns.old history → WasMade
        (kind_of B.number (branch_data B.extents B.entries B.cuts B.table) B.TELLS)
        (T.means turns.old) history (T.means turns.new) (T.saw turns.new) (IsRefusal node) }
    ensures left { OnOk result ((T.means turns.old).turns < (T.means turns.new).turns) }

    // Nothing is waited for.
    ensures made_most { result ≡ Ok true → (T.means turns.new).turns ≤ (T.means turns.old).turns + 2 }
    ensures most { (T.means turns.new).turns ≤ (T.means turns.old).turns + 3 }
    ensures cause { IfErr result (HasTurnCause (T.means turns.new)) }
{
    check_turns(turns)?;
    if claim(turns, node) {
        raise(turns, node)
    } else {
        Ok(false)
    }
}

/// Takes the write latch of the parent, and then that of the child. If another actor's latch is in the way, it
/// keeps neither and returns `false`.
pub fn enter_both<B: Content, T: Turns<B>>(
    turns: &mut T,
    parent: u32,
    child: u32,
) -> Result<bool, CallFault>
    requires turns { (T.means turns.old).turns < 2 ^ 41 }
    requires ready { T.ready turns.old }
    requires seen { HasSeen (T.saw turns.old) }
    requires apart { parent ≢ child }
    requires holds { (holding : Holding) × Holds (T.means turns.old) holding
        × (holding.grips parent ≡ grip.Free) × (holding.grips child ≡ grip.Free)
        × (parent < holding.told) × (child < holding.told) }
    ensures quiet { IsQuiet (kind_of B.number (branch_data B.extents B.entries B.cuts B.table) B.TELLS)
        (T.means turns.old) (T.saw turns.old) (T.means turns.new) (T.saw turns.new) }
    ensures few { MadeFew (T.means turns.old) (T.means turns.new) 0 }
    ensures ready { T.ready turns.new }
    ensures holds { (holding : Holding) → Holds (T.means turns.old) holding
        → holding.grips parent ≡ grip.Free → holding.grips child ≡ grip.Free
        → IfOk result (λ made. IsHolding (T.means turns.new) (after_both holding parent child made)) }
    ensures refused { result ≡ Ok false → (history : History) → T.saw turns.old history → WasMade
        (kind_of B.number (branch_data B.extents B.entries B.cuts B.table) B.TELLS)
        (T.means turns.old) history (T.means turns.new) (T.saw turns.new) (IsRefusalOf parent child) }
    ensures left { OnOk result ((T.means turns.old).turns < (T.means turns.new).turns) }

    // Nothing is waited for.
    ensures made_most { result ≡ Ok true → (T.means turns.new).turns ≤ (T.means turns.old).turns + 4 }
    ensures most { (T.means turns.new).turns ≤ (T.means turns.old).turns + 6 }
    ensures cause { IfErr result (HasTurnCause (T.means turns.new)) }
{
    if !enter(turns, parent)? {
        return Ok(false);
    }
    if enter(turns, child)? {
        return Ok(true);
    }
    check_turns(turns)?;
    unlock(turns, parent);
    Ok(false)
}
