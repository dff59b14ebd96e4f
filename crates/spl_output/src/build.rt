ghost use Rattle.std.specs.Prelude.{◌≡◌, ◌≢◌, ◌<◌, ◌≤◌, ◌^◌, ◌↔◌, true, IfErr, IfOk, IfSome, IsNone, Ok, OnOk, OnErr, None};
ghost use Rattle.spl_message.specs.Key.{is_below};
ghost use Rattle.spl_port.specs.Port.{WritesOne};
ghost use Rattle.spl_branch.specs.Pages.{page_total};
ghost use Rattle.spl_build.specs.Builder.{Adds, Builds, HasNoRoom, IfBuilt, Needs};
ghost use Rattle.spl_build.specs.declared.stage.Stage.TheVariants.{Adding, Over};
ghost use Rattle.spl_desk.specs.Branches.{branch_kind};
ghost use Rattle.spl_desk.specs.Calls.{HasSeen, MadeFew, NeverFell};
ghost use Rattle.spl_desk.specs.Quiet.{HasWorkCause, IsQuiet};
ghost use Rattle.spl_job.specs.Holding.{Builds as IsBuilder, Holding, IsHolding};
ghost use Rattle.spl_output.specs.Building.{AddsAt, BuildsAt, Extends, HasGrantCause, HasPageCause, of_build};

use spl_branch::Branch;
use spl_build::{Add, BuildFault, Builder, Finish};
use spl_desk::{CallFault, Turns};
use spl_job::steps::grant;
use spl_message::{Key, Message};
use spl_page::LentMessage;
use spl_port::Port;

/// A holder that made so many steps is spent.
const MOST_TURNS: u64 = 1 << 40;

const _: () = prove!(MOST_TURNS == 1_099_511_627_776);

/// Grants one more extent, and gives it to the builder.
fn extend<P: Port, T: Turns<Branch<P::Seal>>>(
    turns: &mut T,
    builder: &mut Builder<P>,
) -> Result<(), CallFault>
    requires turns { (T.means turns.old).turns < 2 ^ 41 }
    requires ready { T.ready turns.old }
    requires seen { HasSeen (T.saw turns.old) }
    requires holds { (holding : Holding) × IsHolding (T.means turns.old) holding × IsBuilder holding }
    requires stopped { builder.old.stopped ≡ None }
    requires stage { builder.old.stage ≢ Over }
    ensures quiet { IsQuiet (branch_kind P.Seal.TELLS)
        (T.means turns.old) (T.saw turns.old) (T.means turns.new) (T.saw turns.new) }
    ensures few { MadeFew (T.means turns.old) (T.means turns.new) 0 }
    ensures ready { T.ready turns.new }
    ensures extends { OnOk result (Extends (T.means turns.old) (T.means turns.new) builder.old builder.new) }
    ensures kept { OnErr result (builder.new ≡ builder.old) }
    ensures left { OnOk result ((T.means turns.old).turns < (T.means turns.new).turns) }
    ensures cause { IfErr result (HasGrantCause (branch_kind P.Seal.TELLS)
        (T.means turns.old) (T.saw turns.old) (T.means turns.new) (T.saw turns.new)) }
{
    let made = turns.turns();
    if made >= MOST_TURNS {
        return Err(CallFault::Spent { turns: made });
    }
    let Some(extent) = grant(turns) else {
        return Err(CallFault::Full);
    };
    Ok(builder.give(extent)?)
}

/// The fault of a call for a fault of a builder.
fn of_build(fault: BuildFault) -> CallFault
    ensures { result ≡ of_build fault }
{
    match fault {
        BuildFault::Fault => CallFault::Fault,
        BuildFault::NoMemory => CallFault::NoMemory,
    }
}

/// Adds the key with its message to the branch, if the next page has an extent.
fn add_once<P: Port>(
    port: &mut P,
    builder: &mut Builder<P>,
    key: &Key,
    message: &Message,
) -> Result<Add, CallFault>
    requires stopped { builder.old.stopped ≡ None }
    requires stage { builder.old.stage ≡ Adding }
    requires rising { IfSome builder.old.last (λ last. is_below last key.now ≡ true) }
    ensures needs { IfOk result (λ answer. (answer ≡ Add.Needs) ↔ HasNoRoom builder.old key.now message.now) }
    ensures needs_same { result ≡ Ok Add.Needs → builder.new ≡ builder.old }
    ensures done { result ≡ Ok Add.Done → Adds P.Seal.TELLS builder.old builder.new key.now message.now }
    ensures counts { WritesOne (P.counts port.old) (P.counts port.new) }
    ensures faults { OnOk result ((P.counts port.new).faults ≡ (P.counts port.old).faults) }
    ensures cause { IfErr result (HasPageCause (P.counts port.old) (P.counts port.new)) }
{
    match builder.add(port, key, LentMessage::of(message)) {
        Ok(answer) => Ok(answer),
        Err(fault) => Err(of_build(fault)),
    }
}

/// Adds the key with its message to the branch. One more extent is granted if the next page has none.
pub fn add<P: Port, T: Turns<Branch<P::Seal>>>(
    turns: &mut T,
    port: &mut P,
    builder: &mut Builder<P>,
    key: &Key,
    message: &Message,
) -> Result<(), CallFault>
    requires turns { (T.means turns.old).turns < 2 ^ 41 }
    requires ready { T.ready turns.old }
    requires seen { HasSeen (T.saw turns.old) }
    requires holds { (holding : Holding) × IsHolding (T.means turns.old) holding × IsBuilder holding }
    requires stopped { builder.old.stopped ≡ None }
    requires stage { builder.old.stage ≡ Adding }
    requires rising { IfSome builder.old.last (λ last. is_below last key.now ≡ true) }
    ensures quiet { IsQuiet (branch_kind P.Seal.TELLS)
        (T.means turns.old) (T.saw turns.old) (T.means turns.new) (T.saw turns.new) }
    ensures few { MadeFew (T.means turns.old) (T.means turns.new) 0 }
    ensures ready { T.ready turns.new }
    ensures adds { OnOk result (AddsAt P.Seal.TELLS (T.means turns.old) (T.means turns.new)
        builder.old builder.new key.now message.now) }
    ensures counts { NeverFell (P.counts port.old) (P.counts port.new) }

    // A device that failed is told of, and an extent is missed only where the next page needs one.
    ensures faults { OnOk result ((P.counts port.new).faults ≡ (P.counts port.old).faults) }
    ensures full { result ≡ Err CallFault.Full → HasNoRoom builder.old key.now message.now }
    ensures cause { IfErr result (HasWorkCause (branch_kind P.Seal.TELLS)
        (T.means turns.old) (T.saw turns.old) (T.means turns.new) (T.saw turns.new)
        (P.counts port.old) (P.counts port.new)) }
{
    match add_once(port, builder, key, message)? {
        Add::Done => Ok(()),
        Add::Needs => {
            extend(turns, builder)?;
            add_once(port, builder, key, message)?;
            Ok(())
        }
    }
}

/// Writes the remaining pages, as far as there are extents for them.
fn finish_once<P: Port>(
    port: &mut P,
    builder: &mut Builder<P>,
) -> Result<Finish<P::Seal>, CallFault>
    requires stopped { builder.old.stopped ≡ None }
    requires stage { builder.old.stage ≢ Over }
    ensures empty { IfOk result (λ answer. (answer ≡ Finish.Empty) ↔ (builder.old.entries ≡ 0)) }
    ensures needs { result ≡ Ok Finish.Needs → Needs P.Seal.TELLS builder.old builder.new }
    ensures built { IfOk result (λ answer. IfBuilt answer (λ branch. Builds P.Seal.TELLS builder.old branch)) }
    ensures pages { IfOk result (λ answer. IfBuilt answer (λ branch. page_total builder.old.parts ≤ page_total branch.parts)) }
    ensures counts { NeverFell (P.counts port.old) (P.counts port.new) }
    ensures faults { OnOk result ((P.counts port.new).faults ≡ (P.counts port.old).faults) }
    ensures cause { IfErr result (HasPageCause (P.counts port.old) (P.counts port.new)) }
{
    match builder.finish(port) {
        Ok(answer) => Ok(answer),
        Err(fault) => Err(of_build(fault)),
    }
}

/// Writes the remaining pages, and returns the branch, or none if nothing was added. One more extent is granted
/// whenever the next page has none.
pub fn finish<P: Port, T: Turns<Branch<P::Seal>>>(
    turns: &mut T,
    port: &mut P,
    builder: &mut Builder<P>,
) -> Result<Option<Branch<P::Seal>>, CallFault>
    requires turns { (T.means turns.old).turns < 2 ^ 41 }
    requires ready { T.ready turns.old }
    requires seen { HasSeen (T.saw turns.old) }
    requires holds { (holding : Holding) × IsHolding (T.means turns.old) holding × IsBuilder holding }
    requires stopped { builder.old.stopped ≡ None }
    requires stage { builder.old.stage ≢ Over }
    ensures quiet { IsQuiet (branch_kind P.Seal.TELLS)
        (T.means turns.old) (T.saw turns.old) (T.means turns.new) (T.saw turns.new) }
    ensures few { MadeFew (T.means turns.old) (T.means turns.new) 0 }
    ensures ready { T.ready turns.new }
    ensures built { IfOk result (λ answer. IfSome answer (λ branch. BuildsAt P.Seal.TELLS
        (T.means turns.old) (T.means turns.new) builder.old branch)) }
    ensures none { IfOk result (λ answer. IsNone answer ↔ (builder.old.entries ≡ 0)) }
    ensures none_same { result ≡ Ok None
        → (holding : Holding) → IsHolding (T.means turns.old) holding → IsHolding (T.means turns.new) holding }
    ensures counts { NeverFell (P.counts port.old) (P.counts port.new) }
    ensures faults { OnOk result ((P.counts port.new).faults ≡ (P.counts port.old).faults) }
    ensures cause { IfErr result (HasWorkCause (branch_kind P.Seal.TELLS)
        (T.means turns.old) (T.saw turns.old) (T.means turns.new) (T.saw turns.new)
        (P.counts port.old) (P.counts port.new)) }
{
    loop {
        match finish_once(port, builder)? {
            Finish::Needs => extend(turns, builder)?,
            Finish::Empty => return Ok(None),
            Finish::Built(branch) => return Ok(Some(branch)),
        }
    }
}
