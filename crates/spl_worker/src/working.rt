//! One piece of work of a worker.
ghost use Rattle.std.specs.Prelude.{◌≡◌, ◌<◌, ◌^◌, ℕ, Ok, IfErr, IfOk, OnErr, OnOk};
ghost use Rattle.spl_message.specs.History.{History};
ghost use Rattle.spl_state.specs.declared.reply.Reply.TheVariants.{Nothing};
ghost use Rattle.spl_desk.specs.Branches.{branch_kind};
ghost use Rattle.spl_desk.specs.Calls.{HasSeen, MadeFew, MayCall, NeverFell};
ghost use Rattle.spl_desk.specs.Causes.{WasAnswered};
ghost use Rattle.spl_desk.specs.Quiet.{HasWorkCause, IsQuiet};
ghost use Rattle.spl_worker.specs.Working.{HasGoneOn, HasWorked};
ghost use Rattle.spl_worker.specs.Works.{WasWork, least_at, next_of, unless_idle, work_of};

use crate::Work;
use crate::plan::ROOT;
use crate::relief::Relief;
use crate::relieving::relieve;
use spl_branch::Branch;
use spl_bundle::MAX_LISTS;
use spl_desk::{CallFault, Desk, Turns};
use spl_message::MergeLaw;
use spl_packer::{Packed, pack};
use spl_pager::Pager;
use spl_port::Port;

/// With fewer bundles there is no work at the root.
const FEW_BUNDLES: usize = 12;

/// From how many bundles on a node has work: the root from so many on, any other node when it is full.
fn least_at(node: u32, least: usize) -> usize
    ensures { result ≡ least_at node least }
{
    if node == ROOT { least } else { MAX_LISTS }
}

/// Where to look next, if nothing was done: at a child that needs room first, or at the root again if that has room by
/// now.
fn next_of(at: u32, relief: Relief) -> Option<u32>
    ensures { result ≡ next_of at relief }
{
    match relief {
        Relief::Room { .. } => { if at == ROOT { None } else { Some(ROOT) } }
        Relief::Below { child } => Some(child),
        Relief::Grown | Relief::Flushed | Relief::Compacted | Relief::Stale => None,
    }
}

/// The work that this piece of work at a node was.
fn work_of(relief: Relief) -> Work
    ensures { result ≡ work_of relief }
{
    match relief {
        Relief::Room { running } => Work::Idle { running },
        Relief::Grown => Work::Split,
        Relief::Flushed => Work::Flushed,
        Relief::Compacted => Work::Compacted,
        Relief::Below { .. } | Relief::Stale => Work::Stale,
    }
}

/// There was something to do, so there was work.
fn unless_idle(work: Work) -> Work
    ensures { result ≡ unless_idle work }
{
    match work {
        Work::Idle { .. } => Work::Stale,
        work => work,
    }
}

/// Looks for work from the root on, which has some if it has so many bundles or more, and does one piece of it.
fn work_from_root<T: Turns<Branch<P::Seal>>, P: Port, G: Pager, L: MergeLaw>(
    desk: &mut Desk<'_, T, P, G, L>,
    least: usize,
) -> Result<Work, CallFault>
    requires least { 0 < least }
    requires turns { (T.means desk.old.turns).turns < 2 ^ 41 }
    requires ready { T.ready desk.old.turns }
    requires seen { HasSeen (T.saw desk.old.turns) }
    requires nothing { MayCall (T.means desk.old.turns) }
    requires law { L.rule desk.old.law.now ≡ (T.means desk.old.turns).rule }
    requires lawful { L.ready desk.old.law.now }
    ensures worked { HasWorked (branch_kind P.Seal.TELLS) (T.means desk.old.turns) (T.saw desk.old.turns)
        (T.means desk.new.turns) (T.saw desk.new.turns) (P.counts desk.old.port.now) (P.counts desk.new.port.now) }
    ensures ready { T.ready desk.new.turns }
    ensures went { OnOk result (HasGoneOn (T.means desk.old.turns) (T.means desk.new.turns)) }
    ensures err_few { OnErr result (MadeFew (T.means desk.old.turns) (T.means desk.new.turns) 1) }
    ensures law { desk.new.law.now ≡ desk.old.law.now }
    ensures pager { desk.new.pager.now ≡ desk.old.pager.now }
    ensures device { desk.new.port.ghost_name ≡ desk.old.port.ghost_name }
    ensures left { OnOk result ((T.means desk.old.turns).turns < (T.means desk.new.turns).turns) }
    ensures made { IfOk result (WasWork (branch_kind P.Seal.TELLS) (T.means desk.old.turns)
        (T.saw desk.old.turns) (T.means desk.new.turns) (T.saw desk.new.turns) least) }
    ensures faults { OnOk result ((P.counts desk.new.port.now).faults ≡ (P.counts desk.old.port.now).faults) }
    ensures cause { IfErr result (HasWorkCause (branch_kind P.Seal.TELLS) (T.means desk.old.turns)
        (T.saw desk.old.turns) (T.means desk.new.turns) (T.saw desk.new.turns)
        (P.counts desk.old.port.now) (P.counts desk.new.port.now)) }
{
    let mut at = ROOT;
    'work: loop {
        let relief = relieve(desk, at, least_at(at, least))?;
        match next_of(at, relief) {
            Some(next) => at = next,
            None => return Ok(work_of(relief)),
        }
    }
}

/// Does one piece of work: packs a frozen memtable, or else, if the root has many bundles, flushes them down, merges
/// them, or splits nodes. It does not wait.
pub fn work_once<T: Turns<Branch<P::Seal>>, P: Port, G: Pager, L: MergeLaw>(
    desk: &mut Desk<'_, T, P, G, L>,
) -> Result<Work, CallFault>
    requires turns { (T.means desk.old.turns).turns < 2 ^ 41 }
    requires ready { T.ready desk.old.turns }
    requires seen { HasSeen (T.saw desk.old.turns) }
    requires nothing { MayCall (T.means desk.old.turns) }
    requires law { L.rule desk.old.law.now ≡ (T.means desk.old.turns).rule }
    requires lawful { L.ready desk.old.law.now }
    ensures quiet { IsQuiet (branch_kind P.Seal.TELLS) (T.means desk.old.turns) (T.saw desk.old.turns)
        (T.means desk.new.turns) (T.saw desk.new.turns) }
    ensures nothing { MayCall (T.means desk.new.turns) }
    ensures ready { T.ready desk.new.turns }
    ensures ok_few { OnOk result (MadeFew (T.means desk.old.turns) (T.means desk.new.turns) 0) }
    ensures err_few { OnErr result (MadeFew (T.means desk.old.turns) (T.means desk.new.turns) 1) }
    ensures left { OnOk result ((T.means desk.old.turns).turns < (T.means desk.new.turns).turns) }
    ensures law { desk.new.law.now ≡ desk.old.law.now }
    ensures pager { desk.new.pager.now ≡ desk.old.pager.now }
    ensures device { desk.new.port.ghost_name ≡ desk.old.port.ghost_name }
    ensures port { NeverFell (P.counts desk.old.port.now) (P.counts desk.new.port.now) }

    // A turn of this call hung the branch; flushed the bundles; ended the merge; raised the root, or split the node; or
    // showed the root with fewer than 12 bundles, while another one found no frozen memtable that nobody picked.
    ensures made { IfOk result (WasWork (branch_kind P.Seal.TELLS) (T.means desk.old.turns)
        (T.saw desk.old.turns) (T.means desk.new.turns) (T.saw desk.new.turns) 12) }
    ensures nothing_there { (running : ℕ) → result ≡ Ok (Work.Idle running) → (history : History)
        → T.saw desk.old.turns history → WasAnswered (branch_kind P.Seal.TELLS) (T.means desk.old.turns) history
        (T.means desk.new.turns) (T.saw desk.new.turns) (λ answer. answer ≡ Nothing) }
    ensures faults { OnOk result ((P.counts desk.new.port.now).faults ≡ (P.counts desk.old.port.now).faults) }
    ensures cause { IfErr result (HasWorkCause (branch_kind P.Seal.TELLS) (T.means desk.old.turns)
        (T.saw desk.old.turns) (T.means desk.new.turns) (T.saw desk.new.turns)
        (P.counts desk.old.port.now) (P.counts desk.new.port.now)) }
{
    match pack(desk)? {
        Packed::Done => Ok(Work::Packed),
        Packed::NotOldest => Ok(Work::Stale),
        Packed::NeedsFlush => Ok(unless_idle(work_from_root(desk, MAX_LISTS)?)),
        Packed::Nothing => work_from_root(desk, FEW_BUNDLES),
    }
}
