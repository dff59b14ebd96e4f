//! The way down of a piece: the messages of its keys, from the root to a leaf.
ghost use Rattle.std.specs.Prelude.{◌≡◌, ◌<◌, ◌⊎◌, ◌^◌, ℕ, List, None, true, option_to_list, IsTrue, IfOk, IfErr, OnOk};
ghost use Rattle.std.specs.List.{AllByRecursion};
ghost use Rattle.spl_message.specs.Answer.{EndsIn};
ghost use Rattle.spl_message.specs.Entries.{message_in};
ghost use Rattle.spl_message.specs.History.{History};
ghost use Rattle.spl_message.specs.Message.{act_all};
ghost use Rattle.spl_message.specs.Pairs.{AreInOrder};
ghost use Rattle.spl_message.specs.Key.{IsKey};
ghost use Rattle.spl_message.specs.Span.{InSpan, in_span};
ghost use Rattle.spl_message.specs.Table.{chain};
ghost use Rattle.spl_branch.specs.Reading.{OnlyReads};
ghost use Rattle.spl_descent.specs.Sights.{rest};
ghost use Rattle.spl_desk.specs.Branches.{branch_kind};
ghost use Rattle.spl_desk.specs.Calls.{HasSeen, IsSameCaller, MadeFew, MadeNoCall, MayCall};
ghost use Rattle.spl_down.specs.Descending.{Arrived};
ghost use Rattle.spl_down.specs.Spans.{EndsWithin, IsFront};
ghost use Rattle.spl_range.specs.Pieces.{AreValues};
ghost use Rattle.spl_range.specs.Stopping.{HasPieceCause};

use crate::add::{add_branches, add_slices};
use crate::found::{drop_beyond, living};
use spl_branch::Branch;
use spl_desk::{CallFault, Desk, Turns};
use spl_down::{descend, end};
use spl_message::{Bound, KEY_LIMIT, Key, MergeLaw, Message, Pairs, Span};
use spl_pager::Pager;
use spl_port::Port;
use spl_state::Sight;
use std::collections::BTreeMap;

/// Puts what the branches from the node of the sight down have under what is in hand, and ends the descent. Returns the
/// part of the sight's span for whose keys this is all.
fn gather<T: Turns<Branch<P::Seal>>, P: Port, G: Pager, L: MergeLaw>(
    desk: &mut Desk<'_, T, P, G, L>,
    sight: Sight<Branch<P::Seal>>,
    found: &mut BTreeMap<Key, Message>,
) -> Result<Span, CallFault>
    requires turns { (T.means desk.old.turns).turns < 2 ^ 41 }
    requires ready { T.ready desk.old.turns }
    requires seen { HasSeen (T.saw desk.old.turns) }
    requires law { L.rule desk.old.law.now ≡ (T.means desk.old.turns).rule }
    requires lawful { L.ready desk.old.law.now }
    requires arrived { Arrived (branch_kind P.Seal.TELLS) (T.means desk.old.turns) sight }
    ensures same { IsSameCaller (T.means desk.old.turns) (T.means desk.new.turns) }
    ensures few { MadeFew (T.means desk.old.turns) (T.means desk.new.turns) 0 }
    ensures ready { T.ready desk.new.turns }
    ensures seen { HasSeen (T.saw desk.new.turns) }
    ensures law { desk.new.law.now ≡ desk.old.law.now }
    ensures device { desk.new.port.ghost_name ≡ desk.old.port.ghost_name }
    ensures pager { desk.new.pager.now ≡ desk.old.pager.now }
    ensures front { IfOk result (IsFront sight.span) }
    ensures value { P.Seal.TELLS ≡ true → IfOk result (λ span. (key : List ℕ) → InSpan span key
        → (let rule = (T.means desk.old.turns).rule in
        act_all rule key None (option_to_list (message_in found.new.entries key))
        ≡ act_all rule key (rest rule (T.means desk.old.turns).at sight.node key)
        (option_to_list (message_in found.old.entries key)))) }
    ensures free { OnOk result (MayCall (T.means desk.new.turns)) }
    ensures walk { (history : History) → T.saw desk.old.turns history → MadeNoCall (branch_kind P.Seal.TELLS)
        (T.means desk.old.turns) history (T.means desk.new.turns) (T.saw desk.new.turns) }
    ensures counts { OnlyReads (P.counts desk.old.port.now) (P.counts desk.new.port.now) }
    ensures faults { OnOk result ((P.counts desk.new.port.now).faults ≡ (P.counts desk.old.port.now).faults) }
    ensures cause { IfErr result (HasPieceCause P.Seal.TELLS (P.counts desk.old.port.now) (P.counts desk.new.port.now)
        (T.means desk.new.turns)) }
{
    let mut sight = sight;
    'down: loop {
        add_branches(
            desk.alloc,
            desk.port,
            desk.pager,
            desk.law,
            &sight.branches,
            &sight.span,
            found,
        )?;
        if sight.leaf {
            end(&mut desk.turns, &sight)?;
            return Ok(sight.span);
        }
        sight = descend(&mut desk.turns, &sight)?;
        drop_beyond(found, &sight.span);
    }
}

/// Whether the bound has the bytes of a key.
fn is_key(end: &Bound) -> bool
    ensures { IsTrue result → IsKey end.now }
{
    end.bytes().len() <= KEY_LIMIT
}

/// Whether a piece of the span may end here: where the span ends, or at a key.
fn is_end(span: &Span, end: &Option<Bound>) -> bool
    requires { (end.now ≡ span.now.to) ⊎ EndsWithin span.now end.now }
    ensures { IsTrue result → EndsIn span.now end.now }
{
    if *end == span.to {
        return true;
    }
    match end {
        Some(end) => is_key(end),
        None => false,
    }
}

/// A first part of the span, and its keys that have a value, as the descent of the sight finds them from the root on.
/// Ends the descent. An end with more bytes than a key, at which no node ends, counts as out of memory.
pub(crate) fn pairs_at<T: Turns<Branch<P::Seal>>, P: Port, G: Pager, L: MergeLaw>(
    desk: &mut Desk<'_, T, P, G, L>,
    asked: &Span,
    sight: Sight<Branch<P::Seal>>,
) -> Result<(Span, Pairs), CallFault>
    requires turns { (T.means desk.old.turns).turns < 2 ^ 41 }
    requires ready { T.ready desk.old.turns }
    requires seen { HasSeen (T.saw desk.old.turns) }
    requires law { L.rule desk.old.law.now ≡ (T.means desk.old.turns).rule }
    requires lawful { L.ready desk.old.law.now }
    requires arrived { Arrived (branch_kind P.Seal.TELLS) (T.means desk.old.turns) sight }
    requires front { IsFront asked.now sight.span }
    ensures same { IsSameCaller (T.means desk.old.turns) (T.means desk.new.turns) }
    ensures few { MadeFew (T.means desk.old.turns) (T.means desk.new.turns) 0 }
    ensures ready { T.ready desk.new.turns }
    ensures seen { HasSeen (T.saw desk.new.turns) }
    ensures law { desk.new.law.now ≡ desk.old.law.now }
    ensures device { desk.new.port.ghost_name ≡ desk.old.port.ghost_name }
    ensures pager { desk.new.pager.now ≡ desk.old.pager.now }
    ensures front { IfOk result (λ read. IsFront sight.span read.0) }
    ensures from { IfOk result (λ read. read.0.from ≡ asked.now.from) }
    ensures to { IfOk result (λ read. EndsIn asked.now read.0.to) }
    ensures order { IfOk result (λ read. AreInOrder read.1) }
    ensures inside { IfOk result (λ read. AllByRecursion (λ pair. in_span read.0 pair.0 ≡ true) read.1) }
    ensures values { P.Seal.TELLS ≡ true → IfOk result (λ read. let rule = (T.means desk.old.turns).rule in
        AreValues read.0 (λ key. act_all rule key (rest rule (T.means desk.old.turns).at sight.node key)
        (chain sight.tables key)) read.1) }
    ensures free { OnOk result (MayCall (T.means desk.new.turns)) }
    ensures walk { (history : History) → T.saw desk.old.turns history → MadeNoCall (branch_kind P.Seal.TELLS)
        (T.means desk.old.turns) history (T.means desk.new.turns) (T.saw desk.new.turns) }
    ensures counts { OnlyReads (P.counts desk.old.port.now) (P.counts desk.new.port.now) }
    ensures faults { OnOk result ((P.counts desk.new.port.now).faults ≡ (P.counts desk.old.port.now).faults) }
    ensures cause { IfErr result (HasPieceCause P.Seal.TELLS (P.counts desk.old.port.now) (P.counts desk.new.port.now)
        (T.means desk.new.turns)) }
{
    let mut found = BTreeMap::new(desk.alloc);
    add_slices(desk.alloc, desk.law, &sight.tables, &mut found)?;
    let span = gather(desk, sight, &mut found)?;
    if !is_end(asked, &span.to) {
        return Err(CallFault::NoMemory);
    }
    let pairs = living(desk.alloc, desk.law, &span, found)?;
    let _pairs = pairs.as_slice();
    Ok((span, pairs))
}
