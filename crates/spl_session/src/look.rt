//! The lookup of a key.
ghost use Rattle.std.specs.Prelude.{◌≡◌, ◌+◌, ◌<◌, ◌^◌, true, option_to_list, IfOk, IfErr, OnOk, MatchOption, MatchResult};
ghost use Rattle.spl_message.specs.History.{History};
ghost use Rattle.spl_message.specs.Message.{act_all, settle};
ghost use Rattle.spl_message.specs.Table.{chain};
ghost use Rattle.spl_message.specs.declared.call.Call.TheVariants as call;
ghost use Rattle.spl_branch.specs.Reading.{OnlyReads, reach_of};
ghost use Rattle.spl_descent.specs.Sights.{rest};
ghost use Rattle.spl_desk.specs.Branches.{branch_kind};
ghost use Rattle.spl_desk.specs.Calls.{HasCalled, HasSeen, IsOnlyCall, IsSameCaller, Looked, MadeCall, MadeFew, MadeNoCall, MayCall, NeverFell, span_of_key};
ghost use Rattle.spl_desk.specs.Walk.{Went};
ghost use Rattle.spl_down.specs.Arrivals.{height_in, reach_at};
ghost use Rattle.spl_down.specs.Descending.{Arrived};
ghost use Rattle.spl_session.specs.Looking.{HasLookCause, IsFor, is_last};
ghost use Rattle.spl_session.specs.Reaching.{IsWay, IsWithinReach};

use crate::ask::{ask_branches, ask_slices, is_decided};
use crate::found::Found;
use spl_branch::Branch;
use spl_desk::{CallFault, Desk, Turns};
use spl_down::{Stopped, abandon, begin, descend, end};
use spl_message::{Bound, Content, HashedKey, Key, MergeLaw, Message, Span, Value, settle};
use spl_pager::Pager;
use spl_port::Port;
use spl_state::Sight;

/// Whether nothing below the node of the sight matters.
fn is_last<B: Content>(sight: &Sight<B>, found: &Option<Message>) -> bool
    ensures { result ≡ is_last sight.now found.now }
{
    sight.leaf || is_decided(found)
}

/// One message for those that the key has from the node of the sight down, and for what was found above. Ends the
/// descent.
fn find<T: Turns<Branch<P::Seal>>, P: Port, G: Pager, L: MergeLaw>(
    desk: &mut Desk<'_, T, P, G, L>,
    key: &HashedKey,
    sight: Sight<Branch<P::Seal>>,
    found: Option<Message>,
) -> Result<Option<Message>, CallFault>
    requires turns { (T.means desk.old.turns).turns < 2 ^ 41 }
    requires ready { T.ready desk.old.turns }
    requires seen { HasSeen (T.saw desk.old.turns) }
    requires law { L.rule desk.old.law.now ≡ (T.means desk.old.turns).rule }
    requires lawful { L.ready desk.old.law.now }
    requires arrived { Arrived (branch_kind P.Seal.TELLS) (T.means desk.old.turns) sight }
    requires wanted { IsFor key.now sight.span }
    ensures same { IsSameCaller (T.means desk.old.turns) (T.means desk.new.turns) }
    ensures few { MadeFew (T.means desk.old.turns) (T.means desk.new.turns) 0 }
    ensures ready { T.ready desk.new.turns }
    ensures seen { HasSeen (T.saw desk.new.turns) }
    ensures law { desk.new.law.now ≡ desk.old.law.now }
    ensures device { desk.new.port.ghost_name ≡ desk.old.port.ghost_name }
    ensures pager { desk.new.pager.now ≡ desk.old.pager.now }
    ensures value { P.Seal.TELLS ≡ true → IfOk result (λ all. let rule = (T.means desk.old.turns).rule in
        act_all rule key.now None (option_to_list all)
        ≡ act_all rule key.now (rest rule (T.means desk.old.turns).at sight.node key.now) (option_to_list found)) }
    ensures free { OnOk result (MayCall (T.means desk.new.turns)) }
    ensures walk { (history : History) → T.saw desk.old.turns history → Went (branch_kind P.Seal.TELLS)
        (T.means desk.old.turns) history (T.means desk.new.turns) (T.saw desk.new.turns)
        (λ turns seen. IsWay P.Seal.TELLS key.now (T.means desk.old.turns).actor (P.counts desk.old.port.now) (P.counts desk.new.port.now)
        0 (height_in (T.means desk.old.turns).at sight + 1) 0 (reach_at reach_of key.now sight) turns) }
    ensures counts { OnlyReads (P.counts desk.old.port.now) (P.counts desk.new.port.now) }
    ensures cause { IfErr result (HasLookCause P.Seal.TELLS (P.counts desk.old.port.now) (P.counts desk.new.port.now)
        (T.means desk.new.turns)) }
{
    let mut sight = sight;
    let mut found = found;
    'down: loop {
        found = ask_branches(
            desk.alloc,
            desk.port,
            desk.pager,
            desk.law,
            key,
            &sight.branches,
            found,
        )?;
        if is_last(&sight, &found) {
            end(&mut desk.turns, &sight)?;
            return Ok(found);
        }
        sight = descend(&mut desk.turns, &sight)?;
    }
}

/// What the key has in the store, as the descent of the sight finds it from the root on. Ends the descent.
fn value_at<T: Turns<Branch<P::Seal>>, P: Port, G: Pager, L: MergeLaw>(
    desk: &mut Desk<'_, T, P, G, L>,
    key: &Key,
    sight: Sight<Branch<P::Seal>>,
) -> Result<Option<Value>, CallFault>
    requires turns { (T.means desk.old.turns).turns < 2 ^ 41 }
    requires ready { T.ready desk.old.turns }
    requires seen { HasSeen (T.saw desk.old.turns) }
    requires law { L.rule desk.old.law.now ≡ (T.means desk.old.turns).rule }
    requires lawful { L.ready desk.old.law.now }
    requires arrived { Arrived (branch_kind P.Seal.TELLS) (T.means desk.old.turns) sight }
    requires wanted { IsFor key.now sight.span }
    ensures same { IsSameCaller (T.means desk.old.turns) (T.means desk.new.turns) }
    ensures few { MadeFew (T.means desk.old.turns) (T.means desk.new.turns) 0 }
    ensures ready { T.ready desk.new.turns }
    ensures seen { HasSeen (T.saw desk.new.turns) }
    ensures law { desk.new.law.now ≡ desk.old.law.now }
    ensures device { desk.new.port.ghost_name ≡ desk.old.port.ghost_name }
    ensures pager { desk.new.pager.now ≡ desk.old.pager.now }
    ensures value { P.Seal.TELLS ≡ true → IfOk result (λ value. let rule = (T.means desk.old.turns).rule in
        value ≡ act_all rule key.now (rest rule (T.means desk.old.turns).at sight.node key.now) (chain sight.tables key.now)) }
    ensures free { OnOk result (MayCall (T.means desk.new.turns)) }
    ensures walk { (history : History) → T.saw desk.old.turns history → Went (branch_kind P.Seal.TELLS)
        (T.means desk.old.turns) history (T.means desk.new.turns) (T.saw desk.new.turns)
        (λ turns seen. IsWay P.Seal.TELLS key.now (T.means desk.old.turns).actor (P.counts desk.old.port.now) (P.counts desk.new.port.now)
        0 (height_in (T.means desk.old.turns).at sight + 1) 0 (reach_at reach_of key.now sight) turns) }
    ensures counts { OnlyReads (P.counts desk.old.port.now) (P.counts desk.new.port.now) }
    ensures cause { IfErr result (HasLookCause P.Seal.TELLS (P.counts desk.old.port.now) (P.counts desk.new.port.now)
        (T.means desk.new.turns)) }
{
    let found = ask_slices(desk.alloc, desk.law, key, &sight.tables)?;
    let all = find(desk, &HashedKey::of(key), sight, found)?;
    Ok(settle(desk.alloc, desk.law, key, all)?)
}

/// The key's own span.
fn span_of(key: &Key) -> Span
    ensures { result ≡ span_of_key key.now }
{
    Span {
        from: Some(*key),
        to: Some(Bound::after(key)),
    }
}

/// The value of the key, at the place that the lookup has in the history of all calls.
pub fn lookup<T: Turns<Branch<P::Seal>>, P: Port, G: Pager, L: MergeLaw>(
    desk: &mut Desk<'_, T, P, G, L>,
    key: &Key,
) -> Result<Found, Stopped>
    requires turns { (T.means desk.old.turns).turns < 2 ^ 41 }
    requires ready { T.ready desk.old.turns }
    requires nothing { MayCall (T.means desk.old.turns) }
    requires seen { HasSeen (T.saw desk.old.turns) }
    requires law { L.rule desk.old.law.now ≡ (T.means desk.old.turns).rule }
    requires lawful { L.ready desk.old.law.now }
    ensures called { HasCalled (T.means desk.old.turns) (T.means desk.new.turns) }
    ensures few { MadeFew (T.means desk.old.turns) (T.means desk.new.turns) 1 }
    ensures ready { T.ready desk.new.turns }
    ensures law { desk.new.law.now ≡ desk.old.law.now }
    ensures device { desk.new.port.ghost_name ≡ desk.old.port.ghost_name }
    ensures pager { desk.new.pager.now ≡ desk.old.pager.now }
    ensures looked { (history : History) → T.saw desk.old.turns history → IfOk result (λ found. Looked
        (branch_kind P.Seal.TELLS) (T.means desk.old.turns) history (T.means desk.new.turns) (T.saw desk.new.turns)
        key.now found.place found.value) }

    // It has a place exactly where its descent had begun.
    ensures stopped { (history : History) → T.saw desk.old.turns history → IfErr result (λ stopped. MatchOption stopped.place
        (MadeNoCall (branch_kind P.Seal.TELLS) (T.means desk.old.turns) history (T.means desk.new.turns) (T.saw desk.new.turns))
        (λ place. MadeCall (branch_kind P.Seal.TELLS) (T.means desk.old.turns) history (T.means desk.new.turns)
        (T.saw desk.new.turns) (call.Piece (span_of_key key.now)) place)) }

    // How many turns it takes, and how many pages it reads.
    ensures within { (history : History) → T.saw desk.old.turns history → MatchResult result
        (λ found. Went (branch_kind P.Seal.TELLS) (T.means desk.old.turns) history (T.means desk.new.turns) (T.saw desk.new.turns)
        (λ turns seen. IsOnlyCall (T.means desk.old.turns).actor history (call.Piece (span_of_key key.now)) found.place turns seen
        × IsWithinReach P.Seal.TELLS key.now (P.counts desk.old.port.now) (P.counts desk.new.port.now) 0 turns))
        (λ stopped. Went (branch_kind P.Seal.TELLS) (T.means desk.old.turns) history (T.means desk.new.turns) (T.saw desk.new.turns)
        (λ turns seen. IsWithinReach P.Seal.TELLS key.now (P.counts desk.old.port.now) (P.counts desk.new.port.now) 1 turns)) }
    ensures port { NeverFell (P.counts desk.old.port.now) (P.counts desk.new.port.now) }
    ensures cause { IfErr result (λ stopped. HasLookCause P.Seal.TELLS (P.counts desk.old.port.now) (P.counts desk.new.port.now)
        (T.means desk.new.turns) stopped.fault) }
{
    let sight = match begin(&mut desk.turns, &span_of(key)) {
        Ok(sight) => sight,
        Err(fault) => {
            abandon(&mut desk.turns);
            return Err(Stopped { fault, place: None });
        }
    };
    let place = sight.place;
    match value_at(desk, key, sight) {
        Ok(value) => Ok(Found { value, place }),
        Err(fault) => {
            abandon(&mut desk.turns);
            Err(Stopped {
                fault,
                place: Some(place),
            })
        }
    }
}
