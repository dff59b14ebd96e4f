//! The calls of the store as methods.
ghost use Rattle.std.specs.Prelude.{◌≡◌, ◌<◌, ◌^◌, IfOk, IfErr, OnOk, OnErr, MatchOption, MatchResult};
ghost use Rattle.spl_message.specs.declared.call.Call.TheVariants as call;
ghost use Rattle.spl_message.specs.declared.message.Message.TheVariants as message;
ghost use Rattle.spl_message.specs.History.{History};
ghost use Rattle.spl_desk.specs.Branches.{branch_kind};
ghost use Rattle.spl_desk.specs.Calls.{HasCalled, HasSeen, IsOnlyCall, Looked, MadeCall, MadeFew, MadeNoCall, MayCall, NeverFell, span_of_key};
ghost use Rattle.spl_desk.specs.Causes.{HasCallCause};
ghost use Rattle.spl_desk.specs.Walk.{Went};
ghost use Rattle.spl_session.specs.Looking.{HasLookCause};
ghost use Rattle.spl_session.specs.Reaching.{IsWithinReach};

use crate::found::Found;
use crate::{look, puts};
use spl_branch::Branch;
use spl_desk::{CallFault, Desk, Turns};
use spl_down::Stopped;
use spl_message::{Key, MergeLaw, Value};
use spl_pager::Pager;
use spl_port::Port;

/// The store as its caller has it: each call goes over the desk. A session is made by a literal, and its desk is
/// public, so that the caller still reaches the port that it lent.
#[derive(Drop)]
pub struct Session<'a, T, P, G, L> {
    pub desk: Desk<'a, T, P, G, L>,
}

impl<'a, T: Turns<Branch<P::Seal>>, P: Port, G: Pager, L: MergeLaw> Session<'a, T, P, G, L> {
    /// Puts a value for the key.
    pub fn insert(&mut self, key: &Key, value: &Value) -> Result<u64, CallFault>
        requires turns { (T.means self.old.desk.turns).turns < 2 ^ 41 }
        requires ready { T.ready self.old.desk.turns }
        requires nothing { MayCall (T.means self.old.desk.turns) }
        requires seen { (history : History) × T.saw self.old.desk.turns history }
        requires law { L.rule self.old.desk.law.now ≡ (T.means self.old.desk.turns).rule }
        requires lawful { L.ready self.old.desk.law.now }
        ensures called { HasCalled (T.means self.old.desk.turns) (T.means self.new.desk.turns) }
        ensures ready { T.ready self.new.desk.turns }
        ensures placed { (history : History) → T.saw self.old.desk.turns history → IfOk result (MadeCall (branch_kind P.Seal.TELLS)
            (T.means self.old.desk.turns) history (T.means self.new.desk.turns) (T.saw self.new.desk.turns) (call.Put key.now (message.Insert value.now))) }
        ensures failed { (history : History) → T.saw self.old.desk.turns history → OnErr result (MadeNoCall (branch_kind P.Seal.TELLS)
            (T.means self.old.desk.turns) history (T.means self.new.desk.turns) (T.saw self.new.desk.turns)) }
        ensures law { self.new.desk.law.now ≡ self.old.desk.law.now }
        ensures device { self.new.desk.port.ghost_name ≡ self.old.desk.port.ghost_name }
        ensures pager { self.new.desk.pager.now ≡ self.old.desk.pager.now }
        ensures port { NeverFell (P.counts self.old.desk.port.now) (P.counts self.new.desk.port.now) }
        ensures ok_few { OnOk result (MadeFew (T.means self.old.desk.turns) (T.means self.new.desk.turns) 0) }
        ensures err_few { OnErr result (MadeFew (T.means self.old.desk.turns) (T.means self.new.desk.turns) 1) }
        ensures cause { (history : History) → T.saw self.old.desk.turns history → IfErr result (HasCallCause (branch_kind P.Seal.TELLS)
            (T.means self.old.desk.turns) history (T.means self.new.desk.turns) (T.saw self.new.desk.turns)
            (P.counts self.old.desk.port.now) (P.counts self.new.desk.port.now)) }
    {
        puts::insert(&mut self.desk, key, value)
    }

    /// Deletes the key.
    pub fn delete(&mut self, key: &Key) -> Result<u64, CallFault>
        requires turns { (T.means self.old.desk.turns).turns < 2 ^ 41 }
        requires ready { T.ready self.old.desk.turns }
        requires nothing { MayCall (T.means self.old.desk.turns) }
        requires seen { (history : History) × T.saw self.old.desk.turns history }
        requires law { L.rule self.old.desk.law.now ≡ (T.means self.old.desk.turns).rule }
        requires lawful { L.ready self.old.desk.law.now }
        ensures called { HasCalled (T.means self.old.desk.turns) (T.means self.new.desk.turns) }
        ensures ready { T.ready self.new.desk.turns }
        ensures placed { (history : History) → T.saw self.old.desk.turns history → IfOk result (MadeCall (branch_kind P.Seal.TELLS)
            (T.means self.old.desk.turns) history (T.means self.new.desk.turns) (T.saw self.new.desk.turns) (call.Put key.now message.Delete)) }
        ensures failed { (history : History) → T.saw self.old.desk.turns history → OnErr result (MadeNoCall (branch_kind P.Seal.TELLS)
            (T.means self.old.desk.turns) history (T.means self.new.desk.turns) (T.saw self.new.desk.turns)) }
        ensures law { self.new.desk.law.now ≡ self.old.desk.law.now }
        ensures device { self.new.desk.port.ghost_name ≡ self.old.desk.port.ghost_name }
        ensures pager { self.new.desk.pager.now ≡ self.old.desk.pager.now }
        ensures port { NeverFell (P.counts self.old.desk.port.now) (P.counts self.new.desk.port.now) }
        ensures ok_few { OnOk result (MadeFew (T.means self.old.desk.turns) (T.means self.new.desk.turns) 0) }
        ensures err_few { OnErr result (MadeFew (T.means self.old.desk.turns) (T.means self.new.desk.turns) 1) }
        ensures cause { (history : History) → T.saw self.old.desk.turns history → IfErr result (HasCallCause (branch_kind P.Seal.TELLS)
            (T.means self.old.desk.turns) history (T.means self.new.desk.turns) (T.saw self.new.desk.turns)
            (P.counts self.old.desk.port.now) (P.counts self.new.desk.port.now)) }
    {
        puts::delete(&mut self.desk, key)
    }

    /// Merges the operand into the key's value.
    pub fn update(&mut self, key: &Key, operand: &Value) -> Result<u64, CallFault>
        requires turns { (T.means self.old.desk.turns).turns < 2 ^ 41 }
        requires ready { T.ready self.old.desk.turns }
        requires nothing { MayCall (T.means self.old.desk.turns) }
        requires seen { (history : History) × T.saw self.old.desk.turns history }
        requires law { L.rule self.old.desk.law.now ≡ (T.means self.old.desk.turns).rule }
        requires lawful { L.ready self.old.desk.law.now }
        ensures called { HasCalled (T.means self.old.desk.turns) (T.means self.new.desk.turns) }
        ensures ready { T.ready self.new.desk.turns }
        ensures placed { (history : History) → T.saw self.old.desk.turns history → IfOk result (MadeCall (branch_kind P.Seal.TELLS)
            (T.means self.old.desk.turns) history (T.means self.new.desk.turns) (T.saw self.new.desk.turns) (call.Put key.now (message.Update operand.now))) }
        ensures failed { (history : History) → T.saw self.old.desk.turns history → OnErr result (MadeNoCall (branch_kind P.Seal.TELLS)
            (T.means self.old.desk.turns) history (T.means self.new.desk.turns) (T.saw self.new.desk.turns)) }
        ensures law { self.new.desk.law.now ≡ self.old.desk.law.now }
        ensures device { self.new.desk.port.ghost_name ≡ self.old.desk.port.ghost_name }
        ensures pager { self.new.desk.pager.now ≡ self.old.desk.pager.now }
        ensures port { NeverFell (P.counts self.old.desk.port.now) (P.counts self.new.desk.port.now) }
        ensures ok_few { OnOk result (MadeFew (T.means self.old.desk.turns) (T.means self.new.desk.turns) 0) }
        ensures err_few { OnErr result (MadeFew (T.means self.old.desk.turns) (T.means self.new.desk.turns) 1) }
        ensures cause { (history : History) → T.saw self.old.desk.turns history → IfErr result (HasCallCause (branch_kind P.Seal.TELLS)
            (T.means self.old.desk.turns) history (T.means self.new.desk.turns) (T.saw self.new.desk.turns)
            (P.counts self.old.desk.port.now) (P.counts self.new.desk.port.now)) }
    {
        puts::update(&mut self.desk, key, operand)
    }

    /// The value of the key, at the place that the lookup has in the history of all calls.
    pub fn lookup(&mut self, key: &Key) -> Result<Found, Stopped>
        requires turns { (T.means self.old.desk.turns).turns < 2 ^ 41 }
        requires ready { T.ready self.old.desk.turns }
        requires nothing { MayCall (T.means self.old.desk.turns) }
        requires seen { HasSeen (T.saw self.old.desk.turns) }
        requires law { L.rule self.old.desk.law.now ≡ (T.means self.old.desk.turns).rule }
        requires lawful { L.ready self.old.desk.law.now }
        ensures called { HasCalled (T.means self.old.desk.turns) (T.means self.new.desk.turns) }
        ensures few { MadeFew (T.means self.old.desk.turns) (T.means self.new.desk.turns) 1 }
        ensures ready { T.ready self.new.desk.turns }
        ensures law { self.new.desk.law.now ≡ self.old.desk.law.now }
        ensures device { self.new.desk.port.ghost_name ≡ self.old.desk.port.ghost_name }
        ensures pager { self.new.desk.pager.now ≡ self.old.desk.pager.now }
        ensures looked { (history : History) → T.saw self.old.desk.turns history → IfOk result (λ found. Looked
            (branch_kind P.Seal.TELLS) (T.means self.old.desk.turns) history (T.means self.new.desk.turns) (T.saw self.new.desk.turns)
            key.now found.place found.value) }

        // It has a place exactly where its descent had begun.
        ensures stopped { (history : History) → T.saw self.old.desk.turns history → IfErr result (λ stopped. MatchOption stopped.place
            (MadeNoCall (branch_kind P.Seal.TELLS) (T.means self.old.desk.turns) history (T.means self.new.desk.turns) (T.saw self.new.desk.turns))
            (λ place. MadeCall (branch_kind P.Seal.TELLS) (T.means self.old.desk.turns) history (T.means self.new.desk.turns)
            (T.saw self.new.desk.turns) (call.Piece (span_of_key key.now)) place)) }

        // How many turns it takes, and how many pages it reads.
        ensures within { (history : History) → T.saw self.old.desk.turns history → MatchResult result
            (λ found. Went (branch_kind P.Seal.TELLS) (T.means self.old.desk.turns) history (T.means self.new.desk.turns) (T.saw self.new.desk.turns)
            (λ turns seen. IsOnlyCall (T.means self.old.desk.turns).actor history (call.Piece (span_of_key key.now)) found.place turns seen
            × IsWithinReach P.Seal.TELLS key.now (P.counts self.old.desk.port.now) (P.counts self.new.desk.port.now) 0 turns))
            (λ stopped. Went (branch_kind P.Seal.TELLS) (T.means self.old.desk.turns) history (T.means self.new.desk.turns) (T.saw self.new.desk.turns)
            (λ turns seen. IsWithinReach P.Seal.TELLS key.now (P.counts self.old.desk.port.now) (P.counts self.new.desk.port.now) 1 turns)) }
        ensures port { NeverFell (P.counts self.old.desk.port.now) (P.counts self.new.desk.port.now) }
        ensures cause { IfErr result (λ stopped. HasLookCause P.Seal.TELLS (P.counts self.old.desk.port.now) (P.counts self.new.desk.port.now)
            (T.means self.new.desk.turns) stopped.fault) }
    {
        look::lookup(&mut self.desk, key)
    }
}
