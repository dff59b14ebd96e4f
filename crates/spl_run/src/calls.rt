//! The calls of a script over a desk.
ghost use Rattle.std.specs.Prelude.{◌≡◌, ◌<◌, ◌≤◌, ◌^◌, true, None, Some, IfOk, IfErr, OnErr};
ghost use Rattle.spl_message.specs.declared.call.Call.TheVariants as call;
ghost use Rattle.spl_message.specs.Answer.{told_of};
ghost use Rattle.spl_message.specs.History.{History};
ghost use Rattle.spl_desk.specs.Branches.{branch_kind};
ghost use Rattle.spl_desk.specs.Calls.{HasCalled, HasSeen, MadeCall, MadeFew, MadeNoCall, MayCall, NeverFell};
ghost use Rattle.spl_desk.specs.Causes.{HasCallCause};
ghost use Rattle.spl_desk.specs.Walk.{Went};
ghost use Rattle.spl_range.specs.Pieces.{IsLeft};
ghost use Rattle.spl_script.specs.Verb.{IsPutOrLook};
ghost use Rattle.spl_run.specs.Faults.{cause_for};
ghost use Rattle.spl_run.specs.Legal.{IfPairs};
ghost use Rattle.spl_run.specs.Status.{cause_of};
ghost use Rattle.spl_run.specs.Turns.{IsMade};

use spl_branch::Branch;
use spl_desk::{CallFault, Desk, Turns};
use spl_message::{Answer, Call, Cause, Key, MergeLaw, Message, Span, Value};
use spl_pager::Pager;
use spl_port::Port;
use spl_range::Pieces;
use spl_session::{delete, insert, lookup, update};

/// What a call was answered, with its place in the history of all calls where it has one.
#[derive(Drop)]
pub(crate) struct Made {
    pub(crate) place: Option<u64>,
    pub(crate) answer: Answer,
}

/// The cause of a fault.
fn cause_for(fault: CallFault) -> Cause
    ensures { result ≡ cause_for fault }
{
    match fault {
        CallFault::Fault => Cause::Fault,
        CallFault::Damaged(_) => Cause::Damaged,
        CallFault::Full => Cause::Full,
        CallFault::Nodes => Cause::Nodes,
        CallFault::Spent { .. } => Cause::Spent,
        CallFault::NoMemory => Cause::Memory,
    }
}

/// What a lookup says of a key's value.
fn told_of(value: Option<Value>) -> Answer
    ensures { result ≡ told_of value }
{
    match value {
        Some(value) => Answer::Value(value),
        None => Answer::Missing,
    }
}

/// Puts the message for the key, and answers its place.
fn put<T: Turns<Branch<P::Seal>>, P: Port, G: Pager, L: MergeLaw>(
    desk: &mut Desk<'_, T, P, G, L>,
    key: &Key,
    message: &Message,
) -> Result<u64, CallFault>
    requires turns { (T.means desk.old.turns).turns < 2 ^ 41 }
    requires ready { T.ready desk.old.turns }
    requires nothing { MayCall (T.means desk.old.turns) }
    requires seen { HasSeen (T.saw desk.old.turns) }
    requires law { L.rule desk.old.law.now ≡ (T.means desk.old.turns).rule }
    requires lawful { L.ready desk.old.law.now }
    ensures called { HasCalled (T.means desk.old.turns) (T.means desk.new.turns) }
    ensures few { MadeFew (T.means desk.old.turns) (T.means desk.new.turns) 1 }
    ensures ready { T.ready desk.new.turns }
    ensures law { desk.new.law.now ≡ desk.old.law.now }
    ensures device { desk.new.port.ghost_name ≡ desk.old.port.ghost_name }
    ensures pager { desk.new.pager.now ≡ desk.old.pager.now }
    ensures port { NeverFell (P.counts desk.old.port.now) (P.counts desk.new.port.now) }
    ensures placed { (history : History) → T.saw desk.old.turns history → IfOk result (MadeCall
        (branch_kind P.Seal.TELLS) (T.means desk.old.turns) history (T.means desk.new.turns) (T.saw desk.new.turns)
        (call.Put key.now message.now)) }
    ensures failed { (history : History) → T.saw desk.old.turns history → OnErr result (MadeNoCall
        (branch_kind P.Seal.TELLS) (T.means desk.old.turns) history (T.means desk.new.turns) (T.saw desk.new.turns)) }
    ensures cause { (history : History) → T.saw desk.old.turns history → IfErr result (HasCallCause
        (branch_kind P.Seal.TELLS) (T.means desk.old.turns) history (T.means desk.new.turns) (T.saw desk.new.turns)
        (P.counts desk.old.port.now) (P.counts desk.new.port.now)) }
{
    match message {
        Message::Insert(value) => insert(desk, key, value),
        Message::Update(operand) => update(desk, key, operand),
        Message::Delete => delete(desk, key),
    }
}

/// Makes a put, and answers it.
fn make_put<T: Turns<Branch<P::Seal>>, P: Port, G: Pager, L: MergeLaw>(
    desk: &mut Desk<'_, T, P, G, L>,
    key: &Key,
    message: &Message,
) -> Made
    requires turns { (T.means desk.old.turns).turns < 2 ^ 41 }
    requires ready { T.ready desk.old.turns }
    requires nothing { MayCall (T.means desk.old.turns) }
    requires seen { HasSeen (T.saw desk.old.turns) }
    requires law { L.rule desk.old.law.now ≡ (T.means desk.old.turns).rule }
    requires lawful { L.ready desk.old.law.now }
    requires alone { (T.means desk.old.turns).alone ≡ true }
    ensures called { HasCalled (T.means desk.old.turns) (T.means desk.new.turns) }
    ensures few { MadeFew (T.means desk.old.turns) (T.means desk.new.turns) 1 }
    ensures ready { T.ready desk.new.turns }
    ensures law { desk.new.law.now ≡ desk.old.law.now }
    ensures device { desk.new.port.ghost_name ≡ desk.old.port.ghost_name }
    ensures pager { desk.new.pager.now ≡ desk.old.pager.now }
    ensures port { NeverFell (P.counts desk.old.port.now) (P.counts desk.new.port.now) }
    ensures made { (history : History) → T.saw desk.old.turns history → Went (branch_kind P.Seal.TELLS)
        (T.means desk.old.turns) history (T.means desk.new.turns) (T.saw desk.new.turns)
        (IsMade P.Seal.TELLS (T.means desk.old.turns) history (P.counts desk.old.port.now) (P.counts desk.new.port.now)
        (T.means desk.new.turns).turns (call.Put key.now message.now) result.place result.answer) }
{
    match put(desk, key, message) {
        Ok(place) => Made {
            place: Some(place),
            answer: Answer::Done,
        },
        Err(fault) => Made {
            place: None,
            answer: Answer::Stopped(cause_for(fault)),
        },
    }
}

/// Makes a lookup, and answers it.
fn make_look<T: Turns<Branch<P::Seal>>, P: Port, G: Pager, L: MergeLaw>(
    desk: &mut Desk<'_, T, P, G, L>,
    key: &Key,
) -> Made
    requires turns { (T.means desk.old.turns).turns < 2 ^ 41 }
    requires ready { T.ready desk.old.turns }
    requires nothing { MayCall (T.means desk.old.turns) }
    requires seen { HasSeen (T.saw desk.old.turns) }
    requires law { L.rule desk.old.law.now ≡ (T.means desk.old.turns).rule }
    requires lawful { L.ready desk.old.law.now }
    requires alone { (T.means desk.old.turns).alone ≡ true }
    ensures called { HasCalled (T.means desk.old.turns) (T.means desk.new.turns) }
    ensures few { MadeFew (T.means desk.old.turns) (T.means desk.new.turns) 1 }
    ensures ready { T.ready desk.new.turns }
    ensures law { desk.new.law.now ≡ desk.old.law.now }
    ensures device { desk.new.port.ghost_name ≡ desk.old.port.ghost_name }
    ensures pager { desk.new.pager.now ≡ desk.old.pager.now }
    ensures port { NeverFell (P.counts desk.old.port.now) (P.counts desk.new.port.now) }
    ensures made { (history : History) → T.saw desk.old.turns history → Went (branch_kind P.Seal.TELLS)
        (T.means desk.old.turns) history (T.means desk.new.turns) (T.saw desk.new.turns)
        (IsMade P.Seal.TELLS (T.means desk.old.turns) history (P.counts desk.old.port.now) (P.counts desk.new.port.now)
        (T.means desk.new.turns).turns (call.Look key.now) result.place result.answer) }
{
    match lookup(desk, key) {
        Ok(found) => Made {
            place: Some(found.place),
            answer: told_of(found.value),
        },
        Err(stopped) => Made {
            place: stopped.place,
            answer: Answer::Stopped(cause_for(stopped.fault)),
        },
    }
}

/// Asks for the first piece of what is left of a scan, and answers it.
pub(crate) fn make_piece<T: Turns<Branch<P::Seal>>, P: Port, G: Pager, L: MergeLaw>(
    desk: &mut Desk<'_, T, P, G, L>,
    pieces: &mut Pieces,
    left: &Span,
) -> Made
    requires left { pieces.old ≡ Some left.now }
    requires turns { (T.means desk.old.turns).turns < 2 ^ 41 }
    requires ready { T.ready desk.old.turns }
    requires nothing { MayCall (T.means desk.old.turns) }
    requires seen { HasSeen (T.saw desk.old.turns) }
    requires law { L.rule desk.old.law.now ≡ (T.means desk.old.turns).rule }
    requires lawful { L.ready desk.old.law.now }
    requires alone { (T.means desk.old.turns).alone ≡ true }
    ensures called { HasCalled (T.means desk.old.turns) (T.means desk.new.turns) }
    ensures few { MadeFew (T.means desk.old.turns) (T.means desk.new.turns) 1 }
    ensures ready { T.ready desk.new.turns }
    ensures law { desk.new.law.now ≡ desk.old.law.now }
    ensures device { desk.new.port.ghost_name ≡ desk.old.port.ghost_name }
    ensures pager { desk.new.pager.now ≡ desk.old.pager.now }
    ensures port { NeverFell (P.counts desk.old.port.now) (P.counts desk.new.port.now) }
    ensures made { (history : History) → T.saw desk.old.turns history → Went (branch_kind P.Seal.TELLS)
        (T.means desk.old.turns) history (T.means desk.new.turns) (T.saw desk.new.turns)
        (IsMade P.Seal.TELLS (T.means desk.old.turns) history (P.counts desk.old.port.now) (P.counts desk.new.port.now)
        (T.means desk.new.turns).turns (call.Piece left.now) result.place result.answer) }

    // Behind an answered piece stands what it left, and it took a turn, of which a desk has 2^40.
    ensures left { cause_of result.answer ≡ None → IfPairs result.answer (λ end. IsLeft left.now end pieces.new) }
    ensures turned { cause_of result.answer ≡ None → ((T.means desk.old.turns).turns < (T.means desk.new.turns).turns)
        × ((T.means desk.new.turns).turns ≤ 2 ^ 40) }
{
    match pieces.next(desk) {
        Ok(Some(piece)) => Made {
            place: Some(piece.place),
            answer: Answer::Pairs {
                end: piece.span.to,
                pairs: piece.pairs,
            },
        },
        Ok(None) => unreachable!(),
        Err(cut) => Made {
            place: cut.place,
            answer: Answer::Stopped(cause_for(cut.fault)),
        },
    }
}

/// Makes the call, and answers it.
pub(crate) fn make_call<T: Turns<Branch<P::Seal>>, P: Port, G: Pager, L: MergeLaw>(
    desk: &mut Desk<'_, T, P, G, L>,
    call: &Call,
) -> Made
    requires known { IsPutOrLook call.now }
    requires turns { (T.means desk.old.turns).turns < 2 ^ 41 }
    requires ready { T.ready desk.old.turns }
    requires nothing { MayCall (T.means desk.old.turns) }
    requires seen { HasSeen (T.saw desk.old.turns) }
    requires law { L.rule desk.old.law.now ≡ (T.means desk.old.turns).rule }
    requires lawful { L.ready desk.old.law.now }
    requires alone { (T.means desk.old.turns).alone ≡ true }
    ensures called { HasCalled (T.means desk.old.turns) (T.means desk.new.turns) }
    ensures few { MadeFew (T.means desk.old.turns) (T.means desk.new.turns) 1 }
    ensures ready { T.ready desk.new.turns }
    ensures law { desk.new.law.now ≡ desk.old.law.now }
    ensures device { desk.new.port.ghost_name ≡ desk.old.port.ghost_name }
    ensures pager { desk.new.pager.now ≡ desk.old.pager.now }
    ensures port { NeverFell (P.counts desk.old.port.now) (P.counts desk.new.port.now) }
    ensures made { (history : History) → T.saw desk.old.turns history → Went (branch_kind P.Seal.TELLS)
        (T.means desk.old.turns) history (T.means desk.new.turns) (T.saw desk.new.turns)
        (IsMade P.Seal.TELLS (T.means desk.old.turns) history (P.counts desk.old.port.now) (P.counts desk.new.port.now)
        (T.means desk.new.turns).turns call.now result.place result.answer) }
{
    match call {
        Call::Put(key, message) => make_put(desk, key, message),
        Call::Look(key) => make_look(desk, key),
        Call::Piece(_) => unreachable!(),
    }
}
