//! How a job begins: the memtable that it packs, and the extents that it writes.
ghost use Rattle.std.specs.Prelude.{◌≡◌, ◌≢◌, ℕ, ◌<◌, Some, true};
ghost use Rattle.spl_base.specs.declared.TheConstants.{ACTORS};
ghost use Rattle.spl_message.specs.Rule.{Rule};
ghost use Rattle.spl_message.specs.Table.{Table};
ghost use Rattle.spl_tables.specs.Memtables.{first_unpicked};
ghost use Rattle.spl_pack.specs.Granting.{grant_answer, extent_in, Grants};
ghost use Rattle.spl_pack.specs.Picking.{MayPick, pick_answer, picked_at};
ghost use Rattle.spl_state.specs.Bounds.{AreBelow};
ghost use Rattle.spl_state.specs.Frame.{IsFramed};
ghost use Rattle.spl_state.specs.Sound.{AreDrafts};

use spl_base::ACTORS;
use spl_message::Content;
use spl_state::{Job, Parts, Reply};

/// Picks the oldest frozen memtable that nobody picked. The actor's job is to pack it into a branch with a new number.
pub fn pick_frozen<B: Content>(parts: &mut Parts<B>, actor: u32) -> Reply<B>
    requires known { actor < ACTORS }
    requires fresh { AreBelow parts.old.nodes parts.old.tables parts.old.counters }
    ensures answer { result ≢ Reply.NoMemory → result ≡ pick_answer parts.old actor }
    ensures memory { result ≡ Reply.NoMemory → MayPick parts.old actor }
    ensures done { (position number : ℕ) (table : Table) → first_unpicked parts.old.tables.frozen ≡ Some position
        → result ≡ Reply.Picked number table → parts.new ≡ picked_at parts.old actor position }
    ensures refused { ((number : ℕ) (table : Table) → result ≢ Reply.Picked number table) → parts.new ≡ parts.old }
    ensures steps { parts.new.counters.steps ≡ parts.old.counters.steps }
    ensures places { parts.new.counters.places ≡ parts.old.counters.places }
    ensures framed { (rule : Rule) → (B.TELLS ≡ true → AreDrafts rule parts.old) → IsFramed rule B.TELLS parts.old parts.new actor }
{
    let state = parts.state(actor);
    if state.descent || state.job {
        return Reply::Unfit { state };
    }
    match parts.tables.pick(actor) {
        Err(_) => Reply::NoMemory,
        Ok(None) => Reply::Nothing,
        Ok(Some(picked)) => {
            let number = parts.counters.branches;
            parts.counters.branches += 1;
            let job = Job::Pack {
                number,
                table: picked.number,
            };
            parts.actors.set_job(actor, Some(job));
            Reply::Picked {
                number,
                table: picked.table,
            }
        }
    }
}

/// Grants a free extent to an actor with a job of which nothing is published. Which one is unspecified.
pub fn grant<B: Content>(parts: &mut Parts<B>, actor: u32) -> Reply<B>
    requires known { actor < ACTORS }
    ensures answer { result ≡ grant_answer parts.old actor (extent_in result) }
    ensures done { (extent : ℕ) → result ≡ Reply.Granted extent → Grants parts.old parts.new actor extent }
    ensures refused { ((extent : ℕ) → result ≢ Reply.Granted extent) → parts.new ≡ parts.old }
    ensures steps { parts.new.counters.steps ≡ parts.old.counters.steps }
    ensures places { parts.new.counters.places ≡ parts.old.counters.places }
    ensures framed { (rule : Rule) → (B.TELLS ≡ true → AreDrafts rule parts.old) → IsFramed rule B.TELLS parts.old parts.new actor }
{
    let state = parts.state(actor);
    if !state.job || state.published {
        return Reply::Unfit { state };
    }
    match parts.pool.grant(actor) {
        Some(extent) => Reply::Granted { extent },
        None => Reply::NoExtent,
    }
}
