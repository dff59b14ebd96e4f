//! How a job that packs ends: its branch is published, and then hung at the root.
ghost use Rattle.std.specs.Prelude.{◌≡◌, ◌≢◌, ℕ, ◌<◌, ◌↔◌, Some, true, IsTrue, length};
ghost use Rattle.spl_base.specs.declared.TheConstants.{ACTORS};
ghost use Rattle.spl_extent.specs.Pool.{granted_to};
ghost use Rattle.spl_message.specs.Rule.{Rule};
ghost use Rattle.spl_numbers.specs.Numbers.{ListsEach};
ghost use Rattle.spl_pack.specs.Publishing.{MayPublish, Publishes, AsksFor, held_all};
ghost use Rattle.spl_pack.specs.Incorporating.{ready_in, older_than, incorporate_answer, incorporated};
ghost use Rattle.spl_pack.specs.declared.draft.Packed.{Packed};
ghost use Rattle.spl_state.specs.Bounds.{AreBelow};
ghost use Rattle.spl_state.specs.Extents.{number_of};
ghost use Rattle.spl_state.specs.Frame.{IsFramed};
ghost use Rattle.spl_state.specs.Reply.{state_of};
ghost use Rattle.spl_state.specs.Sound.{AreDrafts};
ghost use Rattle.spl_state.specs.View.{branch_data};

use spl_base::ACTORS;
use spl_extent::Pool;
use spl_holds::Grip;
use spl_message::Content;
use spl_state::{Job, Parts, Reply};
use spl_tables::{Memtables, Oldest};
use std::sync::Arc;

const ROOT: u32 = 0;

/// Publishes the branch of the actor's job, which has the job's number and lies in the extents that the actor was
/// granted.
pub fn publish<B: Content>(parts: &mut Parts<B>, actor: u32, branch: Arc<B>) -> Reply<B>
    requires known { actor < ACTORS }
    ensures unfit { (result ≡ Reply.Unfit (state_of parts.old actor))
        ↔ ¬ (MayPublish parts.old actor (B.number branch.value) (B.extents branch.value)) }
    ensures answer { MayPublish parts.old actor (B.number branch.value) (B.extents branch.value)
        → result ≢ Reply.NoMemory → result ≡ Reply.Done }
    ensures done { result ≡ Reply.Done → Publishes parts.old parts.new actor (B.number branch.value)
        (branch_data B.extents B.entries B.cuts B.table branch.value) }
    ensures refused { result ≢ Reply.Done → parts.new ≡ parts.old }
    ensures steps { parts.new.counters.steps ≡ parts.old.counters.steps }
    ensures places { parts.new.counters.places ≡ parts.old.counters.places }

    // The caller knows that the table is the one that the job asks for.
    ensures framed { (rule : Rule) → (B.TELLS ≡ true → AreDrafts rule parts.old)
        → (B.TELLS ≡ true → AsksFor rule parts.old actor (B.table branch.value))
        → IsFramed rule B.TELLS parts.old parts.new actor }
{
    if !may_publish(parts, actor, &*branch) {
        let state = parts.state(actor);
        return Reply::Unfit { state };
    }
    let number = branch.number();
    let Ok(shared) = branch.clone() else {
        return Reply::NoMemory;
    };
    if parts.refs.publish(branch).is_err() {
        return Reply::NoMemory;
    }
    hold_all(&mut parts.pool, actor, shared.extents(), number);
    parts.actors.publish(actor);
    Reply::Done
}

/// Whether the actor may publish the branch.
fn may_publish<B: Content>(parts: &mut Parts<B>, actor: u32, branch: &B) -> bool
    requires { actor < ACTORS }
    ensures answer { IsTrue result ↔ MayPublish parts.old actor (B.number branch.now) (B.extents branch.now) }
    ensures unchanged { parts.new ≡ parts.old }
{
    let has = parts.actors.at(actor);
    match &has.job {
        Some(job) if !has.published && number_of(job) == branch.number() => {
            parts.pool.are_granted(actor, branch.extents())
        }
        _ => false,
    }
}

fn number_of(job: &Job) -> u64
    ensures { result ≡ number_of job.now }
{
    match job {
        Job::Pack { number, .. } => *number,
        Job::Merge { number, .. } => *number,
    }
}

/// Transfers all extents that the actor was granted to the branch.
fn hold_all(pool: &mut Pool, actor: u32, extents: &[u32], branch: u64)
    requires known { actor < ACTORS }
    requires all { ListsEach extents.now (granted_to pool.old actor) }
    ensures { pool.new ≡ held_all pool.old actor branch }
{
    for extent in extents {
        pool.hold(actor, *extent, branch);
    }
}

/// Hangs the branch that the actor packed at the root, as its newest bundle. It replaces the oldest frozen memtable.
pub fn incorporate<B: Content>(parts: &mut Parts<B>, actor: u32) -> Reply<B>
    requires known { actor < ACTORS }
    requires fresh { AreBelow parts.old.nodes parts.old.tables parts.old.counters }
    ensures answer { result ≡ incorporate_answer parts.old actor }
    ensures done { (packed : Packed) → ready_in parts.old actor ≡ Some packed
        → result ≡ Reply.Done → parts.new ≡ incorporated parts.old actor packed.number }
    ensures refused { result ≢ Reply.Done → parts.new ≡ parts.old }
    ensures steps { parts.new.counters.steps ≡ parts.old.counters.steps }
    ensures places { parts.new.counters.places ≡ parts.old.counters.places }
    ensures framed { (rule : Rule) → (B.TELLS ≡ true → AreDrafts rule parts.old) → IsFramed rule B.TELLS parts.old parts.new actor }
{
    let Some(packed) = ready(parts, actor) else {
        let state = parts.state(actor);
        return Reply::Unfit { state };
    };
    if let Some(oldest) = older_than(&parts.tables, packed.table) {
        return Reply::NotOldest {
            oldest: oldest.number,
            by: oldest.picked,
        };
    }
    if parts.trunk.push(ROOT, &[packed.number]).is_err() {
        return Reply::NeedsFlush;
    }
    parts.tables.remove_oldest();
    parts.actors.set_job(actor, None);
    Reply::Done
}

/// A branch that an actor packed and published, and the frozen memtable that it packed.
#[derive(Clone, Copy)]
struct Packed {
    number: u64,
    table: u64,
}

/// What the actor packed, if it published that and writes the root.
fn ready<B: Content>(parts: &Parts<B>, actor: u32) -> Option<Packed>
    requires { actor < ACTORS }
    ensures { result ≡ ready_in parts.now actor }
{
    let has = parts.actors.at(actor);
    match &has.job {
        Some(Job::Pack { number, table })
            if has.published && parts.holds.grip(actor, ROOT) == Grip::Write => {
            Some(Packed {
                number: *number,
                table: *table,
            })
        }
        _ => None,
    }
}

/// The oldest frozen memtable, if it is not this one.
fn older_than(tables: &Memtables, table: u64) -> Option<Oldest>
    requires { 0 < length tables.now.frozen }
    ensures { result ≡ older_than tables.now.frozen table }
{
    let oldest = tables.oldest()?;
    (oldest.number != table).then_some(oldest)
}
