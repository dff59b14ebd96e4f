//! How a merge begins.
ghost use Rattle.std.specs.Prelude.{◌≡◌, ℕ, ◌+◌, ◌<◌, ◌≤◌, true, length, IfOk};
ghost use Rattle.spl_base.specs.declared.TheConstants.{ACTORS};
ghost use Rattle.spl_bundle.specs.Numbered.{next_of};
ghost use Rattle.spl_message.specs.Rule.{Rule};
ghost use Rattle.spl_trunk.specs.Trunk.{node_at};
ghost use Rattle.spl_state.specs.Bounds.{AreBelow};
ghost use Rattle.spl_state.specs.Frame.{IsFramed};
ghost use Rattle.spl_state.specs.Sound.{AreDrafts};
ghost use Rattle.spl_state.specs.View.{branch_data};
ghost use Rattle.spl_state.specs.Whole.{branches, counts};
ghost use Rattle.spl_descent.specs.Sights.{AreBranches};
ghost use Rattle.spl_compact.specs.Starting.{AnswersTicket, HasRoom, IfTicket, IsTicketOf, OnTicket, Starts, run_at, start_refusal};

use crate::names::{hold_all, numbers_of, share};
use crate::refusal::refusal;
use spl_base::{ACTORS, NoMemory};
use spl_message::Content;
use spl_state::{Branches, Inputs, Job, Parts, Reply, Run, Ticket};
use std::alloc::Global;

/// Gives the actor the bundles of the node from `first` up to `last` to merge. They carry its mark until they are
/// merged or the actor gives up, and until then their branches stay.
pub fn start<B: Content>(
    alloc: Global,
    parts: &mut Parts<B>,
    actor: u32,
    node: u32,
    first: u64,
    last: u64,
) -> Reply<B>
    requires known { actor < ACTORS }
    requires fresh { AreBelow parts.old.nodes parts.old.tables parts.old.counters }
    requires room { HasRoom parts.old }
    ensures answer { AnswersTicket (start_refusal parts.old actor node first last) result }
    ensures done { OnTicket result (λ ticket. Starts parts.old parts.new actor node first last)
        (parts.new ≡ parts.old) }
    ensures ticket { IfTicket result (IsTicketOf B.number (branch_data B.extents B.entries B.cuts B.table)
        parts.old (run_at parts.old node first last)) }
    ensures counts { (number : ℕ) → counts parts.new number ≤ counts parts.old number + 768 }
    ensures steps { parts.new.counters.steps ≡ parts.old.counters.steps }
    ensures places { parts.new.counters.places ≡ parts.old.counters.places }
    ensures framed { (rule : Rule) → (B.TELLS ≡ true → AreDrafts rule parts.old)
        → IsFramed rule B.TELLS parts.old parts.new actor }
{
    let state = parts.state(actor);
    if state.descent || state.job {
        return Reply::Unfit { state };
    }
    let Some(found) = parts.trunk.node(node) else {
        let nodes = parts.trunk.count();
        return Reply::NoNode { nodes };
    };
    if let Some(refused) = refusal(found, first, last) {
        return refused;
    }
    let Ok(Taken { run, inputs }) = take_run(alloc, parts, node, first, last) else {
        return Reply::NoMemory;
    };
    let number = parts.counters.branches;
    let ticket = Ticket {
        node,
        first,
        last,
        generation: run.generation,
        span: run.span,
        bottom: run.bottom,
        number,
        inputs,
    };
    hold_all(&mut parts.refs, run.inputs.as_slice());
    parts.trunk.set_ticket(node, first, last, Some(actor));
    parts.counters.branches += 1;
    parts
        .actors
        .set_job(actor, Some(Job::Merge { number, run }));
    parts.actors.tell(actor, node);
    Reply::Ticket(ticket)
}

/// A run that is about to be merged, and its branches.
#[derive(Drop)]
struct Taken<B: Content> {
    run: Run,
    inputs: Branches<B>,
}

/// The run of the bundles from `first` up to `last`, with its branches.
fn take_run<B: Content>(
    alloc: Global,
    parts: &Parts<B>,
    node: u32,
    first: u64,
    last: u64,
) -> Result<Taken<B>, NoMemory>
    requires exists { node < length parts.now.nodes }
    requires stands { (node_at parts.now.nodes node).lists.first ≤ first }
    requires order { first ≤ last }
    requires made { last < next_of (node_at parts.now.nodes node).lists }
    ensures run { IfOk result (λ taken. taken.run ≡ run_at parts.now node first last) }
    ensures few { IfOk result (λ taken. length taken.run.inputs ≤ 768) }
    ensures inputs { IfOk result (λ taken. AreBranches B.number
        (branch_data B.extents B.entries B.cuts B.table)
        (branches parts.now) (run_at parts.now node first last).inputs taken.inputs) }
{
    let found = parts.trunk.node(node).unwrap();
    let lists = found.lists();
    let oldest = lists.first();
    let numbers = numbers_of(alloc, lists, first, last + 1)?;
    let inputs = share(alloc, &parts.refs, numbers.as_slice())?;
    let run = Run {
        node,
        first,
        last,
        generation: found.generation(),
        span: *found.range(),
        bottom: found.height() == 0 && first == oldest,
        inputs: Inputs::of(numbers),
    };
    Ok(Taken { run, inputs })
}
