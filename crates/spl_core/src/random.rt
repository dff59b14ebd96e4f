//! Random schedules of a core beside a plain list of what each key holds.
//!
//! Four actors make steps in a random order, each along a plan: it puts, looks a key up, packs, merges, flushes, raises
//! or splits. At times it makes any other step in between, fit or not. Each lookup that comes to a leaf has to find
//! what the list held at its begin, whatever the others did on the way.
//!
//! Each put has a stamp: an even one is an insert or an update with the stamp as its value, and an odd one is a delete.
//! So the newest message of a key says what the key holds.
ghost use Rattle.std.specs.Prelude.{◌≡◌, ℕ, List, [], false};
ghost use Rattle.spl_message.specs.Table.{as_table};

use crate::{Core, Step};
use spl_base::ACTORS;
use spl_memtable::Slice;
use spl_message::{Bound, Content, HashedKey, Key, Message, Newest, Span, Value};
use spl_node::Pivot;
use spl_state::{Reply, Sight, Ticket, View};
use std::alloc::Global;
use std::sync::Arc;
use std::test::Fail;

/// The schedule ends at so many steps, or a few more, and has no more turns than this.
const STEPS: u64 = 100_000;

const TURNS: u32 = 100_000;

const EXTENTS: u32 = 32;

/// The keys are the numbers below this one, in two bytes.
const KEYS: u32 = 3000;

/// How many keys a turn puts.
const BURST: u32 = 64;

/// The keys at which nodes are split are this many keys apart.
const PART: u32 = 128;

/// A branch that holds its entries in memory: for each key the stamp of its message, or 0 where it has none.
#[derive(Drop)]
struct Held {
    number: u64,
    extents: [u32; 1],
    stamps: Vec<u32>,
}

impl Content for Held {
    ghost TELLS = { false };

    ghost table = { λ _. as_table [] };

    ghost number = { λ held. held.number };

    ghost extents = { λ held. held.extents };

    ghost entries = { λ _. 0 };

    ghost cuts = { λ _. [] };

    ghost reach = { λ _ _. 0 };

    fn number(&self) -> u64 {
        self.number
    }

    fn extents(&self) -> &[u32] {
        &self.extents
    }

    fn entries(&self) -> u64 {
        0
    }

    fn cuts(&self) -> &[Key] {
        &[]
    }

    fn reach(&self, _key: &HashedKey) -> u32 {
        0
    }
}

/// Random numbers by xorshift.
#[derive(Drop)]
struct Random {
    state: u64,
}

impl Random {
    /// A number below the bound, or 0.
    fn below(&mut self, bound: u32) -> u32 {
        let mut state = self.state;
        state ^= state << 13;
        state ^= state >> 7;
        state ^= state << 17;
        self.state = state;
        ((state >> 33) % u64::from(bound.max(1))) as u32
    }

    /// An index of a list of this length, or 0.
    fn index(&mut self, len: usize) -> usize {
        self.below(1 << 16) as usize % len.max(1)
    }
}

/// What an actor does in a turn.
#[derive(Clone, Copy, PartialEq, Eq)]
enum Deed {
    Puts,
    Rotate,
    Begin,
    MoveDown,
    End,
    Claim,
    Lock,
    Unlock,
    ClaimChild,
    LockChild,
    PickFrozen,
    Grant,
    Publish,
    Incorporate,
    Flush,
    Start,
    Install,
    Raise,
    Split,
    Survey,
    Abandon,
    Retire,
}

const ANY: [Deed; 22] = [
    Deed::Puts,
    Deed::Rotate,
    Deed::Begin,
    Deed::MoveDown,
    Deed::End,
    Deed::Claim,
    Deed::Lock,
    Deed::Unlock,
    Deed::ClaimChild,
    Deed::LockChild,
    Deed::PickFrozen,
    Deed::Grant,
    Deed::Publish,
    Deed::Incorporate,
    Deed::Flush,
    Deed::Start,
    Deed::Install,
    Deed::Raise,
    Deed::Split,
    Deed::Survey,
    Deed::Abandon,
    Deed::Retire,
];

const PUT: [Deed; 6] = [
    Deed::Puts,
    Deed::Puts,
    Deed::Puts,
    Deed::Puts,
    Deed::Puts,
    Deed::Rotate,
];

const LOOK: [Deed; 3] = [Deed::Begin, Deed::MoveDown, Deed::End];

const PACK: [Deed; 7] = [
    Deed::PickFrozen,
    Deed::Grant,
    Deed::Publish,
    Deed::Claim,
    Deed::Lock,
    Deed::Incorporate,
    Deed::Abandon,
];

const MERGE: [Deed; 20] = [
    Deed::Start,
    Deed::Survey,
    Deed::Survey,
    Deed::Survey,
    Deed::Survey,
    Deed::Survey,
    Deed::Survey,
    Deed::Survey,
    Deed::Survey,
    Deed::Grant,
    Deed::Publish,
    Deed::Claim,
    Deed::Lock,
    Deed::Install,
    Deed::Unlock,
    Deed::Claim,
    Deed::Lock,
    Deed::Install,
    Deed::Unlock,
    Deed::Abandon,
];

const FLUSH: [Deed; 6] = [
    Deed::Claim,
    Deed::Lock,
    Deed::ClaimChild,
    Deed::LockChild,
    Deed::Flush,
    Deed::Abandon,
];

const RAISE: [Deed; 4] = [Deed::Claim, Deed::Lock, Deed::Raise, Deed::Abandon];

const SPLIT: [Deed; 9] = [
    Deed::Claim,
    Deed::Lock,
    Deed::ClaimChild,
    Deed::LockChild,
    Deed::Split,
    Deed::Split,
    Deed::Split,
    Deed::Split,
    Deed::Abandon,
];

/// What an actor is doing.
#[derive(Drop)]
struct Seat {
    plan: &'static [Deed],

    /// Where it is in the plan.
    at: usize,
    node: u32,
    child: u32,

    /// The run of bundles to be merged.
    first: u64,
    last: u64,

    /// The branch to be made.
    number: u64,
    extent: u32,
    stamps: Vec<u32>,

    /// Where a node is to be split.
    cut: u32,

    /// The key that is looked up.
    key: u32,

    /// The stamp of the newest put of the key at the begin of the lookup, and what was found so far.
    wanted: u32,
    found: u32,
    reading: bool,
}

/// How often what matters was done.
#[derive(Clone, Copy)]
struct Counts {
    incorporated: u32,
    installed: u32,
    heirs: u32,
    flushed: u32,
    raised: u32,
    split: u32,
    looked_up: u32,
    below: u32,
}

/// What the test has beside the core and the actors' seats.
#[derive(Drop)]
struct Table {
    alloc: Global,
    random: Random,

    /// For each key the stamp of its newest put, or 0.
    newest: Vec<u32>,
    stamp: u32,
    nodes: u32,
    counts: Counts,
}

/// So many zeros.
fn zeros(alloc: Global, count: u32) -> Result<Vec<u32>, Fail> {
    let mut zeros = Vec::new(alloc);
    for _zero in 0..count {
        zeros.push(0)?;
    }
    Ok(zeros)
}

/// The element, or 0.
fn element(list: &[u32], index: u32) -> u32 {
    match list.get(index as usize) {
        Some(element) => *element,
        None => 0,
    }
}

/// Writes the element, where there is one.
fn set(list: &mut [u32], index: u32, value: u32) {
    if let Some(element) = list.get_mut(index as usize) {
        *element = value;
    }
}

fn key_of(number: u32) -> Result<Key, Fail> {
    let [_, _, high, low] = number.to_be_bytes();
    Ok(Key::read(&[high, low])?)
}

fn number_of(bytes: &[u8]) -> u32 {
    let mut number = 0u32;
    for byte in bytes {
        number = (number << 8) | u32::from(*byte);
    }
    number
}

/// The message with this stamp.
fn message_of(alloc: Global, stamp: u32) -> Result<Message, Fail> {
    if stamp % 2 == 1 {
        return Ok(Message::Delete);
    }
    let value = Value::read(alloc, &stamp.to_be_bytes())?;
    if stamp % 4 == 0 {
        Ok(Message::Insert(value))
    } else {
        Ok(Message::Update(value))
    }
}

/// The stamp of the message, or 1 of a delete.
fn stamp_of(message: &Message) -> u32 {
    match message {
        Message::Insert(value) | Message::Update(value) => number_of(value.bytes()),
        Message::Delete => 1,
    }
}

/// The value that the message with this stamp leaves, or 0.
fn value_of(stamp: u32) -> u32 {
    if stamp % 2 == 0 { stamp } else { 0 }
}

/// Makes a step of a core that has made few.
fn make(core: &mut Core<Held, Newest>, actor: u32, step: Step<Held>) -> Result<Reply<Held>, Fail> {
    if actor >= ACTORS || core.steps() >= 1 << 46 {
        return Err("too many actors or steps".into());
    }
    Ok(core.step(actor, step))
}

/// Puts many keys.
fn puts(core: &mut Core<Held, Newest>, table: &mut Table, actor: u32) -> Result<(), Fail> {
    for _put in 0..BURST {
        let number = table.random.below(KEYS);
        let stamp = table.stamp.wrapping_add(1);
        table.stamp = stamp;
        let key = key_of(number)?;
        let message = message_of(table.alloc, stamp)?;
        if is_placed(&make(core, actor, Step::Put { key, message })?) {
            set(table.newest.as_mut_slice(), number, stamp);
        }
    }
    Ok(())
}

fn is_placed(reply: &Reply<Held>) -> bool {
    matches!(reply, Reply::Placed { .. })
}

/// The plan for a random number below 32.
fn plan_of(number: u32) -> &'static [Deed] {
    match number {
        0..=5 => &PUT,
        6..=13 => &LOOK,
        14..=16 => &PACK,
        17..=23 => &MERGE,
        24..=28 => &FLUSH,
        29..=30 => &SPLIT,
        _ => &RAISE,
    }
}

/// Begins another plan, for which the actor surveys a node first.
fn choose(random: &mut Random, seat: &mut Seat, nodes: u32) {
    let number = random.below(if is_time_to_raise(nodes) { 32 } else { 31 });
    seat.at = 0;
    seat.plan = plan_of(number);
    let node = random.below(nodes);
    seat.node = if is_at_root(number) || random.below(2) == 0 {
        0
    } else {
        node
    };
    if !seat.reading {
        seat.key = random.below(KEYS);
    }
}

/// Whether a plan may raise the root.
fn is_time_to_raise(nodes: u32) -> bool {
    nodes == 1 || nodes == 8
}

/// Whether the plan for the number is one for the root.
fn is_at_root(number: u32) -> bool {
    (14..=16).contains(&number) || number == 31
}

/// What the actor does next, and whether that is the next deed of its plan.
fn next_deed(random: &mut Random, seat: &mut Seat, nodes: u32) -> (Deed, bool) {
    if random.below(16) == 0 {
        return (any(random), false);
    }
    match seat.plan.get(seat.at) {
        Some(deed) => (*deed, true),
        None => {
            choose(random, seat, nodes);
            (Deed::Survey, false)
        }
    }
}

/// Any deed, but seldom a raise: many of them would make a chain of nodes with one child each.
fn any(random: &mut Random) -> Deed {
    let rare = random.below(8) == 0;
    match ANY.get(random.index(22)) {
        Some(deed) if rare || *deed != Deed::Raise => *deed,
        _ => Deed::Retire,
    }
}

/// The keys from this one on, and below the next.
fn span_of(number: u32) -> Result<Span, Fail> {
    let key = key_of(number)?;
    Ok(Span {
        from: Some(key),
        to: Some(Bound::after(&key)),
    })
}

/// The branch that the actor made.
fn branch_of(alloc: Global, seat: &Seat) -> Result<Arc<Held>, Fail> {
    let held = Held {
        number: seat.number,
        extents: [seat.extent],
        stamps: seat.stamps.clone()?,
    };
    Ok(Arc::new(alloc, held)?)
}

fn has_any(stamps: &[u32]) -> bool {
    for stamp in stamps {
        if *stamp != 0 {
            return true;
        }
    }
    false
}

/// The step for the deed.
fn step_of(alloc: Global, deed: Deed, seat: &Seat) -> Result<Step<Held>, Fail> {
    let (node, child) = (seat.node, seat.child);
    let (first, last) = (seat.first, seat.last);
    Ok(match deed {
        Deed::Puts | Deed::Rotate => Step::Rotate,
        Deed::Begin => Step::Begin {
            span: span_of(seat.key)?,
        },
        Deed::MoveDown => Step::MoveDown,
        Deed::End => Step::End,
        Deed::Claim => Step::Claim { node },
        Deed::Lock => Step::Lock { node },
        Deed::Unlock => Step::Unlock { node },
        Deed::ClaimChild => Step::Claim { node: child },
        Deed::LockChild => Step::Lock { node: child },
        Deed::PickFrozen => Step::PickFrozen,
        Deed::Grant => Step::Grant,
        Deed::Publish => Step::Publish {
            branch: branch_of(alloc, seat)?,
        },
        Deed::Incorporate => Step::Incorporate,
        Deed::Flush => Step::Flush {
            parent: node,
            child,
        },
        Deed::Start => Step::Start { node, first, last },
        Deed::Install => Step::Install {
            node,
            output: has_any(seat.stamps.as_slice()),
        },
        Deed::Raise => Step::Raise,
        Deed::Split => Step::Split {
            parent: node,
            child,
            key: key_of(seat.cut / PART * PART)?,
        },
        Deed::Survey => Step::Survey { node },
        Deed::Abandon => Step::Abandon,
        Deed::Retire => Step::Retire,
    })
}

/// The stamp of the newest message of the key in what the actor sees, or 0.
fn seen(sight: &Sight<Held>, number: u32) -> Result<u32, Fail> {
    let mut stamp = 0;
    for branch in sight.branches.as_slice() {
        let found = element(branch.stamps.as_slice(), number);
        if found != 0 {
            stamp = found;
        }
    }
    let key = key_of(number)?;
    for table in sight.tables.as_slice() {
        if let Some(message) = table.get(&key) {
            stamp = stamp_of(message);
        }
    }
    Ok(stamp)
}

/// Looks into what the actor sees, and at a leaf compares what was found with the list at the begin.
fn look(counts: &mut Counts, seat: &mut Seat, sight: &Sight<Held>) -> Result<(), Fail> {
    if seat.found == 0 {
        seat.found = seen(sight, seat.key)?;
    }
    if !sight.leaf {
        return Ok(());
    }
    seat.reading = false;
    if value_of(seat.found) != value_of(seat.wanted) {
        return Err("a lookup found another value".into());
    }
    counts.looked_up = counts.looked_up.wrapping_add(1);
    if sight.node != 0 && seat.wanted != 0 {
        counts.below = counts.below.wrapping_add(1);
    }
    Ok(())
}

/// Takes the table to be packed.
fn pick(alloc: Global, seat: &mut Seat, number: u64, slice: &Slice) -> Result<(), Fail> {
    let mut stamps = zeros(alloc, KEYS)?;
    for (key, message) in slice.entries() {
        set(
            stamps.as_mut_slice(),
            number_of(key.bytes()),
            stamp_of(message),
        );
    }
    seat.number = number;
    seat.stamps = stamps;
    Ok(())
}

/// Merges the branches of the ticket.
fn merge(alloc: Global, seat: &mut Seat, ticket: &Ticket<Held>) -> Result<(), Fail> {
    let mut stamps = zeros(alloc, KEYS)?;
    for number in 0..KEYS {
        let stamp = merged(ticket, number);
        if stamp != 0 && ticket.span.holds(&key_of(number)?) {
            set(stamps.as_mut_slice(), number, stamp);
        }
    }
    seat.number = ticket.number;
    seat.stamps = stamps;
    Ok(())
}

/// The stamp of the key's newest message in the ticket's branches, or 0. A delete with nothing below leaves nothing.
fn merged(ticket: &Ticket<Held>, number: u32) -> u32 {
    let mut stamp = 0;
    for branch in ticket.inputs.as_slice() {
        let found = element(branch.stamps.as_slice(), number);
        if found != 0 {
            stamp = found;
        }
    }
    if ticket.bottom {
        value_of(stamp)
    } else {
        stamp
    }
}

/// The child for which the most is live, or 0.
fn most_behind(pivots: &[Pivot]) -> u32 {
    let mut mark = u64::MAX;
    let mut child = 0;
    for pivot in pivots {
        if pivot.mark < mark {
            mark = pivot.mark;
            child = pivot.child.unwrap_or(0);
        }
    }
    child
}

/// Chooses a child of the node that is shown, and a run of its bundles.
fn choose_run(random: &mut Random, seat: &mut Seat, view: &View) {
    let pivots = view.pivots.as_slice();
    if random.below(2) == 0 {
        seat.child = most_behind(pivots);
    } else if let Some(pivot) = pivots.get(random.index(pivots.len())) {
        seat.child = pivot.child.unwrap_or(0);
    }
    let bundles = view.bundles.as_slice();
    if let Some(bundle) = bundles.get(random.index(bundles.len())) {
        seat.first = bundle.number;
    }
    if let Some(bundle) = bundles.last() {
        seat.last = bundle.number;
    }
}

/// What becomes of the plan.
#[derive(Clone, Copy)]
enum Then {
    Next,
    Again,
}

/// Takes what the step gave, and says what becomes of the plan.
fn take(table: &mut Table, seat: &mut Seat, deed: Deed, reply: Reply<Held>) -> Result<Then, Fail> {
    match reply {
        Reply::Done => done(table, seat, deed),
        Reply::Sight(sight) => {
            if deed == Deed::Begin {
                seat.wanted = element(table.newest.as_slice(), seat.key);
                seat.found = 0;
                seat.reading = true;
            }
            look(&mut table.counts, seat, &sight)?;
            if deed == Deed::MoveDown && seat.reading {
                return Ok(Then::Again);
            }
        }
        Reply::Picked {
            number,
            table: slice,
        } => pick(table.alloc, seat, number, &slice)?,
        Reply::Granted { extent } => seat.extent = extent,
        Reply::Ticket(ticket) => merge(table.alloc, seat, &ticket)?,
        Reply::Next { node } => {
            seat.node = node;
            table.counts.heirs = table.counts.heirs.wrapping_add(1);
        }
        Reply::Elsewhere { next } => seat.node = next.unwrap_or(0),
        Reply::View(view) => choose_run(&mut table.random, seat, &view),
        Reply::Again { .. } => return Ok(Then::Again),
        _ => {}
    }
    Ok(Then::Next)
}

/// Counts what was done.
fn done(table: &mut Table, seat: &mut Seat, deed: Deed) {
    let counts = &mut table.counts;
    match deed {
        Deed::Incorporate => counts.incorporated = counts.incorporated.wrapping_add(1),
        Deed::Install => counts.installed = counts.installed.wrapping_add(1),
        Deed::Flush => counts.flushed = counts.flushed.wrapping_add(1),
        Deed::Raise => {
            counts.raised = counts.raised.wrapping_add(1);
            table.nodes = table.nodes.wrapping_add(1);
        }
        Deed::Split => {
            counts.split = counts.split.wrapping_add(1);
            table.nodes = table.nodes.wrapping_add(1);
        }
        Deed::End | Deed::Abandon => seat.reading = false,
        _ => {}
    }
}

/// Goes on in the plan. An actor that has to wait tries again, but at times goes to the plan's end: so no two actors
/// wait for each other for ever.
fn advance(random: &mut Random, seat: &mut Seat, then: Then) {
    match then {
        Then::Next => seat.at = seat.at.wrapping_add(1),
        Then::Again => {
            if random.below(16) == 0 {
                seat.at = seat.plan.len().saturating_sub(1);
            }
        }
    }
}

/// One turn of the actor.
fn turn(
    core: &mut Core<Held, Newest>,
    table: &mut Table,
    seat: &mut Seat,
    actor: u32,
) -> Result<(), Fail> {
    let (deed, planned) = next_deed(&mut table.random, seat, table.nodes);
    let then = act(core, table, seat, actor, deed)?;
    if planned {
        advance(&mut table.random, seat, then);
    }
    Ok(())
}

/// Does the deed.
fn act(
    core: &mut Core<Held, Newest>,
    table: &mut Table,
    seat: &mut Seat,
    actor: u32,
    deed: Deed,
) -> Result<Then, Fail> {
    if deed == Deed::Puts {
        puts(core, table, actor)?;
        return Ok(Then::Next);
    }
    seat.cut = table.random.below(KEYS);
    let step = step_of(table.alloc, deed, seat)?;
    let reply = make(core, actor, step)?;
    take(table, seat, deed, reply)
}

/// A seat without a plan.
fn seat_of(alloc: Global) -> Seat {
    Seat {
        plan: &[],
        at: 0,
        node: 0,
        child: 0,
        first: 0,
        last: 0,
        number: 0,
        extent: 0,
        stamps: Vec::new(alloc),
        cut: 0,
        key: 0,
        wanted: 0,
        found: 0,
        reading: false,
    }
}

fn table_of(alloc: Global) -> Result<Table, Fail> {
    Ok(Table {
        alloc,
        random: Random {
            state: 0x9e3779b97f6a7c15,
        },
        newest: zeros(alloc, KEYS)?,
        stamp: 0,
        nodes: 1,
        counts: Counts {
            incorporated: 0,
            installed: 0,
            heirs: 0,
            flushed: 0,
            raised: 0,
            split: 0,
            looked_up: 0,
            below: 0,
        },
    })
}

/// Looks each key up.
fn sweep(
    core: &mut Core<Held, Newest>,
    table: &mut Table,
    seat: &mut Seat,
    actor: u32,
) -> Result<(), Fail> {
    for number in 0..KEYS {
        seat.key = number;
        act(core, table, seat, actor, Deed::Begin)?;
        for _level in 0..table.nodes {
            if seat.reading {
                act(core, table, seat, actor, Deed::MoveDown)?;
            }
        }
        if seat.reading {
            return Err("a lookup came to no leaf".into());
        }
        act(core, table, seat, actor, Deed::End)?;
    }
    Ok(())
}

#[test]
fn lookups_between_random_steps_find_what_was_put(rt: HostRuntime) -> Result<(), Fail> {
    let mut core = Core::new(rt.alloc(), EXTENTS, 4, Newest)?;
    let mut table = table_of(rt.alloc())?;
    let mut seats = Vec::new(rt.alloc());
    for _actor in 0..4 {
        seats.push(seat_of(rt.alloc()))?;
    }
    for _turn in 0..TURNS {
        if core.steps() >= STEPS {
            break;
        }
        let actor = table.random.below(4);
        if let Some(seat) = seats.get_mut(actor as usize) {
            turn(&mut core, &mut table, seat, actor)?;
        }
    }
    for actor in 0..4 {
        if let Some(seat) = seats.get_mut(actor as usize) {
            act(&mut core, &mut table, seat, actor, Deed::Abandon)?;
        }
    }
    assert!(rt; core.steps() >= STEPS);
    let counts = table.counts;
    assert!(rt; counts.incorporated > 0 && counts.installed > 0 && counts.heirs > 0);
    assert!(rt; counts.flushed > 0 && counts.raised > 0 && counts.split > 0);
    assert!(rt; counts.looked_up > 0 && counts.below > 0);
    let mut seat = seat_of(rt.alloc());
    sweep(&mut core, &mut table, &mut seat, 5)
}
