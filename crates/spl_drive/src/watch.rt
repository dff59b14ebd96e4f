//! A holder of turns that notes what its turns meet.
use spl_bundle::MAX_LISTS;
use spl_core::Step;
use spl_desk::{Exchange, Turns};
use spl_message::Content;
use spl_state::{Reply, View};

const ROOT: u32 = 0;

/// What the turns of a holder met.
#[derive(Clone, Copy, Debug, Default, PartialEq, Eq)]
pub(crate) struct Events {
    /// How often the root was raised.
    pub(crate) raises: u32,
    /// How often a node with children was split.
    pub(crate) index_splits: u32,
    /// How often bundles were too many branches to be passed on.
    pub(crate) too_wide: u32,
    /// How often a node with children was seen whose oldest bundle is live for none of them.
    pub(crate) dead: u32,
    /// The most bundles of two branches or more that a node with children was seen with.
    pub(crate) wide: u32,
    /// How often a node with children, but not the root, was seen without room for one more bundle.
    pub(crate) full: u32,
    /// The height of the root when it was last seen.
    pub(crate) height: u32,
    /// The node that was seen last, with its height.
    last: (u32, u32),
}

/// What is asked of the core, as far as it is noted.
#[derive(Clone, Copy, Debug)]
enum Asked {
    Raise,
    Split { child: u32 },
    Survey { node: u32 },
    Other,
}

/// Whether no child of the node has its oldest bundle live.
fn has_dead(view: &View) -> bool {
    let oldest = view.bundles.as_slice().first();
    match oldest {
        Some(oldest) => view
            .pivots
            .as_slice()
            .iter()
            .all(|pivot| oldest.number < pivot.mark),
        None => false,
    }
}

/// How many bundles of the node name two branches or more.
fn wide_count(view: &View) -> u32 {
    let mut wide = 0u32;
    for bundle in view.bundles.as_slice() {
        if bundle.branches >= 2 {
            wide = wide.saturating_add(1);
        }
    }
    wide
}

/// What the exchange asks.
fn asked_by<B: Content>(exchange: &Exchange<B>) -> Asked {
    match &exchange.step {
        Some(Step::Raise) => Asked::Raise,
        Some(Step::Split { child, .. }) => Asked::Split { child: *child },
        Some(Step::Survey { node }) => Asked::Survey { node: *node },
        _ => Asked::Other,
    }
}

impl Events {
    /// Notes how the node was seen.
    fn note_view(&mut self, node: u32, view: &View) {
        self.last = (node, view.height);
        if node == ROOT {
            self.height = view.height;
        }
        if view.height > 0 {
            self.wide = self.wide.max(wide_count(view));
            if has_dead(view) {
                self.dead = self.dead.saturating_add(1);
            }
            if node != ROOT && view.bundles.as_slice().len() == MAX_LISTS {
                self.full = self.full.saturating_add(1);
            }
        }
    }

    /// Notes a node that was split.
    fn note_split(&mut self, child: u32) {
        if self.last.0 == child && self.last.1 > 0 {
            self.index_splits = self.index_splits.saturating_add(1);
        }
    }

    /// Notes what was answered.
    fn note<B: Content>(&mut self, asked: Asked, reply: &Option<Reply<B>>) {
        match (asked, reply) {
            (Asked::Raise, Some(Reply::Done)) => self.raises = self.raises.saturating_add(1),
            (Asked::Split { child }, Some(Reply::Done)) => self.note_split(child),
            (Asked::Survey { node }, Some(Reply::View(view))) => self.note_view(node, view),
            (_, Some(Reply::NeedsCompact { .. })) => {
                self.too_wide = self.too_wide.saturating_add(1);
            }
            _ => {}
        }
    }
}

/// A holder of turns, and what they met.
#[derive(Drop)]
pub(crate) struct Watched<T> {
    pub(crate) holder: T,
    pub(crate) events: Events,
}

impl<B: Content, T: Turns<B>> Turns<B> for Watched<T> {
    ghost means = { λ watched. T.means watched.holder };

    ghost ready = { λ watched. T.ready watched.holder };

    ghost saw = { λ watched. T.saw watched.holder };

    fn actor(&self) -> u32 {
        self.holder.actor()
    }

    fn turns(&self) -> u64 {
        self.holder.turns()
    }

    fn step(&mut self, exchange: &mut Exchange<B>) {
        let asked = asked_by(exchange);
        self.holder.step(exchange);
        self.events.note(asked, &exchange.reply);
    }
}
