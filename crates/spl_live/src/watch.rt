use spl_message::Content;
use spl_port::At;
use spl_state::{Branches, Reply};
use std::alloc::Global;
use std::cell::Cell;

/// The extents that an actor holds, and the pages that were read. A `Watched` and a `WatchedPort` share one.
///
/// It lies in cells, of which no clause speaks. Where memory runs out it holds too little, and counts a read as one of another extent.
#[derive(Drop)]
pub struct Watch {
    alloc: Global,
    held: Cell<Vec<u32>>,
    reads: Cell<Vec<At>>,
    strays: Cell<u64>,
}

impl Watch {
    /// Nothing is held, and nothing was read. Takes no memory.
    pub fn new(alloc: Global) -> Watch {
        Watch {
            alloc,
            held: Cell::new(Vec::new(alloc)),
            reads: Cell::new(Vec::new(alloc)),
            strays: Cell::new(0),
        }
    }

    /// How many reads hit an extent that was not held.
    pub fn strays(&self) -> u64 {
        self.strays.get()
    }

    /// The places that were read since the latest call, in their order.
    pub fn take_reads(&self) -> Vec<At> {
        self.reads.replace(Vec::new(self.alloc))
    }

    /// Notes what an answer names. `ends` says whether the step ends what the actor holds where it is done.
    pub(crate) fn answered<B: Content>(&self, reply: &Option<Reply<B>>, ends: bool) {
        match reply {
            Some(Reply::Sight(sight)) => self.hold(&sight.branches),
            Some(Reply::Ticket(ticket)) => self.hold(&ticket.inputs),
            Some(Reply::Done) => {
                if ends {
                    self.held.set(Vec::new(self.alloc));
                }
            }
            _ => {}
        }
    }

    /// The extents of these branches are held, and no others.
    fn hold<B: Content>(&self, branches: &Branches<B>) {
        let mut held = Vec::new(self.alloc);
        for branch in branches.as_slice() {
            if held.extend_from_slice(branch.extents()).is_err() {
                break;
            }
        }
        self.held.set(held);
    }

    /// Notes a read.
    pub(crate) fn read(&self, at: At) {
        let held = self.held.replace(Vec::new(self.alloc));
        let mut stray = !held.contains(&at.extent);
        self.held.set(held);
        let mut reads = self.reads.replace(Vec::new(self.alloc));
        if reads.push(at).is_err() {
            stray = true;
        }
        self.reads.set(reads);
        if stray {
            self.strays.set(self.strays.get().saturating_add(1));
        }
    }
}
