ghost use Rattle.std.specs.Prelude.{◌≡◌, IfSome, vec_len};
ghost use Rattle.std.specs.Arc.{arc_value};
ghost use Rattle.spl_page.specs.AnyPage.{shown_of};

use crate::frame::Frame;
use spl_message::NoMemory;
use spl_page::AnyPage;
use spl_port::At;
use std::alloc::Global;
use std::sync::Arc;
use std::sync::atomic::{AtomicUsize, Ordering};

/// How many frames a set has.
pub const FRAMES: usize = 8;

/// The frames of a set. A page of the set may be in any of them.
#[derive(Drop)]
pub struct Set {
    frames: Vec<Frame>,
    /// The position of the clock hand, which is only ever raised.
    hand: AtomicUsize,
    ghost full: { vec_len frames ≡ 8 },
}

impl Set {
    /// Frames without pages.
    pub fn new(alloc: Global) -> Result<Set, NoMemory> {
        let mut frames = Vec::with_capacity(alloc, FRAMES)?;
        for _ in 0..FRAMES {
            frames.push(Frame::new())?;
        }
        Ok(Set {
            frames,
            hand: AtomicUsize::new(0),
        })
    }

    /// The page of the place, if one of the frames has it and can be read. Frames with another mark are skipped.
    pub fn find(&self, at: At, mark: u32) -> Option<Arc<AnyPage>>
        ensures { IfSome result (λ page. (shown_of (arc_value page)).at ≡ at) }
    {
        for frame in &self.frames {
            if frame.mark() == mark {
                let page = frame.page(at);
                if page.is_some() {
                    return page;
                }
            }
        }
        None
    }

    /// Keeps the page: in the frame that has its mark, if there is one, so that no page is there twice; else in the
    /// first frame that was not used since the hand passed it and that nobody holds. The hand passes each frame at most
    /// once.
    pub fn keep(&self, page: &Arc<AnyPage>, mark: u32) {
        for frame in &self.frames {
            if frame.mark() == mark {
                frame.replace(page, mark);
                return;
            }
        }
        for _ in 0..FRAMES {
            let place = self.hand.fetch_add(1, Ordering::Relaxed) % FRAMES;
            let frame = &self.frames[place];
            if !frame.take_used() && frame.replace(page, mark) {
                return;
            }
        }
    }
}
