ghost use Rattle.std.specs.Prelude.{◌≡◌, IfSome};
ghost use Rattle.std.specs.Arc.{arc_value};
ghost use Rattle.spl_page.specs.AnyPage.{shown_of};

use spl_latch::{Fits, Latched};
use spl_page::AnyPage;
use spl_port::At;
use std::sync::Arc;
use std::sync::atomic::{AtomicBool, Ordering};

/// How often a read is tried while only other readers interfere.
const TRIES: u32 = 16;

/// What a frame has. Each page keeps its own fact, that it was checked for its place.
#[derive(Drop)]
struct Kept {
    page: Option<Arc<AnyPage>>,
}

impl Fits for Kept {
    type Tag = ();

    ghost fits = { λ _ _. Unit {0} };
}

/// The frame of one page. Its latch's mark is that of the page, or 0 if it has none.
#[derive(Drop)]
pub struct Frame {
    latch: Latched<Kept>,
    used: AtomicBool,
}

impl Frame {
    /// A frame without a page.
    pub fn new() -> Frame {
        Frame {
            latch: Latched::new(Kept { page: None }, &()),
            used: AtomicBool::new(false),
        }
    }

    /// The mark of its page, as it is now.
    pub fn mark(&self) -> u32 {
        self.latch.mark()
    }

    /// The page of the place, if the frame has it and can be read.
    pub fn page(&self, at: At) -> Option<Arc<AnyPage>>
        ensures { IfSome result (λ page. (shown_of (arc_value page)).at ≡ at) }
    {
        for _ in 0..TRIES {
            match self.latch.try_read() {
                Ok(read) => {
                    let page = shared(&read.value().page, at);
                    read.leave();
                    self.used.store(true, Ordering::Relaxed);
                    return page;
                }
                Err(found) if found.is_readable() => {}
                Err(_) => return None,
            }
        }
        None
    }

    /// Whether the page was used since the last call.
    pub fn take_used(&self) -> bool {
        self.used.swap(false, Ordering::Relaxed)
    }

    /// Replaces the frame's page, unless others hold the frame.
    pub fn replace(&self, page: &Arc<AnyPage>, mark: u32) -> bool {
        let Ok(page) = page.clone() else {
            return false;
        };
        let Ok(write) = self.latch.try_write() else {
            return false;
        };
        write.put_marked(Kept { page: Some(page) }, mark);
        true
    }
}

/// The page, if it is the one of the place.
fn shared(kept: &Option<Arc<AnyPage>>, at: At) -> Option<Arc<AnyPage>>
    ensures { IfSome result (λ page. (shown_of (arc_value page)).at ≡ at) }
{
    let page = kept.as_ref()?;
    if page.at() != at {
        return None;
    }
    page.clone().ok()
}
