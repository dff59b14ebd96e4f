ghost use Rattle.std.specs.Prelude.{◌≡◌, IsTrue, false};
ghost use Rattle.spl_port.specs.MemDraft.{meaning};
ghost use Rattle.spl_port.specs.Seal.{Allows};

use crate::mem_draft::MemDraft;
use crate::{At, PAGE_BYTES, Seal};
use std::marker::Model;

/// Pages in memory that tell their places alone.
#[derive(Debug, Drop)]
pub struct BlurSeal {
    stack: MemDraft,
}

impl Model for BlurSeal {
    ghost use Rattle.spl_port.specs.MemDraft.{PageStack};

    ghost Value = { PageStack };

    ghost view = { λ s. s.stack };
}

impl BlurSeal {
    pub(crate) fn new(stack: MemDraft) -> BlurSeal
        ensures { result ≡ stack }
    {
        BlurSeal { stack }
    }

    pub(crate) fn stack(&self) -> &MemDraft
        ensures { result.now ≡ self.now }
    {
        &self.stack
    }
}

impl Seal for BlurSeal {
    ghost TELLS = { false };

    ghost means = { λ s. meaning false s };

    ghost use Rattle.std.specs.Prelude.{refl};

    ghost tells = { λ _. refl };

    fn pages(&self) -> u32 {
        self.stack.page_count()
    }

    fn at(&self, page: u32) -> At {
        self.stack.at(page)
    }

    /// Any bytes may be the page, since it is not told.
    fn vouches(&self, _page: u32, _bytes: &[u8; PAGE_BYTES]) -> bool
        ensures any { IsTrue result }

        // What each seal keeps.
        ensures only { IsTrue result → Allows (meaning false self.now) _page _bytes.now }
    {
        true
    }
}
