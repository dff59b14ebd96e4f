ghost use Rattle.std.specs.Prelude.{◌≡◌, Some, true};
ghost use Rattle.spl_port.specs.MemDraft.{meaning};

use crate::mem_draft::MemDraft;
use crate::{At, PAGE_BYTES, Seal};
use std::marker::Model;

/// Pages in memory that tell what they are.
#[derive(Debug, Drop)]
pub struct MemSeal {
    stack: MemDraft,
}

impl Model for MemSeal {
    ghost use Rattle.spl_port.specs.MemDraft.{PageStack};

    ghost Value = { PageStack };

    ghost view = { λ s. s.stack };
}

impl MemSeal {
    pub(crate) fn new(stack: MemDraft) -> MemSeal
        ensures { result ≡ stack }
    {
        MemSeal { stack }
    }

    pub(crate) fn stack(&self) -> &MemDraft
        ensures { result.now ≡ self.now }
    {
        &self.stack
    }
}

impl Seal for MemSeal {
    ghost TELLS = { true };

    ghost means = { λ s. meaning true s };

    ghost use Rattle.std.specs.Prelude.{refl};

    ghost tells = { λ _. refl };

    fn pages(&self) -> u32 {
        self.stack.page_count()
    }

    fn at(&self, page: u32) -> At {
        self.stack.at(page)
    }

    fn vouches(&self, page: u32, bytes: &[u8; PAGE_BYTES]) -> bool {
        page < self.stack.page_count() && self.stack.page(page) == bytes
    }
}
