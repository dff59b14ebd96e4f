ghost use Rattle.std.specs.Prelude.{◌≡◌, ◌<◌, ◌^◌, All, IfOk, length, vec_len};
ghost use Rattle.spl_port.specs.Blur.{IsBlur, blurred_page, patched_page};

use crate::{PAGE_BYTES, PageBytes};
use spl_base::NoMemory;
use std::alloc::Global;
use std::marker::Model;

/// Bytes that are set at places of a page, in their order.
#[derive(Debug, Drop)]
pub struct Patches {
    bytes: Vec<(u16, u8)>,
}

impl Model for Patches {
    ghost use Rattle.std.specs.Prelude.{List, ℕ};

    ghost Value = { List (ℕ × ℕ) };

    ghost view = { λ p. p.bytes.items };
}

impl From<Vec<(u16, u8)>> for Patches {
    ghost from_gives = { λ bytes patches. patches ≡ bytes.items };

    fn from(bytes: Vec<(u16, u8)>) -> Patches {
        Patches { bytes }
    }
}

impl Patches {
    /// The places and bytes as a `Vec`. It takes no memory.
    pub fn into_vec(self) -> Vec<(u16, u8)>
        ensures { result.items ≡ self }
    {
        self.bytes
    }

    /// Sets the bytes.
    fn set(&self, page: &mut [u8])
        requires { All (λ patch. patch.0 < length page.old) self.now }
        ensures { page.new ≡ patched_page self.now page.old }
    {
        for (at, byte) in &self.bytes {
            page[*at as usize] = *byte;
        }
    }
}

/// What reads of a `BlurPort` give in place of the pages.
#[derive(Debug, Drop)]
pub enum Blur {
    /// 4,096 zeros at each read.
    Zeros,
    /// At a read of this page of a seal, the page with these bytes set, at places below 4,096.
    Patch { page: u32, bytes: Patches },
}

impl Blur {
    /// What a read of the page of a seal gives, which has these bytes.
    pub(crate) fn apply(
        &self,
        alloc: Global,
        page: u32,
        bytes: &[u8; PAGE_BYTES],
    ) -> Result<PageBytes, NoMemory>
        requires { IsBlur self.now }
        ensures { IfOk result (λ given. given ≡ blurred_page self.now page bytes.now) }
    {
        match self {
            Blur::Zeros => PageBytes::zeros(alloc),
            Blur::Patch {
                page: patched,
                bytes: patches,
            } => {
                if *patched != page {
                    return PageBytes::copy(alloc, bytes);
                }
                let mut given = Vec::from_slice(alloc, bytes)?;
                patches.set(&mut given);
                Ok(PageBytes::from_vec(given))
            }
        }
    }
}
