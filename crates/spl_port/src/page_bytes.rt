ghost use Rattle.std.specs.Prelude.{◌≡◌, IfOk, length, replicate, vec_len};

use spl_base::NoMemory;
use std::alloc::Global;
use std::marker::Model;

/// How many bytes a page has.
pub const PAGE_BYTES: usize = 4096;

/// The bytes of a page, in memory of their own.
#[derive(Debug, Drop)]
pub struct PageBytes {
    bytes: Vec<u8>,
}

impl Model for PageBytes {
    ghost use Rattle.std.specs.Prelude.{◌≡◌, List, ℕ, vec_len};

    ghost Value = { List ℕ };

    ghost view = { λ p. p.bytes.items };

    ghost invariant = { λ p. vec_len p.bytes ≡ 4096 };
}

impl PageBytes {
    /// A page of zeros.
    pub fn zeros(alloc: Global) -> Result<PageBytes, NoMemory>
        ensures { IfOk result (λ page. page ≡ replicate 4096 0) }
    {
        let bytes = vec![in alloc; 0u8; PAGE_BYTES]?;
        Ok(PageBytes { bytes })
    }

    /// A copy of the bytes.
    pub fn copy(alloc: Global, bytes: &[u8; PAGE_BYTES]) -> Result<PageBytes, NoMemory>
        ensures { IfOk result (λ page. page ≡ bytes.now) }
    {
        let bytes = Vec::from_slice(alloc, bytes)?;
        Ok(PageBytes { bytes })
    }

    /// A page of these bytes. It takes no memory.
    pub fn from_vec(bytes: Vec<u8>) -> PageBytes
        requires { vec_len bytes ≡ 4096 }
        ensures { result ≡ bytes.items }
    {
        PageBytes { bytes }
    }

    /// The bytes of the page.
    pub fn bytes(&self) -> &[u8; PAGE_BYTES]
        ensures { result.now ≡ self.now }
    {
        match self.bytes.as_array::<PAGE_BYTES>() {
            Some(bytes) => bytes,
            None => unreachable!(),
        }
    }

    /// Its bytes as a `Vec`. It takes no memory.
    pub fn into_vec(self) -> Vec<u8>
        ensures items { result.items ≡ self }
        ensures len { vec_len result ≡ 4096 }
    {
        self.bytes
    }
}
