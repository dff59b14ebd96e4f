ghost use Rattle.std.specs.Prelude.{◌≡◌, ◌++◌, [], ◌∷◌, Some, None, length, OnOk};
ghost use Rattle.spl_message.specs.Fnv.{fnv_of};
ghost use Rattle.spl_build.specs.Cuts.{cuts_with};

use spl_message::{Key, NoMemory, fnv};
use std::alloc::Global;

/// A branch may be cut at every so many keys.
const CUT_KEYS: usize = 1024;

/// What is kept of the keys that were added.
#[derive(Drop)]
pub(crate) struct Keys {
    /// The hash of each key.
    pub(crate) hashes: Vec<u64>,
    /// The keys of rank 1,024, 2,048 and so on, counted from 0.
    pub(crate) cuts: Vec<Key>,
    pub(crate) last: Option<Key>,
}

impl Keys {
    /// No keys. It takes no memory.
    pub(crate) fn new(alloc: Global) -> Keys
        ensures hashes { result.hashes.items ≡ [] }
        ensures cuts { result.cuts.items ≡ [] }
        ensures last { result.last ≡ None }
    {
        Keys {
            hashes: Vec::new(alloc),
            cuts: Vec::new(alloc),
            last: None,
        }
    }

    /// Keeps one more key.
    pub(crate) fn push(&mut self, key: &Key) -> Result<(), NoMemory>
        ensures hashes { OnOk result (self.new.hashes.items ≡ self.old.hashes.items ++ fnv_of key.now ∷ []) }
        ensures cuts { OnOk result (self.new.cuts.items ≡ cuts_with self.old.cuts.items (length self.old.hashes.items) key.now) }
        ensures last { OnOk result (self.new.last ≡ Some key.now) }
    {
        let rank = self.hashes.len();
        if rank > 0 && rank % CUT_KEYS == 0 {
            self.cuts.push(*key)?;
        }
        self.hashes.push(fnv(key.bytes()))?;
        self.last = Some(*key);
        Ok(())
    }
}
