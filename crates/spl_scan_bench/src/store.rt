//! A store of one caller.
ghost use Rattle.std.specs.Prelude.{true, IfOk};
ghost use Rattle.spl_message.specs.Rule.{newest};
ghost use Rattle.spl_core.specs.Standing.{StandsFor};
ghost use Rattle.spl_alone.specs.Alone.{only_holder};
ghost use Rattle.spl_session.specs.Calling.{MayAsk};

use spl_alone::Alone;
use spl_branch::Branch;
use spl_core::Core;
use spl_message::{Newest, NoMemory};
use spl_port::MemSeal;
use std::alloc::Global;

/// As many extents as the program has.
const EXTENTS: u32 = 8192;

/// An empty store, with its branches on a device in memory.
pub(crate) fn empty_store(alloc: Global) -> Result<Alone<Branch<MemSeal>, Newest>, NoMemory>
    ensures { IfOk result (λ alone. MayAsk (only_holder newest alone.core.parts) (StandsFor newest true alone.core.parts)
        (Unit {0}) newest (Unit {0})) }
{
    let core = Core::new(alloc, EXTENTS, 1, Newest)?;
    Ok(Alone::new(core))
}
