use crate::{Compacted, compact};
use spl_alone::Alone;
use spl_branch::Branch;
use spl_core::Core;
use spl_desk::Desk;
use spl_job::steps::abandon;
use spl_message::Newest;
use spl_pager::Direct;
use spl_port::{MemPort, MemSeal};
use std::test::Fail;

#[test]
fn a_run_that_is_not_there_is_gone(rt: HostRuntime) -> Result<(), Fail> {
    let alloc = rt.alloc();
    let core: Core<Branch<MemSeal>, Newest> = Core::new(alloc, 8, 1, Newest)?;
    let mut port = MemPort::new(alloc);
    let mut desk = Desk {
        alloc,
        turns: Alone::new(core),
        port: &mut port,
        pager: &Direct,
        law: &Newest,
    };
    abandon(&mut desk.turns);
    assert_eq!(rt; compact(&mut desk, 0, 0, 0)?, Compacted::Gone);
    Ok(())
}
