use crate::{Packed, pack};
use spl_alone::Alone;
use spl_core::Core;
use spl_desk::Desk;
use spl_job::steps::abandon;
use spl_message::Newest;
use spl_pager::Direct;
use spl_port::MemPort;
use std::test::Fail;

#[test]
fn nothing_is_packed_where_nothing_is_frozen(rt: HostRuntime) -> Result<(), Fail> {
    let alloc = rt.alloc();
    let core = Core::new(alloc, 8, 1, Newest)?;
    let mut port = MemPort::new(alloc);
    let mut desk = Desk {
        alloc,
        turns: Alone::new(core),
        port: &mut port,
        pager: &Direct,
        law: &Newest,
    };
    abandon(&mut desk.turns);
    assert_eq!(rt; pack(&mut desk)?, Packed::Nothing);
    Ok(())
}
