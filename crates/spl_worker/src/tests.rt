use crate::{Work, make_memtable_room, make_room, work_once};
use spl_alone::Alone;
use spl_core::Core;
use spl_desk::Desk;
use spl_job::steps::abandon;
use spl_message::Newest;
use spl_pager::Direct;
use spl_port::MemPort;
use std::test::Fail;

#[test]
fn an_empty_store_has_room_and_no_work(rt: HostRuntime) -> Result<(), Fail> {
    let alloc = rt.alloc();
    let core = Core::new(alloc, 8, 1, Newest)?;
    let mut port = MemPort::new(alloc);
    let mut desk = Desk {
        alloc,
        turns: Alone::new(core),
        port: &mut port,
        pager: &Direct,
        law: &Newest,
    };
    abandon(&mut desk.turns);
    make_memtable_room(&mut desk)?;
    make_room(&mut desk, 0)?;
    assert!(rt; work_once(&mut desk)? == Work::Idle { running: 1 });
    Ok(())
}
