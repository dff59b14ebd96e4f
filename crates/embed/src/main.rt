//! Embeds the store: one caller with a core of its own, over a device in memory, puts a key and looks it up.
#![tactic(auto)]

use anyhow::Result;
use spl_alone::Alone;
use spl_core::Core;
use spl_desk::Desk;
use spl_message::{Key, Newest, Value};
use spl_pager::Direct;
use spl_port::MemPort;
use spl_session::Session;
use std::str;

fn main(rt: HostRuntime) -> Result<()> {
    let alloc = rt.alloc();
    let core = Core::new(alloc, 8, 1, Newest)?;
    let mut device = MemPort::new(alloc);
    let mut session = Session {
        desk: Desk {
            alloc,
            turns: Alone::new(core),
            port: &mut device,
            pager: &Direct,
            law: &Newest,
        },
    };
    let key = Key::read(b"ada")?;
    session.insert(&key, &Value::read(alloc, b"room-12")?)?;
    match session.lookup(&key)?.value {
        Some(value) => println!(rt; "ada is in {}", str::from_utf8(value.bytes())?)?,
        None => println!(rt; "ada has no room")?,
    }
    Ok(())
}
