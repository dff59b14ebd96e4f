use crate::solo;
use spl_core::Core;
use spl_message::Newest;
use spl_pager::Direct;
use spl_port::{Calls, MemPort};
use spl_report::write_report;
use spl_script::read_script;
use std::alloc::Global;
use std::test::Fail;

/// The status and the report of a script over a store without extents.
fn run_without_extents(
    alloc: Global,
    port: &mut MemPort,
    text: &[u8],
) -> Result<(u8, Vec<u8>), Fail> {
    let script = read_script(alloc, text, 1)?;
    let core = Core::new(alloc, 0, 1, Newest)?;
    let ended = solo(alloc, port, &Direct, core, &Newest, &script);
    let report = write_report(alloc, ended.rows.as_slice())?;
    Ok((ended.status, report))
}

const IN_MEMORY: &[u8] = b"0 put a =1
0 get a
0 put a =2
0 get a
0 del a
0 get a
";

const TOLD_IN_MEMORY: &str = "0 0 put a =1 ok
1 0 get a =1
2 0 put a =2 ok
3 0 get a =2
4 0 del a ok
5 0 get a none
";

#[test]
fn what_is_in_memory_needs_no_device_and_no_extent(rt: HostRuntime) -> Result<(), Fail> {
    let alloc = rt.alloc();
    let mut port = MemPort::failing(alloc, Calls::Every);
    let (status, text) = run_without_extents(alloc, &mut port, IN_MEMORY)?;
    assert_eq!(rt; status, 0);
    assert_eq!(rt; text.as_slice(), TOLD_IN_MEMORY.as_bytes());
    assert_eq!(rt; port.faults(), 0);
    Ok(())
}

/// Puts of `=1` for 5,121 keys, and the rows of all but the last, which finds no extent.
fn too_many_puts(alloc: Global) -> Result<(String, String), Fail> {
    let mut script = String::new(alloc);
    let mut told = String::new(alloc);
    for number in 0..5120 {
        script.push_str(&format!(in alloc; "0 put k{number:04} =1\n")?)?;
        told.push_str(&format!(in alloc; "{number} 0 put k{number:04} =1 ok\n")?)?;
    }
    script.push_str("0 put k5120 =1\n")?;
    told.push_str("- 0 put k5120 =1 full\n")?;
    Ok((script, told))
}

#[test]
fn a_memtable_is_not_packed_without_an_extent(rt: HostRuntime) -> Result<(), Fail> {
    let alloc = rt.alloc();
    let (script, told) = too_many_puts(alloc)?;
    let mut port = MemPort::new(alloc);
    let (status, text) = run_without_extents(alloc, &mut port, script.as_bytes())?;
    assert_eq!(rt; status, 6);
    assert!(rt; text.as_slice() == told.as_bytes());
    Ok(())
}

#[test]
fn scans_are_answered_in_pieces(rt: HostRuntime) -> Result<(), Fail> {
    let alloc = rt.alloc();
    for (script, told) in [
        (
            "0 put b =1\n0 scan a b\n0 scan b *\n",
            "0 0 put b =1 ok\n1 0 scan a b b 0\n2 0 scan b * * 1\n+ b =1\n",
        ),
        ("0 scan b a\n", "0 0 scan b a a 0\n"),
        ("0 scan * *\n", "0 0 scan * * * 0\n"),
        (
            "0 put a =1\n0 put b =2\n0 put c =3\n0 del b\n0 scan * *\n",
            "0 0 put a =1 ok\n1 0 put b =2 ok\n2 0 put c =3 ok\n3 0 del b ok\n4 0 scan * * * 2\n+ a =1\n+ c =3\n",
        ),
    ] {
        let mut port = MemPort::new(alloc);
        let (status, text) = run_without_extents(alloc, &mut port, script.as_bytes())?;
        assert_eq!(rt; status, 0);
        assert_eq!(rt; text.as_slice(), told.as_bytes());
    }
    Ok(())
}
