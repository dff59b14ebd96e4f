ghost use Rattle.std.specs.Prelude.{◌≡◌, IsTrue, IfOk};
ghost use Rattle.std.specs.Arc.{arc_value};
ghost use Rattle.spl_page.specs.AnyPage.{shown_of};

use crate::{Direct, FetchFault, Pager};
use spl_page::AnyPage;
use spl_port::{
    At, Blur, BlurPort, Calls, Damaged, MemPort, PAGE_BYTES, Port, PortFault, Seal, Why,
};
use std::alloc::Global;
use std::sync::Arc;
use std::test::Fail;

/// Writes a page, and fetches it. It stands for the layers above: where the port tells its pages, the page is the one
/// that was written.
fn there_and_back<P: Port, G: Pager>(
    alloc: Global,
    port: &mut P,
    pager: &G,
    bytes: &[u8; PAGE_BYTES],
) -> Result<Arc<AnyPage>, FetchFault>
    ensures { IsTrue P.Seal.TELLS → IfOk result (λ page. (shown_of (arc_value page)).bytes ≡ bytes.now) }
{
    let mut draft = port.begin(3, 7, 64);
    port.append(&mut draft, bytes)?;
    let seal = port.seal(draft)?;
    let at = seal.at(0);
    pager.fetch(alloc, port, &seal, at)
}

/// The leaf page 64 of branch 7 that inserts `1` at `b`.
fn leaf_page() -> [u8; PAGE_BYTES] {
    let mut bytes = [0; PAGE_BYTES];
    let front = &mut bytes[..22];
    front.copy_from_slice(
        b"L\x01\x00\x01\x00\x00\x00\x40\x00\x00\x00\x00\x00\x00\x00\x07\x01\x00\x00\x01b1",
    );
    bytes
}

#[test]
fn a_page_is_given_as_it_was_written(rt: HostRuntime) -> Result<(), Fail> {
    let mut port = MemPort::new(rt.alloc());
    let page = there_and_back(rt.alloc(), &mut port, &Direct, &leaf_page())?;
    assert!(rt; *page.bytes() == leaf_page());
    assert_eq!(rt; (port.faults(), port.reads(), port.writes()), (0, 1, 1));
    Ok(())
}

#[test]
fn a_page_that_is_none_is_handed_on_as_damaged(rt: HostRuntime) -> Result<(), Fail> {
    let alloc = rt.alloc();
    let at = At {
        extent: 3,
        branch: 7,
        page: 64,
        leaf: true,
    };
    let why = Why::Kind;
    let mut zeros = BlurPort::new(alloc, Blur::Zeros);
    let fault = there_and_back(alloc, &mut zeros, &Direct, &leaf_page()).err();
    assert_eq!(rt; fault, Some(FetchFault::Damaged(Damaged { at, why })));
    let mut failing = MemPort::failing(alloc, Calls::Reads);
    let fault = there_and_back(alloc, &mut failing, &Direct, &leaf_page()).err();
    assert_eq!(rt; fault, Some(FetchFault::Failed));
    Ok(())
}

#[test]
fn a_fault_says_what_happened(rt: HostRuntime) -> Result<(), Fail> {
    let failed = format!(in rt.alloc(); "{}", FetchFault::Failed)?;
    assert_eq!(rt; failed.as_str(), "the device failed");
    let memory = format!(in rt.alloc(); "{}", FetchFault::from(PortFault::NoMemory))?;
    assert_eq!(rt; memory.as_str(), "out of memory");
    Ok(())
}
