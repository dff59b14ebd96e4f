ghost use Rattle.std.specs.Prelude.{◌≡◌, ◌<◌, IsTrue, IfOk};
ghost use Rattle.spl_port.specs.Seal.{Allows, page_count};

use crate::{
    At, Blur, BlurPort, CallNumbers, Calls, MemPort, PAGE_BYTES, PageBytes, Patches, Port,
    PortFault, Seal,
};
use std::test::Fail;

/// Writes a page, and reads it. It stands for the layers above: where the port tells its pages, the
/// page is the one that was written.
fn there_and_back<P: Port>(port: &mut P, bytes: &[u8; PAGE_BYTES]) -> Result<PageBytes, PortFault>
    ensures { IsTrue P.Seal.TELLS → IfOk result (λ page. page ≡ bytes.now) }
{
    let mut draft = port.begin(3, 7, 64);
    port.append(&mut draft, bytes)?;
    let seal = port.seal(draft)?;
    port.read(&seal, 0)
}

/// The first page of a seal, as a branch reads it: the seal's type is the caller's.
fn first_page<S: Seal, P: Port<Seal = S>>(port: &mut P, seal: &S) -> Result<PageBytes, PortFault>
    requires { 0 < page_count (S.means seal.now) }
    ensures { IfOk result (λ page. Allows (S.means seal.now) 0 page) }
{
    port.read(seal, 0)
}

/// Says that a value may cross threads.
fn crosses<T: Send>(_value: &T) {}

/// A page whose bytes are all the same.
fn page_of(byte: u8) -> [u8; PAGE_BYTES] {
    [byte; PAGE_BYTES]
}

#[test]
fn a_page_is_read_as_it_was_written(rt: HostRuntime) -> Result<(), Fail> {
    let mut port = MemPort::new(rt.alloc());
    let page = there_and_back(&mut port, &page_of(b'L'))?;
    assert!(rt; *page.bytes() == page_of(b'L'));
    assert_eq!(rt; (port.faults(), port.reads(), port.writes()), (0, 1, 1));
    Ok(())
}

#[test]
fn a_seal_has_the_places_of_its_pages(rt: HostRuntime) -> Result<(), Fail> {
    let mut port = MemPort::new(rt.alloc());
    let mut draft = port.begin(3, 7, 64);
    port.append(&mut draft, &page_of(b'L'))?;
    port.append(&mut draft, &page_of(b'I'))?;
    let seal = port.seal(draft)?;
    assert_eq!(rt; seal.pages(), 2);
    assert_eq!(rt;
        seal.at(0),
        At {
            extent: 3,
            branch: 7,
            page: 64,
            leaf: true
        }
    );
    assert_eq!(rt;
        seal.at(1),
        At {
            extent: 3,
            branch: 7,
            page: 65,
            leaf: false
        }
    );
    assert!(rt; *first_page(&mut port, &seal)?.bytes() == page_of(b'L'));
    crosses(&port);
    assert!(rt; seal.vouches(1, &page_of(b'I')));
    assert!(rt; !seal.vouches(1, &page_of(b'L')));
    assert!(rt; !seal.vouches(2, &page_of(b'I')));
    Ok(())
}

#[test]
fn a_listed_call_fails_and_the_next_one_succeeds(rt: HostRuntime) -> Result<(), Fail> {
    let alloc = rt.alloc();
    let calls = Calls::Listed(vec![in alloc; 0, 2]?.into());
    let mut port = MemPort::failing(alloc, calls);
    let mut draft = port.begin(0, 0, 0);
    assert_eq!(rt;
        port.append(&mut draft, &page_of(1)),
        Err(PortFault::Failed)
    );
    assert_eq!(rt; port.faults(), 1);
    port.append(&mut draft, &page_of(2))?;
    assert!(rt; port.seal(draft).is_err());
    assert_eq!(rt; (port.faults(), port.writes()), (2, 1));
    Ok(())
}

#[test]
fn failing_reads_spare_the_other_calls(rt: HostRuntime) -> Result<(), Fail> {
    let alloc = rt.alloc();
    let mut reads = MemPort::failing(alloc, Calls::Reads);
    assert_eq!(rt;
        there_and_back(&mut reads, &page_of(1)).err(),
        Some(PortFault::Failed)
    );
    assert_eq!(rt; (reads.faults(), reads.reads(), reads.writes()), (1, 0, 1));

    let mut every = MemPort::failing(alloc, Calls::Every);
    assert_eq!(rt;
        there_and_back(&mut every, &page_of(1)).err(),
        Some(PortFault::Failed)
    );
    assert_eq!(rt; (every.faults(), every.reads(), every.writes()), (1, 0, 0));
    Ok(())
}

#[test]
fn a_blurred_page_differs_where_it_is_patched(rt: HostRuntime) -> Result<(), Fail> {
    let alloc = rt.alloc();
    let mut zeros = BlurPort::new(alloc, Blur::Zeros);
    let page = there_and_back(&mut zeros, &page_of(b'L'))?;
    assert!(rt; *page.bytes() == page_of(0));

    let mut first = page_of(b'L');
    first[4095] = 1;
    for (page, expected) in [(0, first), (1, page_of(b'L'))] {
        let bytes = Patches::from(vec![in alloc; (4095, 2), (4095, 1)]?);
        let mut patched = BlurPort::new(alloc, Blur::Patch { page, bytes });
        let given = there_and_back(&mut patched, &page_of(b'L'))?;
        assert!(rt; *given.bytes() == expected, "patched at {page}");
        assert_eq!(rt; patched.writes(), 1);
    }
    Ok(())
}

#[test]
fn a_blurred_seal_tells_its_places_alone(rt: HostRuntime) -> Result<(), Fail> {
    let mut port = BlurPort::new(rt.alloc(), Blur::Zeros);
    let mut draft = port.begin(3, 7, 64);
    port.append(&mut draft, &page_of(b'L'))?;
    let seal = port.seal(draft)?;
    assert_eq!(rt;
        seal.at(0),
        At {
            extent: 3,
            branch: 7,
            page: 64,
            leaf: true
        }
    );
    assert!(rt; seal.vouches(0, &page_of(1)));
    Ok(())
}

#[test]
fn what_is_made_of_a_vec_gives_it_back(rt: HostRuntime) -> Result<(), Fail> {
    let alloc = rt.alloc();
    let numbers = CallNumbers::from(vec![in alloc; 4, 2]?);
    assert_eq!(rt; numbers.into_vec().as_slice(), [4, 2].as_slice());
    let patches = Patches::from(vec![in alloc; (4095, 1)]?);
    assert_eq!(rt; patches.into_vec().as_slice(), [(4095, 1)].as_slice());
    let page = PageBytes::zeros(alloc)?;
    assert_eq!(rt; page.into_vec().as_slice(), [0; PAGE_BYTES].as_slice());
    Ok(())
}
