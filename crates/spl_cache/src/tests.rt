ghost use Rattle.std.specs.Prelude.{◌≡◌, ◌+◌, ◌%◌, ◌<◌, ◌*◌, IfErr, IfSome};
ghost use Rattle.spl_port.specs.Port.{ReadsOne};
ghost use Rattle.spl_port.specs.Seal.{page_count, place};
ghost use Rattle.spl_pager.specs.Fetching.{HasFetchCause};

use crate::Cache;
use spl_page::AnyPage;
use spl_pager::{FetchFault, Pager};
use spl_port::{
    At, Blur, BlurPort, Damaged, MemPort, MemSeal, PAGE_BYTES, Port, PortFault, Seal, Why,
};
use std::alloc::Global;
use std::sync::Arc;
use std::test::Fail;
use std::thread::join;

/// A page that was written, alone in its extent.
#[derive(Drop)]
struct Written<S: Seal> {
    seal: S,
    at: At,
    ghost there: { at.page % 32 < page_count (S.means seal) },
    ghost place: { at ≡ place (S.means seal) (at.page % 32) },
}

/// The first leaf page of a part of branch 7, which inserts `1` at `b`.
fn leaf_page(part: u32) -> [u8; PAGE_BYTES]
    requires { part < 1024 }
{
    let mut bytes = [0; PAGE_BYTES];
    let front = &mut bytes[..22];
    front.copy_from_slice(
        b"L\x01\x00\x01\x00\x00\x00\x00\x00\x00\x00\x00\x00\x00\x00\x07\x01\x00\x00\x01b1",
    );
    let page = &mut bytes[4..8];
    page.copy_from_slice(&(32 * part).to_be_bytes());
    bytes
}

/// Writes that page into an extent of its own.
fn stored<P: Port>(port: &mut P, part: u32) -> Result<Written<P::Seal>, PortFault>
    requires { part < 1024 }
{
    let mut draft = port.begin(part, 7, 32 * part);
    port.append(&mut draft, &leaf_page(part))?;
    let seal = port.seal(draft)?;
    let at = seal.at(0);
    Ok(Written { seal, at })
}

fn fetched<P: Port>(
    alloc: Global,
    port: &mut P,
    cache: &Cache,
    page: &Written<P::Seal>,
) -> Result<Arc<AnyPage>, FetchFault>
    ensures counts { ReadsOne (P.counts port.old) (P.counts port.new) }
    ensures cause { IfErr result (HasFetchCause (P.Seal.means page.now.seal) page.now.at (P.counts port.old) (P.counts port.new)) }
{
    cache.fetch(alloc, port, &page.seal, page.at)
}

/// Says that a value may be shared by threads.
fn crosses<T: Send + Sync>(_value: &T) {}

#[test]
fn a_page_is_read_once_and_the_first_of_nine_comes_back(rt: HostRuntime) -> Result<(), Fail> {
    let alloc = rt.alloc();
    let cache = Cache::new(alloc, 1)?;
    crosses(&cache);
    let mut port = MemPort::new(alloc);
    let first = stored(&mut port, 0)?;
    for _ in 0..2 {
        let page = fetched(alloc, &mut port, &cache, &first)?;
        assert!(rt; *page.bytes() == leaf_page(0));
    }
    assert_eq!(rt; port.reads(), 1);
    for part in 1..9 {
        let next = stored(&mut port, part)?;
        let page = fetched(alloc, &mut port, &cache, &next)?;
        assert!(rt; *page.bytes() == leaf_page(part));
    }
    let page = fetched(alloc, &mut port, &cache, &first)?;
    assert!(rt; *page.bytes() == leaf_page(0));
    Ok(())
}

/// What two fetches said of a page, where both refused it alike as damaged. The port has no count of reads to ask for,
/// so it is in the contract: each of the fetches read the page, once.
fn refused_twice<P: Port>(
    alloc: Global,
    port: &mut P,
    cache: &Cache,
    page: &Written<P::Seal>,
) -> Option<Damaged>
    ensures { IfSome result (λ _. (P.counts port.new).reads ≡ (P.counts port.old).reads + 2) }
{
    let Err(FetchFault::Damaged(first)) = fetched(alloc, port, cache, page) else {
        return None;
    };
    let Err(FetchFault::Damaged(second)) = fetched(alloc, port, cache, page) else {
        return None;
    };
    if first == second { Some(second) } else { None }
}

#[test]
fn a_page_that_is_none_is_read_each_time(rt: HostRuntime) -> Result<(), Fail> {
    let alloc = rt.alloc();
    let cache = Cache::new(alloc, 1)?;
    let mut port = BlurPort::new(alloc, Blur::Zeros);
    let page = stored(&mut port, 2)?;
    let at = At {
        extent: 2,
        branch: 7,
        page: 64,
        leaf: true,
    };
    let why = Why::Kind;
    let said = refused_twice(alloc, &mut port, &cache, &page);
    assert_eq!(rt; said, Some(Damaged { at, why }));
    Ok(())
}

/// Fetches the pages in turn, by a port of its own, and says whether each of them was the one that was written.
fn rounds(alloc: Global, cache: &Cache, pages: &[Written<MemSeal>]) -> bool {
    let mut port = MemPort::new(alloc);
    for _ in 0..1_250 {
        for (part, page) in pages.iter().enumerate() {
            let Ok(found) = fetched(alloc, &mut port, cache, page) else {
                return false;
            };
            if *found.bytes() != leaf_page((part % 20) as u32) {
                return false;
            }
        }
    }
    true
}

#[test]
fn four_threads_are_given_the_written_pages(rt: HostRuntime) -> Result<(), Fail> {
    let alloc = rt.alloc();
    let cache = Cache::new(alloc, 1)?;
    let mut port = MemPort::new(alloc);
    let mut pages = Vec::with_capacity(alloc, 20)?;
    for part in 0..20 {
        pages.push(stored(&mut port, part)?)?;
    }
    let pages = pages.as_slice();
    let two = || -> (bool, bool) {
        join(
            &rt,
            || rounds(alloc, &cache, pages),
            || rounds(alloc, &cache, pages),
        )
    };
    let (first, second) = join(&rt, two, two);
    assert!(rt; first.0 && first.1 && second.0 && second.1);
    Ok(())
}
