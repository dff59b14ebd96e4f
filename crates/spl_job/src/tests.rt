use crate::merging::{Started, start, survey};
use crate::steps::{abandon, claim, pick};
use spl_alone::Alone;
use spl_branch::Branch;
use spl_core::Core;
use spl_message::Newest;
use spl_port::MemSeal;
use std::test::Fail;

#[test]
fn an_empty_core_has_nothing_to_pick(rt: HostRuntime) -> Result<(), Fail> {
    let core: Core<Branch<MemSeal>, Newest> = Core::new(rt.alloc(), 8, 1, Newest)?;
    let mut turns = Alone::new(core);
    abandon(&mut turns);
    assert!(rt; pick(&mut turns)?.is_none());
    Ok(())
}

#[test]
fn an_actor_with_nothing_claims_the_root(rt: HostRuntime) -> Result<(), Fail> {
    let core: Core<Branch<MemSeal>, Newest> = Core::new(rt.alloc(), 8, 1, Newest)?;
    let mut turns = Alone::new(core);
    abandon(&mut turns);
    match pick(&mut turns)? {
        None => assert!(rt; claim(&mut turns, 0)),
        Some(_) => assert!(rt; false),
    }
    Ok(())
}

#[test]
fn a_node_without_bundles_has_nothing_to_merge(rt: HostRuntime) -> Result<(), Fail> {
    let core: Core<Branch<MemSeal>, Newest> = Core::new(rt.alloc(), 8, 1, Newest)?;
    let mut turns = Alone::new(core);
    abandon(&mut turns);
    let view = survey(&mut turns, 0)?;
    assert!(rt; view.bundles.as_slice().is_empty());
    assert!(rt; matches!(start(&mut turns, 0, 0, 0)?, Started::Gone));
    Ok(())
}
