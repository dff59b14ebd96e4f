use super::*;
use std::test::Fail;

#[test]
fn a_spent_pool_grants_what_comes_back(rt: HostRuntime) -> Result<(), Fail> {
    let mut pool = Pool::new(rt.alloc(), 1)?;
    assert_eq!(rt; pool.grant(2), Some(0));
    assert_eq!(rt; pool.grant(3), None);
    pool.give_back(2, 0);
    assert_eq!(rt; pool.grant(3), Some(0));
    Ok(())
}

#[test]
fn a_branch_keeps_its_extent_until_it_is_released(rt: HostRuntime) -> Result<(), Fail> {
    let mut pool = Pool::new(rt.alloc(), 3)?;
    assert_eq!(rt; pool.extents(), 3);
    let extent = pool.grant(31).ok_or("a full pool grants nothing")?;
    assert_eq!(rt; pool.owner(extent), Owner::Granted { actor: 31 });
    pool.hold(31, extent, 9);
    assert_eq!(rt; pool.owner(extent), Owner::Held { branch: 9 });
    assert_eq!(rt; pool.free(), 2);
    pool.release(extent, 9);
    assert_eq!(rt; pool.owner(extent), Owner::Free);
    assert_eq!(rt; pool.free(), 3);
    Ok(())
}

#[test]
fn three_grants_are_given_back_and_the_other_actors_stay(rt: HostRuntime) -> Result<(), Fail> {
    let mut pool = Pool::new(rt.alloc(), 6)?;
    let other = pool.grant(1).ok_or("a full pool grants nothing")?;
    let mut extents = [0; 3];
    for extent in extents.iter_mut() {
        *extent = pool.grant(0).ok_or("a full pool grants nothing")?;
    }
    assert_eq!(rt; (pool.granted(0), pool.granted(1), pool.free()), (3, 1, 2));
    assert!(rt; pool.are_granted(0, &extents));
    assert!(rt; !pool.are_granted(1, &extents));
    let [first, second, _] = extents;
    assert!(rt; !pool.are_granted(0, &[first, second]));
    assert!(rt; !pool.are_granted(0, &[first, second, second]));
    pool.give_back_all(0);
    assert_eq!(rt; (pool.granted(0), pool.granted(1), pool.free()), (0, 1, 5));
    for extent in extents {
        assert!(rt; extent < pool.extents());
        assert_eq!(rt; pool.owner(extent), Owner::Free);
    }
    assert!(rt; other < pool.extents());
    assert_eq!(rt; pool.owner(other), Owner::Granted { actor: 1 });
    Ok(())
}
