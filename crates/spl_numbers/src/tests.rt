use super::*;
use std::process::Abort;
use std::test::Fail;

fn add(rt: &impl Abort, numbers: &mut Numbers, number: u32) {
    let limit = numbers.limit();
    assert!(rt; number < limit);
    let there = numbers.has(number);
    assert!(rt; !there);
    numbers.insert(number);
}

#[test]
fn a_list_with_a_number_twice_is_not_the_set(rt: HostRuntime) -> Result<(), Fail> {
    let mut numbers = Numbers::new(rt.alloc(), LIMIT)?;
    assert_eq!(rt; numbers.any(), None);
    for number in [65_535, 4_096, 63] {
        add(&rt, &mut numbers, number);
    }
    assert_eq!(rt; numbers.count(), 3);
    for (list, want) in [
        ([63, 4_096, 65_535], true),
        ([65_535, 63, 4_096], true),
        ([63, 63, 4_096], false),
        ([63, 4_096, 64], false),
        ([63, 4_096, 65_536], false),
    ] {
        assert_eq!(rt; numbers.is_listed_by(&list), want);
    }
    assert!(rt; !numbers.is_listed_by(&[63, 4_096]));
    Ok(())
}

#[test]
fn each_number_is_met_once_while_they_are_removed(rt: HostRuntime) -> Result<(), Fail> {
    let mut numbers = Numbers::new(rt.alloc(), 40_000)?;
    for number in 0..200 {
        add(&rt, &mut numbers, number * number);
    }
    let mut sum = 0u64;
    for _ in 0..200 {
        let number = numbers.any().ok_or("a number is lost")?;
        numbers.remove(number);
        sum = sum.wrapping_add(number as u64);
    }
    assert_eq!(rt; sum, 2_646_700);
    assert_eq!(rt; numbers.any(), None);
    assert_eq!(rt; numbers.count(), 0);
    Ok(())
}
