use crate::{Bundles, Limit};

#[test]
fn a_list_of_thirty_three_is_refused(rt: HostRuntime) {
    let mut bundles = Bundles::new(rt.alloc(), 0);
    let refusal = Limit::Branches { branches: 33 };
    assert_eq!(rt; bundles.push(&[1; 33]), Err(refusal));
    assert_eq!(rt; bundles.push(&[1; 32]), Ok(0));
    let text = format!(in rt.alloc(); "{refusal}").expect(&rt, "memory");
    assert_eq!(rt; text.as_str(), "a list of 33 branches is too long");
}

#[test]
fn a_full_queue_takes_a_list_once_one_is_dropped(rt: HostRuntime) {
    let mut bundles = Bundles::new(rt.alloc(), 7);
    for number in 7..31 {
        assert_eq!(rt; bundles.next(), number);
        assert_eq!(rt; bundles.push(&[number, 40]), Ok(number));
    }
    assert!(rt; bundles.is_full());
    assert_eq!(rt; bundles.first(), 7);
    assert_eq!(rt; bundles.next(), 31);
    let refusal = Limit::Lists { lists: 24 };
    assert_eq!(rt; bundles.push(&[1; 33]), Err(refusal));
    let text = format!(in rt.alloc(); "{refusal}").expect(&rt, "memory");
    assert_eq!(rt; text.as_str(), "there are 24 lists already");

    bundles.drop_below(9);
    assert_eq!(rt; bundles.push(&[]), Ok(31));
    assert_eq!(rt; bundles.first(), 9);
    assert_eq!(rt; bundles.next(), 32);
    assert_eq!(rt; bundles.list(9), [9, 40].as_slice());
    assert_eq!(rt; bundles.list(31), [].as_slice());
}

#[test]
fn a_merge_leaves_a_copy_as_it_was(rt: HostRuntime) {
    let mut bundles = Bundles::new(rt.alloc(), 22);
    for number in 22..26 {
        assert_eq!(rt; bundles.next(), number);
        assert_eq!(rt; bundles.push(&[number, 40]), Ok(number));
    }
    assert_eq!(rt; bundles.next(), 26);
    bundles.drop_below(23);
    assert_eq!(rt; bundles.first(), 23);
    assert_eq!(rt; bundles.next(), 26);
    let copy = bundles.copy();
    bundles.merge(21, 24, Some(77));
    assert_eq!(rt; bundles.list(23), [].as_slice());
    assert_eq!(rt; bundles.list(24), [77].as_slice());
    assert_eq!(rt; bundles.list(25), [25, 40].as_slice());
    assert_eq!(rt; copy.list(23), [23, 40].as_slice());
    assert_eq!(rt; copy.list(24), [24, 40].as_slice());
}

#[test]
fn a_merge_of_one_actors_run_keeps_the_marks_of_the_other(rt: HostRuntime) {
    let mut bundles = Bundles::new(rt.alloc(), 0);
    for number in 0..4 {
        assert_eq!(rt; bundles.next(), number);
        assert_eq!(rt; bundles.push(&[number]), Ok(number));
    }
    assert_eq!(rt; bundles.next(), 4);
    assert_eq!(rt; bundles.first(), 0);
    bundles.set_owner(0, 1, Some(5));
    bundles.set_owner(2, 3, Some(6));
    assert_eq!(rt; bundles.next(), 4);
    assert_eq!(rt; bundles.first(), 0);
    assert_eq!(rt; bundles.owner(1), Some(5));
    bundles.merge(0, 1, Some(9));
    assert_eq!(rt; bundles.next(), 4);
    assert_eq!(rt; bundles.first(), 0);
    assert_eq!(rt; bundles.list(1), [9].as_slice());
    assert_eq!(rt; bundles.owner(0), None);
    assert_eq!(rt; bundles.owner(1), None);
    assert_eq!(rt; bundles.owner(2), Some(6));
    assert_eq!(rt; bundles.owner(3), Some(6));
    bundles.release(6);
    assert_eq!(rt; bundles.next(), 4);
    assert_eq!(rt; bundles.first(), 0);
    assert_eq!(rt; bundles.owner(3), None);
}

#[test]
fn live_lists_are_joined_in_another_queue(rt: HostRuntime) {
    let mut parent = Bundles::new(rt.alloc(), 7);
    for number in 7..10 {
        assert_eq!(rt; parent.next(), number);
        assert_eq!(rt; parent.push(&[number, 40]), Ok(number));
    }
    assert_eq!(rt; parent.live_len(8), 4);
    let mut child = Bundles::new(rt.alloc(), 0);
    assert_eq!(rt; child.push_from(&parent, 8), Ok(0));
    assert_eq!(rt; child.next(), 1);
    assert_eq!(rt; child.push_from(&parent, 10), Ok(1));
    assert_eq!(rt; child.first(), 0);
    assert_eq!(rt; child.next(), 2);
    assert_eq!(rt; child.list(0), [8, 40, 9, 40].as_slice());
    assert_eq!(rt; child.list(1), [].as_slice());
    assert_eq!(rt; parent.next(), 10);
    assert_eq!(rt; parent.push(&[9; 32]), Ok(10));
    let refusal = Limit::Branches { branches: 36 };
    assert_eq!(rt; child.push_from(&parent, 8), Err(refusal));
}
