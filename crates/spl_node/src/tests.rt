ghost use Rattle.std.specs.Prelude.{◌≡◌, ◌≤◌};
ghost use Rattle.spl_node.specs.Steps.{all_keys};

use crate::{Node, Pivot, Pivots};
use spl_message::{Bound, Key, Span};
use std::test::Fail;

#[test]
fn the_live_lists_of_a_pivot_begin_at_its_mark(rt: HostRuntime) -> Result<(), Fail> {
    let first = Pivot {
        start: None,
        child: Some(1),
        mark: 0,
    };
    let mut node = Node::inner(rt.alloc(), 1, first)?;
    assert_eq!(rt; node.push(&[5]), Ok(0));
    assert_eq!(rt; node.push(&[6, 7]), Ok(1));
    let second = Pivot {
        start: Some(Key::read(b"m")?),
        child: Some(2),
        mark: 1,
    };
    assert_eq!(rt; node.insert_pivot(1, second), Ok(()));
    assert_eq!(rt; node.live(rt.alloc(), 0)?.as_slice(), [5, 6, 7].as_slice());
    assert_eq!(rt; node.live(rt.alloc(), 1)?.as_slice(), [6, 7].as_slice());
    node.trim();
    assert_eq!(rt; node.lists().first(), 0);
    node.set_mark(0, 1);
    assert_eq!(rt; node.kept_from(), 1);
    node.trim();
    assert_eq!(rt; node.lists().first(), 1);
    assert_eq!(rt; node.pivot_of(&Key::read(b"l")?), 0);
    assert_eq!(rt; node.pivot_of(&Key::read(b"m")?), 1);
    Ok(())
}

/// Inserts a pivot right behind the first one, or nothing where the next one does not start behind it.
fn insert_second(node: &mut Node, start: Key) -> Option<Result<(), Pivots>>
    requires high { 1 ≤ node.old.height }
    requires range { node.old.range ≡ all_keys }
    ensures high { node.new.height ≡ node.old.height }
    ensures range { node.new.range ≡ node.old.range }
{
    let pivots = node.pivots();
    if pivots.len() > 1 && pivots[1].starts_by(&start) {
        return None;
    }
    let mark = node.lists().next();
    let pivot = Pivot {
        start: Some(start),
        child: Some(1),
        mark,
    };
    Some(node.insert_pivot(1, pivot))
}

#[test]
fn a_seventeenth_pivot_is_refused(rt: HostRuntime) -> Result<(), Fail> {
    let first = Pivot {
        start: None,
        child: Some(1),
        mark: 0,
    };
    let mut node = Node::inner(rt.alloc(), 1, first)?;
    for n in 0..15u8 {
        let start = Key::read(&[120 - n])?;
        assert_eq!(rt; insert_second(&mut node, start), Some(Ok(())));
    }
    let start = Key::read(b"a")?;
    assert_eq!(rt;
        insert_second(&mut node, start),
        Some(Err(Pivots { pivots: 16 }))
    );
    Ok(())
}

#[test]
fn a_refused_pivot_names_the_limit(rt: HostRuntime) -> Result<(), Fail> {
    let text = format!(in rt.alloc(); "{}", Pivots { pivots: 16 })?;
    assert_eq!(rt; text.as_str(), "there are 16 pivots already");
    Ok(())
}

#[test]
fn both_parts_of_a_leaf_keep_its_bundles_and_marks(rt: HostRuntime) -> Result<(), Fail> {
    let mut node = Node::leaf(rt.alloc())?;
    assert!(rt; node.live(rt.alloc(), 0)?.is_empty());
    assert_eq!(rt; node.push(&[5]), Ok(0));
    assert_eq!(rt; node.push(&[6]), Ok(1));
    node.set_ticket(0, 1, Some(3));
    node.merge(0, 0, None);
    let key = Key::read(b"k")?;
    let right = node.right(rt.alloc(), &key)?;
    node.keep_left(&key);
    assert_eq!(rt; node.ticket(1), Some(3));
    assert_eq!(rt; right.ticket(1), Some(3));
    assert_eq!(rt; right.live(rt.alloc(), 0)?.as_slice(), [6].as_slice());
    assert_eq!(rt; node.generation(), 1);
    assert_eq!(rt; right.generation(), 0);
    assert_eq!(rt;
        *node.range(),
        Span {
            from: None,
            to: Some(Bound::of(&key))
        }
    );
    assert_eq!(rt;
        *right.range(),
        Span {
            from: Some(key),
            to: None
        }
    );
    node.release(3);
    assert_eq!(rt; node.ticket(1), None);
    Ok(())
}

#[test]
fn a_raised_root_has_one_child_and_no_bundles(rt: HostRuntime) -> Result<(), Fail> {
    let mut root = Node::leaf(rt.alloc())?;
    assert_eq!(rt; root.push(&[5]), Ok(0));
    let child = root.lower(rt.alloc())?;
    root.lift(1);
    assert_eq!(rt; child.live(rt.alloc(), 0)?.as_slice(), [5].as_slice());
    assert_eq!(rt; root.height(), 1);
    assert_eq!(rt; child.height(), 0);
    assert_eq!(rt;
        root.pivots(),
        [Pivot {
            start: None,
            child: Some(1),
            mark: 0
        }]
        .as_slice()
    );
    assert_eq!(rt; root.lists().next(), 0);
    Ok(())
}
