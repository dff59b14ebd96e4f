ghost use Rattle.std.specs.Prelude.{ℕ, List, [], false, IfOk};
ghost use Rattle.spl_message.specs.Table.{as_table};
ghost use Rattle.spl_state.specs.Bounds.{AreBelow};

use crate::{begin, end, move_down};
use spl_message::{Content, HashedKey, Key, Span};
use spl_state::{Parts, Reply};
use std::alloc::Global;
use std::test::Fail;

/// A branch without keys and extents.
#[derive(Drop)]
struct Bare;

impl Content for Bare {
    ghost TELLS = { false };

    ghost table = { λ _. as_table [] };

    ghost number = { λ _. 0 };

    ghost extents = { λ _. [] };

    ghost entries = { λ _. 0 };

    ghost cuts = { λ _. [] };

    ghost reach = { λ _ _. 0 };

    fn number(&self) -> u64 {
        0
    }

    fn extents(&self) -> &[u32] {
        &[]
    }

    fn entries(&self) -> u64 {
        0
    }

    fn cuts(&self) -> &[Key] {
        &[]
    }

    fn reach(&self, _key: &HashedKey) -> u32 {
        0
    }
}

/// A new state with one step counted.
fn counted(alloc: Global) -> Result<Parts<Bare>, Fail>
    ensures { IfOk result (λ parts. AreBelow parts.nodes parts.tables parts.counters) }
{
    let mut parts = Parts::new(alloc, 4, 1)?;
    parts.count();
    Ok(parts)
}

/// Whether the answer is the sight of a leaf at this place, with so many tables, and without branches.
fn is_bare_leaf(answer: &Reply<Bare>, place: u64, tables: usize) -> bool {
    match answer {
        Reply::Sight(sight) => {
            sight.leaf
                && sight.place == place
                && sight.tables.as_slice().len() == tables
                && sight.branches.as_slice().is_empty()
        }
        _ => false,
    }
}

#[test]
fn a_descent_in_an_empty_store_ends_at_its_first_node(rt: HostRuntime) -> Result<(), Fail> {
    let mut parts = counted(rt.alloc())?;
    let everything = Span {
        from: None,
        to: None,
    };
    let first = begin(rt.alloc(), &mut parts, 3, &everything);
    assert!(rt; is_bare_leaf(&first, 0, 1));
    assert_eq!(rt; parts.state(3).reads, 1);
    assert!(rt; matches!(move_down(rt.alloc(), &mut parts, 3), Reply::Leaf));
    assert!(rt; matches!(end(&mut parts, 3), Reply::Done));
    assert_eq!(rt; parts.state(3).reads, 0);
    assert!(rt; matches!(move_down(rt.alloc(), &mut parts, 3), Reply::Unfit { .. }));
    assert!(rt; matches!(end(&mut parts, 3), Reply::Unfit { .. }));
    Ok(())
}
