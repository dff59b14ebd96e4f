ghost use Rattle.std.specs.Prelude.{ℕ, List, [], false};
ghost use Rattle.spl_message.specs.Table.{as_table};

use crate::Refs;
use spl_message::{Content, HashedKey, Key};
use std::sync::Arc;
use std::test::Fail;

/// A branch without keys and extents.
#[derive(Drop)]
struct Bare {
    number: u64,
}

impl Content for Bare {
    ghost TELLS = { false };

    ghost table = { λ _. as_table [] };

    ghost number = { λ bare. bare.number };

    ghost extents = { λ _. [] };

    ghost entries = { λ _. 0 };

    ghost cuts = { λ _. [] };

    ghost reach = { λ _ _. 0 };

    fn number(&self) -> u64 {
        self.number
    }

    fn extents(&self) -> &[u32] {
        &[]
    }

    fn entries(&self) -> u64 {
        0
    }

    fn cuts(&self) -> &[Key] {
        &[]
    }

    fn reach(&self, _key: &HashedKey) -> u32 {
        0
    }
}

#[test]
fn a_branch_goes_out_with_its_last_holder(rt: HostRuntime) -> Result<(), Fail> {
    let mut refs = Refs::new(rt.alloc());
    refs.publish(Arc::new(rt.alloc(), Bare { number: 7 })?)?;
    refs.hold(7);
    assert_eq!(rt; refs.count(7), 2);
    assert!(rt; refs.let_go(7).is_none());
    assert!(rt; refs.find(7).is_some());
    assert_eq!(rt; refs.count(7), 1);
    let branch = refs.let_go(7).ok_or("the last holder is given nothing")?;
    assert_eq!(rt; branch.number(), 7);
    assert!(rt; refs.find(7).is_none());
    assert_eq!(rt; refs.count(7), 0);
    Ok(())
}
