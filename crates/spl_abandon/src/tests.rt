ghost use Rattle.std.specs.Prelude.{[], false};
ghost use Rattle.spl_message.specs.Table.{as_table};

use crate::abandon;
use spl_message::{Content, HashedKey, Key};
use spl_state::{ActorState, Parts, Reply};
use spl_steps::{claim, lock};
use std::test::Fail;

/// A branch without keys and extents.
#[derive(Drop)]
struct Bare;

impl Content for Bare {
    ghost TELLS = { false };

    ghost table = { λ _. as_table [] };

    ghost number = { λ _. 0 };

    ghost extents = { λ _. [] };

    ghost entries = { λ _. 0 };

    ghost cuts = { λ _. [] };

    ghost reach = { λ _ _. 0 };

    fn number(&self) -> u64 {
        0
    }

    fn extents(&self) -> &[u32] {
        &[]
    }

    fn entries(&self) -> u64 {
        0
    }

    fn cuts(&self) -> &[Key] {
        &[]
    }

    fn reach(&self, _key: &HashedKey) -> u32 {
        0
    }
}

#[test]
fn an_abandoned_write_leaves_the_node_to_others(rt: HostRuntime) -> Result<(), Fail> {
    let nothing = ActorState {
        descent: false,
        job: false,
        granted: 0,
        published: false,
        reads: 0,
        claims: 0,
        writes: 0,
    };
    let mut parts: Parts<Bare> = Parts::new(rt.alloc(), 4, 1)?;
    assert!(rt; matches!(claim(&mut parts, 3, 0), Reply::Done));
    assert!(rt; matches!(lock(&mut parts, 3, 0), Reply::Done));
    assert!(rt; matches!(abandon(&mut parts, 3), Reply::Done));
    assert_eq!(rt; parts.state(3), nothing);
    assert!(rt; matches!(claim(&mut parts, 4, 0), Reply::Done));
    Ok(())
}
