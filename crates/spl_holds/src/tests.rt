use super::*;
use spl_base::ACTORS;
use std::process::Abort;
use std::test::Fail;

#[derive(Clone, Copy, Debug)]
enum Call {
    Read,
    Claim,
    Lock,
    Leave,
    LeaveAll,
}

fn answer(
    rt: &impl Abort,
    holds: &mut Holds,
    actor: u32,
    call: Call,
    node: u32,
) -> Result<(), Held> {
    assert!(rt; actor < ACTORS && node < holds.nodes());
    let grip = holds.grip(actor, node);
    match call {
        Call::Read => {
            assert_eq!(rt; grip, Grip::Free);
            holds.read(actor, node)?;
        }
        Call::Claim => {
            assert_eq!(rt; grip, Grip::Free);
            holds.claim(actor, node)?;
        }
        Call::Lock => {
            assert_eq!(rt; grip, Grip::Claim);
            holds.lock(actor, node)?;
        }
        Call::Leave => holds.leave(actor, node),
        Call::LeaveAll => holds.leave_all(actor),
    }
    Ok(())
}

#[test]
fn a_reader_forbids_a_lock_and_a_claimant_a_claim(rt: HostRuntime) -> Result<(), Fail> {
    let mut holds = Holds::new(rt.alloc())?;
    for (actor, call, want) in [
        (1, Call::Read, Ok(())),
        (2, Call::Claim, Ok(())),
        (2, Call::Lock, Err(Held { by: 1 })),
        (3, Call::Claim, Err(Held { by: 2 })),
    ] {
        assert_eq!(rt;
            answer(&rt, &mut holds, actor, call, 0),
            want,
            "{call:?} by {actor}"
        );
    }
    assert!(rt; holds.nodes() < NODES);
    assert_eq!(rt; holds.add(), 1);
    let refusal = Held { by: 2 };
    let text = format!(in rt.alloc(); "{refusal}")?;
    assert_eq!(rt; text.as_str(), "held by actor 2");
    Ok(())
}

#[test]
fn a_write_stands_alone_until_its_actor_leaves(rt: HostRuntime) -> Result<(), Fail> {
    let mut holds = Holds::new(rt.alloc())?;
    assert!(rt; holds.nodes() < NODES);
    let other = holds.add();
    for (actor, call, node, want) in [
        (5, Call::Read, 0, Ok(())),
        (31, Call::Claim, 0, Ok(())),
        (3, Call::Read, 0, Ok(())),
        (31, Call::Lock, 0, Err(Held { by: 3 })),
        (3, Call::Leave, 0, Ok(())),
        (31, Call::Lock, 0, Err(Held { by: 5 })),
        (5, Call::LeaveAll, 0, Ok(())),
        (31, Call::Lock, 0, Ok(())),
        (31, Call::Read, other, Ok(())),
        (4, Call::Read, 0, Err(Held { by: 31 })),
        (0, Call::Claim, 0, Err(Held { by: 31 })),
        (0, Call::Claim, other, Ok(())),
        (0, Call::Lock, other, Err(Held { by: 31 })),
        (31, Call::LeaveAll, 0, Ok(())),
        (4, Call::Read, 0, Ok(())),
        (0, Call::Lock, other, Ok(())),
    ] {
        assert_eq!(rt;
            answer(&rt, &mut holds, actor, call, node),
            want,
            "{call:?} by {actor}"
        );
    }
    Ok(())
}

/// For whom a read of node 1, a claim of node 2 and a lock of node 3 would be refused.
fn forbidding(rt: &impl Abort, holds: &Holds) -> (Option<u32>, Option<u32>, Option<u32>) {
    assert!(rt; holds.nodes() == 4);
    (holds.writer(1), holds.claimant(2), holds.first_reader(3))
}

#[test]
fn two_reads_and_a_claim_are_counted_until_their_actor_leaves(rt: HostRuntime) -> Result<(), Fail> {
    let mut holds = Holds::new(rt.alloc())?;
    for _ in 0..3 {
        assert!(rt; holds.nodes() < NODES);
        holds.add();
    }
    for (actor, call, node) in [
        (7, Call::Read, 0),
        (7, Call::Read, 3),
        (7, Call::Claim, 2),
        (8, Call::Read, 3),
        (8, Call::Claim, 1),
        (8, Call::Lock, 1),
    ] {
        assert_eq!(rt; answer(&rt, &mut holds, actor, call, node), Ok(()));
    }
    let others = Counts {
        reads: 1,
        claims: 0,
        writes: 1,
    };
    assert_eq!(rt;
        holds.counts(7),
        Counts {
            reads: 2,
            claims: 1,
            writes: 0
        }
    );
    assert_eq!(rt; holds.counts(8), others);
    assert_eq!(rt; forbidding(&rt, &holds), (Some(8), Some(7), Some(7)));
    holds.leave_all(7);
    assert_eq!(rt; holds.counts(7), Counts::default());
    assert_eq!(rt; holds.counts(8), others);
    assert_eq!(rt; forbidding(&rt, &holds), (Some(8), None, Some(8)));
    Ok(())
}
