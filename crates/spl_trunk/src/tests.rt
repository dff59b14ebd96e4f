use crate::{Grow, Trunk};
use spl_message::Key;
use spl_node::{Node, Pivot};
use std::test::Fail;

#[test]
fn a_raised_root_leads_to_the_node_that_is_grown(rt: HostRuntime) -> Result<(), Fail> {
    let mut trunk = Trunk::new(rt.alloc())?;
    assert_eq!(rt; trunk.grow(Node::leaf(rt.alloc())?), Ok(1));
    assert_eq!(rt; trunk.count(), 2);
    trunk.lift(0, 1);
    assert_eq!(rt; trunk.push(0, &[5]), Ok(0));
    trunk.set_ticket(0, 0, 0, Some(3));
    trunk.release(0, 3);
    trunk.merge(0, 0, 0, None);
    trunk.set_mark(0, 0, 1);
    let key = Key::read(b"m")?;
    let pivot = Pivot {
        start: Some(key),
        child: Some(1),
        mark: 1,
    };
    assert_eq!(rt; trunk.insert_pivot(0, 1, pivot), Ok(()));
    trunk.trim(0);
    let root = trunk.node(0).ok_or("no root")?;
    assert_eq!(rt; root.lists().first(), 1);
    assert_eq!(rt; root.pivots().len(), 2);
    assert!(rt; trunk.node(2).is_none());
    let text = format!(in rt.alloc(); "{}, {}", Grow::Nodes { nodes: 4096 }, Grow::NoMemory)?;
    assert_eq!(rt;
        text.as_str(),
        "there are 4096 nodes already, out of memory"
    );
    Ok(())
}
