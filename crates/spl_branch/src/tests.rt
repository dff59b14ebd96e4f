use crate::BranchFault;
use spl_port::{At, Damaged, Why};
use std::test::Fail;

#[test]
fn a_fault_says_what_happened(rt: HostRuntime) -> Result<(), Fail> {
    let at = At {
        extent: 5,
        branch: 7,
        page: 40,
        leaf: false,
    };
    let damaged = Damaged {
        at,
        why: Why::Order,
    };
    let cases = [
        (BranchFault::Fault, "the device failed"),
        (BranchFault::NoMemory, "out of memory"),
        (
            BranchFault::Damaged(damaged),
            "page 40 of branch 7, in extent 5, has keys that do not rise",
        ),
    ];
    for (fault, text) in cases {
        let said = format!(in rt.alloc(); "{fault}")?;
        assert_eq!(rt; said.as_str(), text);
    }
    Ok(())
}
