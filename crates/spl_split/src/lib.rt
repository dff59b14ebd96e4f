//! The steps by which the trunk grows: the root is raised over a new node, and a node is split in two.
//!
//! Both make one new node, which copies the bundles of the old one with the marks of the runs that are being merged: a
//! merge goes on in both parts of a split. So the branches of these bundles get one more reference each, and no key
//! changes what it means. The new node is made before anything is changed, and what follows takes no memory. The actor
//! has to write the nodes that change, so no other actor reads them meanwhile.
#![tactic(auto)]

mod halves;
mod names;
mod root;

pub use halves::split;
pub use root::raise;
