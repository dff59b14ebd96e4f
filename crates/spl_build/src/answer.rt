use spl_branch::Branch;
use spl_port::Seal;

/// The result of `add`.
#[derive(Clone, Copy, Debug, PartialEq, Eq)]
pub enum Add {
    /// The key was added.
    Done,
    /// The next page has no extent, so nothing was added.
    Needs,
}

/// The result of `finish`.
#[derive(Drop)]
pub enum Finish<S: Seal> {
    /// The next page has no extent.
    Needs,
    /// Nothing was added, so there is no branch.
    Empty,
    /// The branch of what was added.
    Built(Branch<S>),
}
