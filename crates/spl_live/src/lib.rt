//! A watch over a store: which extents its actor holds, and whether each page that is read lies in one of them.
//!
//! `Watched` is a holder of turns, and `WatchedPort` a device. They do what the holder and the device do that they wrap, and share a
//! `Watch`: the holder tells it what each answer names, and the device what is read. The extents of the branches that the latest sight or
//! a live ticket names are held until the descent or the job ends.
//!
//! That pages are read while their branch is held is tested here, since no clause says it: a clause speaks of the device's counts and of
//! its latest read, and not of what the holder's actor had at each read before. Where nothing else makes steps, a scan that reads a branch
//! after it left the node gives the right entries too. Beside others the branch may be freed by then, and its extents written anew.
#![tactic(auto)]

mod calls;
mod watch;
mod watched;
mod watched_port;

pub use calls::{delete, insert, lookup, next, work};
pub use watch::Watch;
pub use watched::Watched;
pub use watched_port::WatchedPort;

#[cfg(test)]
mod tests;
