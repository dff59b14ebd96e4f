//! Pagers: they read the pages of branches from a port, check them, and return them as shared pointers. `Direct` reads
//! each time; the cache of `spl_cache` keeps pages.
#![tactic(auto)]

mod direct;
mod fault;
mod pager;

pub use direct::Direct;
pub use fault::FetchFault;
pub use pager::Pager;

#[cfg(test)]
mod tests;
