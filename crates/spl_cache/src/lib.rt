//! A cache of pages that were read, which many threads share.
//!
//! A page belongs to one set of eight frames. A frame is a latch over a page, so that threads may read it at the same
//! time, and a bit that says whether it was used since the set's clock hand passed. No call waits: a frame that others
//! hold is skipped.
//!
//! What is in a frame may change at any time, so a page that is found is compared with the place that is wanted, and
//! the seal is asked about its bytes, as if it came from the device. So no thread relies on what another one did.
#![tactic(auto)]

mod cache;
mod frame;
mod set;
#[cfg(test)]
mod tests;

pub use cache::{Cache, SETS};
pub use set::FRAMES;
