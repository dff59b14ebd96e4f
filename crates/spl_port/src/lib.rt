//! The outside of the store, as its layers see it: streams of bytes, and devices of pages.
//!
//! Each side is a trait (`Source`, `Sink`, `Port`) with a meaning that proofs see, and with a count of its own faults.
//! Generic code can't raise that count by itself. So a body that just gives up does not meet a clause that allows a
//! refusal only where the count rose.
//!
//! A thread has a `Port` of its own. It writes the pages of an extent as a draft and seals them. A sealed extent never
//! changes, and any port of the same kind can read it. `TELLS` of a seal says whether reads are known to return the
//! pages as written: those of `MemPort` are, those of `BlurPort` may return other bytes.
//!
//! `specs/Page.antt` defines which bytes are the page of a place. Ports do not check that; `spl_page` does.
#![tactic(auto)]

mod at;
mod blur;
mod blur_port;
mod blur_seal;
mod calls;
mod damaged;
mod failed;
mod mem_draft;
mod mem_port;
mod mem_seal;
mod mem_sink;
mod mem_source;
mod page_bytes;
mod port;
mod schedule;
mod seal;
mod sink;
mod source;
mod std_sink;
mod std_source;
mod tally;
mod whole;

pub use at::{At, EXTENT_PAGES};
pub use blur::{Blur, Patches};
pub use blur_port::BlurPort;
pub use blur_seal::BlurSeal;
pub use calls::{CallNumbers, Calls};
pub use damaged::{Damaged, Why};
pub use failed::Failed;
pub use mem_draft::MemDraft;
pub use mem_port::MemPort;
pub use mem_seal::MemSeal;
pub use mem_sink::MemSink;
pub use mem_source::MemSource;
pub use page_bytes::{PAGE_BYTES, PageBytes};
pub use port::{Port, PortFault};
pub use seal::Seal;
pub use sink::Sink;
pub use source::Source;
pub use std_sink::StdSink;
pub use std_source::StdSource;
pub use tally::Tally;
pub use whole::{ReadFault, read_whole, write_whole};

#[cfg(test)]
mod tests;
