//! Runs whole scripts through the top call, on devices in memory, and says whether each ends as it has to.
//!
//! The examples have their reports in files: data/ has copies of examples/*.script and examples/*.report, which must
//! stay equal to those. The other scripts are made here. They are large, so that branches, flushes and compactions come
//! into play, and how their reports end follows from how they are made.
#![tactic(auto)]

mod example;
mod job;
mod pieces;
mod run;
mod script;

use anyhow::Result;

fn main(rt: HostRuntime) -> Result<()> {
    for example in example::EXAMPLES {
        example::check(&rt, example)?;
    }
    job::check_all(&rt)
}
