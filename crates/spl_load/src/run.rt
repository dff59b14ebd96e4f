//! A run whose script is made of a seed.
ghost use Rattle.std.specs.Prelude.{◌≡◌, ◌≤◌, ℕ, List, IfOk, true};
ghost use Rattle.spl_message.specs.Rule.{Rule};
ghost use Rattle.spl_script.specs.Generator.{generated};
ghost use Rattle.spl_report.specs.declared.report.Row.{Row};
ghost use Rattle.spl_desk.specs.Calls.{NeverFell};
ghost use Rattle.spl_run.specs.Solo.{IsFresh};
ghost use Rattle.spl_run.specs.Status.{IsRunOf};
ghost use Rattle.spl_load.specs.Load.{HasLoaded};

use crate::line::{figures_of, write_line};
use spl_branch::Branch;
use spl_core::Core;
use spl_message::{Content, MergeLaw, NoMemory};
use spl_pager::Pager;
use spl_port::Port;
use spl_run::{Ended, solo};
use spl_script::make;
use std::alloc::Global;

/// The line that tells of a run, the run's status, and the core on which it was made.
#[derive(Drop)]
pub struct Loaded<B: Content, L: MergeLaw> {
    pub text: Vec<u8>,
    pub status: u8,
    pub core: Core<B, L>,
}

/// Makes the script of a seed, runs it for one caller over the core, with its branches on the device of the port, and
/// tells the run in one line. Where the caller was stopped there is the same line, and the status says why. Nobody waits.
pub fn load<P: Port, G: Pager, L: MergeLaw>(
    alloc: Global,
    port: &mut P,
    pager: &G,
    core: Core<Branch<P::Seal>, L>,
    law: &L,
    seed: u64,
    lines: u64,
) -> Result<Loaded<Branch<P::Seal>, L>, NoMemory>
    requires lines { lines ≤ 500000 }
    requires law { L.rule core.law ≡ L.rule law.now }
    requires ready { L.ready core.law }
    requires lawful { L.ready law.now }
    requires fresh { IsFresh (L.rule law.now) P.Seal.TELLS core.parts }
    ensures loaded { IfOk result (λ loaded. HasLoaded (L.rule law.now) P.Seal.TELLS seed lines core.parts
        (P.counts port.old) (P.counts port.new) loaded.core.parts loaded.text.items loaded.status) }
    ensures port { NeverFell (P.counts port.old) (P.counts port.new) }
{
    let script = make(alloc, seed, lines)?;
    let before = port.writes();
    let Ended { rows, status, core } = solo(alloc, port, pager, core, law, &script);
    let pages = port.writes() - before;
    let figures = figures_of(alloc, rows.as_slice(), pages, core.leaves())?;
    let text = write_line(alloc, &figures)?;
    Ok(Loaded { text, status, core })
}

/// Where devices tell their pages, two runs of a seed's script that were answered to the end, under the same rule of
/// updates, have the same rows. So all that their lines say of the rows is the same.
pub fn one_run()
    ensures { (rule : Rule) (seed lines : ℕ) (rows others : List Row) → IsRunOf rule true (generated lines seed) rows 0
        → IsRunOf rule true (generated lines seed) others 0 → rows ≡ others }
{}
