//! The run of one caller who has a core for himself.
ghost use Rattle.std.specs.Prelude.{◌≡◌, ◌<◌, All};
ghost use Rattle.spl_desk.specs.Calls.{NeverFell};
ghost use Rattle.spl_run.specs.Solo.{HasRun, IsFresh};
ghost use Rattle.spl_run.specs.Status.{IsRunOf};

use crate::run::run;
use spl_alone::Alone;
use spl_branch::Branch;
use spl_core::Core;
use spl_desk::{Desk, Turns};
use spl_message::{Content, MergeLaw};
use spl_pager::Pager;
use spl_port::Port;
use spl_report::Row;
use spl_script::Scripts;
use std::alloc::Global;

/// The rows of a run with its status, and the core on which it was made.
#[derive(Drop)]
pub struct Ended<B: Content, L: MergeLaw> {
    pub rows: Vec<Row>,
    pub status: u8,
    pub core: Core<B, L>,
}

/// Ends the desk, and hands its turns out.
fn leave<T: Turns<Branch<P::Seal>>, P: Port, G: Pager, L: MergeLaw>(desk: Desk<'_, T, P, G, L>) -> T
    ensures turns { result ≡ desk.entry.turns }
    ensures port { desk.exit.1.1.0.now ≡ desk.entry.port.now }
{
    let Desk { turns, .. } = desk;
    turns
}

/// Runs the script of caller 0 over the core, with its branches on the device of the port and the core's merge law. Nobody waits.
///
/// | status | the run ended because                                           |
/// | 0      | the whole script is answered                                    |
/// | 5      | the device failed                                               |
/// | 6      | no extent was free                                              |
/// | 7      | memory ran out                                                  |
/// | 8      | the device, which does not tell its pages, gave a damaged one   |
/// | 9      | there were as many nodes as there can be                        |
/// | 10     | 2^40 turns were made                                            |
pub fn solo<'a, P: Port, G: Pager, L: MergeLaw>(
    alloc: Global,
    port: &'a mut P,
    pager: &'a G,
    core: Core<Branch<P::Seal>, L>,
    law: &'a L,
    script: &Scripts,
) -> Ended<Branch<P::Seal>, L>
    requires callers { All (λ line. line.caller < 1) script.now }
    requires law { L.rule core.law ≡ L.rule law.now }
    requires ready { L.ready core.law }
    requires lawful { L.ready law.now }
    requires fresh { IsFresh (L.rule law.now) P.Seal.TELLS core.parts }

    // The rows are one legal history of the script.
    ensures rows { IsRunOf (L.rule law.now) P.Seal.TELLS script.now result.rows.items result.status }

    // The core means what the placed rows wrote, and the turns that led there show what stopped the run.
    ensures run { HasRun (L.rule law.now) P.Seal.TELLS core.parts (P.counts port.old) (P.counts port.new)
        result.core.parts result.rows.items result.status }
    ensures port { NeverFell (P.counts port.old) (P.counts port.new) }
{
    let mut desk = Desk {
        alloc,
        turns: Alone::new(core),
        port,
        pager,
        law,
    };
    let ran = run(&mut desk, script);
    Ended {
        rows: ran.rows,
        status: ran.status,
        core: leave(desk).core(),
    }
}
