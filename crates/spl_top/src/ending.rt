//! How a run of an input ends: with which status and which text.
ghost use Rattle.std.specs.Prelude.{◌≡◌, ◌<◌, ◌≤◌, All, IfOk};
ghost use Rattle.spl_words.specs.Words.{IsSetup};
ghost use Rattle.spl_report.specs.ReportText.{report_text};
ghost use Rattle.spl_run.specs.Solo.{HasCause};
ghost use Rattle.spl_run.specs.Status.{IsRunOf};
ghost use Rattle.spl_top.specs.Asked.{rule_of_merge};
ghost use Rattle.spl_top.specs.Outcome.{EndsWithInput, why_text, fault_text};
ghost use Rattle.spl_top.specs.Top.{WasLoaded};

use spl_cache::Cache;
use spl_core::Core;
use spl_load::load;
use spl_message::{MergeLaw, NoMemory};
use spl_ops::Kind;
use spl_port::Port;
use spl_report::{Row, push_number, write_report};
use spl_run::solo;
use spl_script::{LineWhy, ScriptFault, Scripts, read_script};
use spl_words::{Merge, Setup};
use std::alloc::Global;

/// What there is to tell, and the status of the program when it is told.
#[derive(Drop)]
pub struct Ending {
    pub status: u8,
    pub text: Vec<u8>,
}

/// The rows of a run, and its status.
#[derive(Drop)]
struct Ran {
    rows: Vec<Row>,
    status: u8,
}

/// The word of a reason.
fn word_of(why: LineWhy) -> &'static [u8]
    ensures { result.now ≡ why_text why }
{
    match why {
        LineWhy::Size => b"size",
        LineWhy::Fields => b"fields",
        LineWhy::Caller => b"caller",
        LineWhy::Verb => b"verb",
        LineWhy::Value => b"value",
        LineWhy::Text => b"text",
        LineWhy::Key => b"key",
    }
}

/// The text of a faulty line.
fn write_fault(alloc: Global, line: u64, why: LineWhy) -> Result<Vec<u8>, NoMemory>
    ensures { IfOk result (λ text. text.items ≡ fault_text (record { line = line; why = why })) }
{
    let mut text = Vec::from_slice(alloc, b"line ")?;
    push_number(&mut text, line)?;
    text.extend_from_slice(b": ")?;
    text.extend_from_slice(word_of(why))?;
    text.push(b'\n')?;
    Ok(text)
}

/// Runs the script of caller 0 over an empty store with this law, with its branches on the device of the port.
fn run_with<P: Port, K: MergeLaw>(
    alloc: Global,
    port: &mut P,
    setup: Setup,
    law: &K,
    script: &Scripts,
) -> Result<Ran, NoMemory>
    requires callers { All (λ line. line.caller < 1) script.now }
    requires within { IsSetup setup }
    requires ready { K.ready law.now }
    ensures rows { IfOk result (λ ran. IsRunOf (K.rule law.now) P.Seal.TELLS script.now ran.rows.items ran.status) }
    ensures cause { IfOk result (λ ran. HasCause (K.rule law.now) setup.extents P.Seal.TELLS
        (P.counts port.old) (P.counts port.new) ran.status (λ rows. rows ≡ ran.rows.items)) }
{
    let core = Core::new(alloc, setup.extents, 1, law)?;
    let cache = Cache::new(alloc, setup.sets)?;
    let ended = solo(alloc, port, &cache, core, &law, script);
    Ok(Ran {
        rows: ended.rows,
        status: ended.status,
    })
}

/// Runs the script of caller 0 over the store that the setup asks for.
fn run_on<P: Port, W: MergeLaw>(
    alloc: Global,
    port: &mut P,
    setup: Setup,
    own: &W,
    script: &Scripts,
) -> Result<Ran, NoMemory>
    requires callers { All (λ line. line.caller < 1) script.now }
    requires within { IsSetup setup }
    requires ready { W.ready own.now }
    ensures rows { IfOk result (λ ran.
        IsRunOf (rule_of_merge (W.rule own.now) setup.merge) P.Seal.TELLS script.now ran.rows.items ran.status) }
    ensures cause { IfOk result (λ ran. HasCause (rule_of_merge (W.rule own.now) setup.merge) setup.extents P.Seal.TELLS
        (P.counts port.old) (P.counts port.new) ran.status (λ rows. rows ≡ ran.rows.items)) }
{
    match setup.merge {
        Merge::Add => run_with(alloc, port, setup, &Kind::Add, script),
        Merge::Max => run_with(alloc, port, setup, &Kind::Max, script),
        Merge::Tail => run_with(alloc, port, setup, &Kind::Tail, script),
        Merge::Own => run_with(alloc, port, setup, own, script),
    }
}

/// The ending of a run whose whole input is this.
pub fn ending_of_input<P: Port, W: MergeLaw>(
    alloc: Global,
    port: &mut P,
    setup: Setup,
    own: &W,
    input: &[u8],
) -> Result<Ending, NoMemory>
    requires within { IsSetup setup }
    requires ready { W.ready own.now }
    ensures told { IfOk result (λ ending. EndsWithInput (rule_of_merge (W.rule own.now) setup.merge) P.Seal.TELLS 1
        ending.status ending.text.items input.now) }
    ensures cause { IfOk result (λ ending. HasCause (rule_of_merge (W.rule own.now) setup.merge) setup.extents P.Seal.TELLS
        (P.counts port.old) (P.counts port.new) ending.status (λ rows. ending.text.items ≡ report_text rows)) }
{
    let script = match read_script(alloc, input, 1) {
        Ok(script) => script,
        Err(ScriptFault::Line { line, why }) => {
            let text = write_fault(alloc, line, why)?;
            return Ok(Ending { status: 2, text });
        }
        Err(ScriptFault::NoMemory) => return Err(NoMemory),
    };
    let ran = run_on(alloc, port, setup, own, &script)?;
    let text = write_report(alloc, ran.rows.as_slice())?;
    Ok(Ending {
        status: ran.status,
        text,
    })
}

/// Runs the script that a seed gives over an empty store with this law, with its branches on the device of the port.
fn load_with<P: Port, K: MergeLaw>(
    alloc: Global,
    port: &mut P,
    setup: Setup,
    law: &K,
    seed: u64,
    lines: u64,
) -> Result<Ending, NoMemory>
    requires within { IsSetup setup }
    requires lines { lines ≤ 500000 }
    requires ready { K.ready law.now }
    ensures { IfOk result (λ ending. WasLoaded (K.rule law.now) setup.extents P.Seal.TELLS seed lines
        (P.counts port.old) (P.counts port.new) ending.text.items ending.status) }
{
    let core = Core::new(alloc, setup.extents, 1, law)?;
    let cache = Cache::new(alloc, setup.sets)?;
    let loaded = load(alloc, port, &cache, core, &law, seed, lines)?;
    Ok(Ending {
        status: loaded.status,
        text: loaded.text,
    })
}

/// The ending of a load over the store that the setup asks for.
pub fn ending_of_load<P: Port, W: MergeLaw>(
    alloc: Global,
    port: &mut P,
    setup: Setup,
    own: &W,
    seed: u64,
    lines: u64,
) -> Result<Ending, NoMemory>
    requires within { IsSetup setup }
    requires lines { lines ≤ 500000 }
    requires ready { W.ready own.now }
    ensures { IfOk result (λ ending. WasLoaded (rule_of_merge (W.rule own.now) setup.merge) setup.extents P.Seal.TELLS seed lines
        (P.counts port.old) (P.counts port.new) ending.text.items ending.status) }
{
    match setup.merge {
        Merge::Add => load_with(alloc, port, setup, &Kind::Add, seed, lines),
        Merge::Max => load_with(alloc, port, setup, &Kind::Max, seed, lines),
        Merge::Tail => load_with(alloc, port, setup, &Kind::Tail, seed, lines),
        Merge::Own => load_with(alloc, port, setup, own, seed, lines),
    }
}
