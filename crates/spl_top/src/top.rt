//! The top call.
ghost use Rattle.std.specs.Prelude.{ℕ, ◌≡◌, ◌≢◌, ◌≤◌, true, None, List, [], length, map, IfSome, Ok, Err, codes};
ghost use Rattle.spl_port.specs.Bytes.{Loses, Takes};
ghost use Rattle.spl_port.specs.Counts.{Rose, raised_count};
ghost use Rattle.spl_script.specs.declared.lines.ScriptLine.{ScriptLine};
ghost use Rattle.spl_script.specs.Lines.{Faulty, script_text};
ghost use Rattle.spl_report.specs.declared.report.Row.{Row};
ghost use Rattle.spl_report.specs.ReportText.{report_text};
ghost use Rattle.spl_words.specs.declared.command.Command.{Command as CommandOf};
ghost use Rattle.spl_words.specs.declared.command.Command.TheVariants.{Run, Load};
ghost use Rattle.spl_words.specs.declared.command.Setup.{Setup as SetupOf};
ghost use Rattle.spl_words.specs.Words.{IsSetup};
ghost use Rattle.spl_run.specs.Solo.{HasCause, WasFull, WasSpent, WasWide, first};
ghost use Rattle.spl_run.specs.Turns.{HasReadDamage};
ghost use Rattle.spl_top.specs.Asked.{Asks, IsCommand, IsRun, rule_of_merge, setup_in};
ghost use Rattle.spl_top.specs.Outcome.{IsRead, fault_text};
ghost use Rattle.spl_top.specs.Top.{Tells, Ends, EndsLoad, EndsRun, IsTold, Loads, Reports, RefusesLine, IsDone};

use crate::ending::{ending_of_input, ending_of_load};
use spl_calls::Callbacks;
use spl_message::{Key, MergeLaw, NoMemory, Value};
use spl_ops::Capped;
use spl_port::{Failed, Port, ReadFault, Sink, Source, read_whole, write_whole};
use spl_script::INPUT_LIMIT;
use spl_words::{Command, Setup, read_words};
use std::alloc::Global;

/// Tells a text, and answers with its status, or with 4 where the sink failed.
fn tell<O: Sink>(out: &mut O, text: &[u8], status: u8) -> u8
    ensures { Tells (O.means out.old) (O.means out.new) status text.now result }
{
    match write_whole(out, text) {
        Ok(()) => status,
        Err(Failed) => 4,
    }
}

/// Ends a run, and tells how.
fn end_run<P: Port, W: MergeLaw, I: Source, O: Sink>(
    alloc: Global,
    setup: Setup,
    port: &mut P,
    own: &W,
    input: &mut I,
    out: &mut O,
) -> u8
    requires within { IsSetup setup }
    requires ready { W.ready own.now }
    ensures told { EndsRun (rule_of_merge (W.rule own.now) setup.merge) P.Seal.TELLS 1
        (I.means input.old) (I.means input.new) (O.means out.old) (O.means out.new) result }
    ensures cause { HasCause (rule_of_merge (W.rule own.now) setup.merge) setup.extents P.Seal.TELLS
        (P.counts port.old) (P.counts port.new) result
        (λ rows. Takes (O.means out.old).held (O.means out.new).held (report_text rows)) }
    ensures reading_ends { Loses (I.means input.old).left (I.means input.new).left 16777217 }
    ensures no_late_read { (I.means input.old).late ≡ None → IfSome (I.means input.new).late (λ reads. reads ≡ 0) }
{
    let bytes = match read_whole(alloc, input, INPUT_LIMIT + 1) {
        Ok(bytes) => bytes,
        Err(ReadFault::Failed) => return tell(out, b"source\n", 3),
        Err(ReadFault::NoMemory) => return tell(out, b"memory\n", 7),
    };
    match ending_of_input(alloc, port, setup, own, bytes.as_slice()) {
        Ok(ending) => tell(out, ending.text.as_slice(), ending.status),
        Err(NoMemory) => tell(out, b"memory\n", 7),
    }
}

/// Ends a load, and tells how.
fn end_load<P: Port, W: MergeLaw, O: Sink>(
    alloc: Global,
    setup: Setup,
    seed: u64,
    lines: u64,
    port: &mut P,
    own: &W,
    out: &mut O,
) -> u8
    requires within { IsSetup setup }
    requires lines { lines ≤ 500000 }
    requires ready { W.ready own.now }
    ensures told { EndsLoad (rule_of_merge (W.rule own.now) setup.merge) P.Seal.TELLS seed lines (O.means out.old) (O.means out.new) result }
    ensures loads { result ≢ 4 → Loads (rule_of_merge (W.rule own.now) setup.merge) setup.extents P.Seal.TELLS seed lines
        (P.counts port.old) (P.counts port.new) (O.means out.old).held (O.means out.new).held result }
    ensures cause { HasCause (rule_of_merge (W.rule own.now) setup.merge) setup.extents P.Seal.TELLS
        (P.counts port.old) (P.counts port.new) result
        (IsTold (Load setup seed lines) (O.means out.old).held (O.means out.new).held) }
{
    match ending_of_load(alloc, port, setup, own, seed, lines) {
        Ok(ending) => tell(out, ending.text.as_slice(), ending.status),
        Err(NoMemory) => tell(out, b"memory\n", 7),
    }
}

/// Ends the program, and tells how.
fn end<P: Port, W: MergeLaw, I: Source, O: Sink>(
    alloc: Global,
    words: &[String],
    port: &mut P,
    own: &W,
    input: &mut I,
    out: &mut O,
) -> u8
    requires { W.ready own.now }
    ensures told { Ends (W.rule own.now) P.Seal.TELLS 1 words.now
        (I.means input.old) (I.means input.new) (O.means out.old) (O.means out.new) result }
    ensures loads { (setup : SetupOf) (seed lines : ℕ) → Asks words.now (Load setup seed lines) → result ≢ 4
        → Loads (rule_of_merge (W.rule own.now) setup.merge) setup.extents P.Seal.TELLS seed lines
        (P.counts port.old) (P.counts port.new) (O.means out.old).held (O.means out.new).held result }
    ensures cause { (command : CommandOf) → Asks words.now command →
        HasCause (rule_of_merge (W.rule own.now) (setup_in command).merge) (setup_in command).extents P.Seal.TELLS
        (P.counts port.old) (P.counts port.new) result (IsTold command (O.means out.old).held (O.means out.new).held) }
    ensures reading_ends { Loses (I.means input.old).left (I.means input.new).left 16777217 }
    ensures no_late_read { (I.means input.old).late ≡ None → IfSome (I.means input.new).late (λ reads. reads ≡ 0) }
{
    match read_words(words) {
        Some(Command::Run(setup)) => end_run(alloc, setup, port, own, input, out),
        Some(Command::Load { setup, seed, lines }) => {
            end_load(alloc, setup, seed, lines, port, own, out)
        }
        None => tell(out, b"words\n", 1),
    }
}

/// The program: reads its words. A run reads the input to its end, then the script, runs it over an empty store on the first
/// of 16 devices, and writes the report or the first refusal. A load runs the script of its seed in the same way, and writes
/// one line. The answer is the status of the process. `own` has the callbacks of the merge rule of that name.
///
/// | status | what is written                                                            |
/// | 0      | the report, or the line of a load: the whole script is answered            |
/// | 1      | `words`: the words spell no command                                        |
/// | 2      | `line N: WHY`: that line of the script is faulty                           |
/// | 3      | `source`: the input failed                                                 |
/// | 4      | a front of the text: the output failed                                     |
/// | 5      | the report of what was done before the device failed                       |
/// | 6      | the same before no extent was free                                         |
/// | 7      | the same before memory ran out, or `memory` without a report               |
/// | 8      | the same before a device that does not tell its pages gave a damaged one   |
/// | 9      | the same before no node was left                                           |
/// | 10     | the same before 2^40 turns were made                                       |
///
/// An earlier refusal that holds decides: words, input, script, run, report. A text that is no report ends with LF. Where it
/// says the report of what was done, a load writes its line.
pub fn splinter<P: Port, J, A, I: Source, O: Sink>(
    alloc: Global,
    words: &[String],
    ports: &mut [P],
    own: &Callbacks<Capped, J, A>,
    input: &mut I,
    out: &mut O,
) -> u8
where
    J: Fn(Global, &Key, &Value, &Value) -> Result<Value, NoMemory> + Drop,
    A: Fn(Global, &Key, Option<&Value>, &Value) -> Result<Value, NoMemory> + Drop,
    requires ports { length ports.old ≡ 16 }
    requires ready { ⟦<Callbacks<Capped, J, A> as MergeLaw>⟧.ready own.now }

    // What there is to tell has its cause, and the sink holds it.
    ensures told { Ends (⟦<Callbacks<Capped, J, A> as MergeLaw>⟧.rule own.now) P.Seal.TELLS 1 words.now
        (I.means input.old) (I.means input.new) (O.means out.old) (O.means out.new) result }

    // The report is one legal history.
    ensures headline { (setup : SetupOf) → Asks words.now (Run setup) → IfSome (I.means input.old).left (λ bytes. (script : List ScriptLine) → script_text 1 bytes ≡ Ok script
        → result ≢ 3 → result ≢ 4
        → Reports (rule_of_merge (⟦<Callbacks<Capped, J, A> as MergeLaw>⟧.rule own.now) setup.merge) P.Seal.TELLS script (O.means out.old).held (O.means out.new).held result) }
    ensures done { (setup : SetupOf) → Asks words.now (Run setup) → result ≡ 0
        → IfSome (I.means input.old).left (IsDone (rule_of_merge (⟦<Callbacks<Capped, J, A> as MergeLaw>⟧.rule own.now) setup.merge) P.Seal.TELLS 1 (O.means out.old).held (O.means out.new).held)
        × IfSome (I.means input.new).left (λ bytes. bytes ≡ []) }
    ensures memory { (setup : SetupOf) → Asks words.now (Run setup) → result ≡ 7
        → (script : List ScriptLine) × Reports (rule_of_merge (⟦<Callbacks<Capped, J, A> as MergeLaw>⟧.rule own.now) setup.merge) P.Seal.TELLS script (O.means out.old).held (O.means out.new).held 7 }

    // A load tells the line of rows that are one legal history of the seed's script, and of the core that they led to.
    ensures load { (setup : SetupOf) (seed lines : ℕ) → Asks words.now (Load setup seed lines) → result ≢ 4
        → Loads (rule_of_merge (⟦<Callbacks<Capped, J, A> as MergeLaw>⟧.rule own.now) setup.merge) setup.extents P.Seal.TELLS seed lines
        (first (map P.counts ports.old)) (first (map P.counts ports.new)) (O.means out.old).held (O.means out.new).held result }
    ensures unread { (setup : SetupOf) (seed lines : ℕ) → Asks words.now (Load setup seed lines) → I.means input.new ≡ I.means input.old }

    // No more of the input is read, and nothing behind its end.
    ensures reading_ends { Loses (I.means input.old).left (I.means input.new).left 16777217 }
    ensures no_late_read { (I.means input.old).late ≡ None → IfSome (I.means input.new).late (λ reads. reads ≡ 0) }

    // Each refusal comes for its cause, and where that cause holds.
    ensures words_only { result ≡ 1 → ¬ (IsCommand words.now) }
    ensures words { ¬ (IsCommand words.now) → Tells (O.means out.old) (O.means out.new) 1 (codes "words\n") result × (I.means input.new ≡ I.means input.old) }
    ensures script_only { result ≡ 2 → IsRun words.now × IfSome (I.means input.old).left (λ bytes. (faulty : Faulty) × (script_text 1 bytes ≡ Err faulty)
        × Takes (O.means out.old).held (O.means out.new).held (fault_text faulty)) × IsRead (I.means input.old).left (I.means input.new).left }
    ensures script { IsRun words.now → IfSome (I.means input.old).left (λ bytes. (faulty : Faulty) → script_text 1 bytes ≡ Err faulty
        → result ≢ 3 → result ≢ 4 → RefusesLine (O.means out.old) (O.means out.new) faulty result) }
    ensures source_only { result ≡ 3 → IsRun words.now × ((I.means input.new).faults ≡ raised_count (I.means input.old).faults)
        × Takes (O.means out.old).held (O.means out.new).held (codes "source\n") }
    ensures source { (I.means input.new).faults ≢ (I.means input.old).faults → Tells (O.means out.old) (O.means out.new) 3 (codes "source\n") result }
    ensures sink_only { result ≡ 4 → (O.means out.new).faults ≡ raised_count (O.means out.old).faults }
    ensures sink { result ≢ 4 → (O.means out.new).faults ≡ (O.means out.old).faults }

    // The device failed; a turn found no free extent; the device does not tell its pages and gave a damaged one; a turn
    // found no free node; or 2^40 turns were made. The turns are those that made the calls of the report.
    ensures status { result ≤ 10 }
    ensures device { result ≡ 5 → Rose (first (map P.counts ports.old)).faults (first (map P.counts ports.new)).faults }
    ensures full { result ≡ 6 → (command : CommandOf) × Asks words.now command × (rows : List Row) × IsTold command (O.means out.old).held (O.means out.new).held rows
        × WasFull (rule_of_merge (⟦<Callbacks<Capped, J, A> as MergeLaw>⟧.rule own.now) (setup_in command).merge) (setup_in command).extents P.Seal.TELLS rows }
    ensures damaged { result ≡ 8 → (P.Seal.TELLS ≡ true → ⊥)
        × HasReadDamage (first (map P.counts ports.old)) (first (map P.counts ports.new)) }
    ensures nodes { result ≡ 9 → (command : CommandOf) × Asks words.now command × (rows : List Row) × IsTold command (O.means out.old).held (O.means out.new).held rows
        × WasWide (rule_of_merge (⟦<Callbacks<Capped, J, A> as MergeLaw>⟧.rule own.now) (setup_in command).merge) (setup_in command).extents P.Seal.TELLS rows }
    ensures spent { result ≡ 10 → (command : CommandOf) × Asks words.now command × (rows : List Row) × IsTold command (O.means out.old).held (O.means out.new).held rows
        × WasSpent (rule_of_merge (⟦<Callbacks<Capped, J, A> as MergeLaw>⟧.rule own.now) (setup_in command).merge) (setup_in command).extents P.Seal.TELLS rows }
{
    end(alloc, words, &mut ports[0], own, input, out)
}
