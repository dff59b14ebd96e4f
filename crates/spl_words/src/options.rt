ghost use Rattle.std.specs.Prelude.{◌≡◌, ◌≤◌, IfSome};
ghost use Rattle.std.specs.Str.{bytes_eq};
ghost use Rattle.spl_words.specs.Words.{AreWithin, IsSetup, common_option, load_option, merge_of, once, setup_of, with_extents, with_lines, with_merge, with_option, with_seed, with_sets};

use crate::command::{Merge, Setup};
use crate::number::{number_in, small_number_in};

/// Which command options stand with.
#[derive(Clone, Copy, Debug, PartialEq, Eq)]
pub enum Verb {
    Run,
    Load,
}

/// The values of the options that were given.
#[derive(Clone, Copy, Debug)]
pub struct Given {
    pub merge: Option<Merge>,
    pub extents: Option<u32>,
    pub sets: Option<u32>,
    pub seed: Option<u64>,
    pub lines: Option<u64>,
}

/// Whether these bytes are this text.
fn is(bytes: &[u8], text: &str) -> bool
    ensures { result ≡ bytes_eq bytes.now text.now }
{
    bytes == text.as_bytes()
}

/// The merge rule of this name.
fn merge_of(name: &[u8]) -> Option<Merge>
    ensures { result ≡ merge_of name.now }
{
    match name {
        b"add" => Some(Merge::Add),
        b"max" => Some(Merge::Max),
        b"tail" => Some(Merge::Tail),
        b"own" => Some(Merge::Own),
        _ => None,
    }
}

/// The value of an option, where there is one and none was given before.
fn once<X: Copy>(before: Option<X>, value: Option<X>) -> Option<Option<X>>
    ensures { result ≡ once before value }
{
    match (before, value) {
        (None, Some(value)) => Some(Some(value)),
        _ => None,
    }
}

/// What is given with a merge rule more.
fn with_merge(merge: Option<Merge>, given: Given) -> Option<Given>
    requires { AreWithin given }
    ensures value { result ≡ with_merge merge given }
    ensures within { IfSome result AreWithin }
{
    let merge = once(given.merge, merge)?;
    Some(Given { merge, ..given })
}

/// What is given with a number of extents more.
fn with_extents(extents: Option<u32>, given: Given) -> Option<Given>
    requires within { AreWithin given }
    requires most { IfSome extents (λ extents. extents ≤ 65536) }
    ensures value { result ≡ with_extents extents given }
    ensures within { IfSome result AreWithin }
{
    let extents = once(given.extents, extents)?;
    Some(Given { extents, ..given })
}

/// What is given with a number of sets more.
fn with_sets(sets: Option<u32>, given: Given) -> Option<Given>
    requires within { AreWithin given }
    requires least { IfSome sets (λ sets. 1 ≤ sets) }
    requires most { IfSome sets (λ sets. sets ≤ 4096) }
    ensures value { result ≡ with_sets sets given }
    ensures within { IfSome result AreWithin }
{
    let sets = once(given.sets, sets)?;
    Some(Given { sets, ..given })
}

/// What is given with a seed more.
fn with_seed(seed: Option<u64>, given: Given) -> Option<Given>
    requires { AreWithin given }
    ensures value { result ≡ with_seed seed given }
    ensures within { IfSome result AreWithin }
{
    let seed = once(given.seed, seed)?;
    Some(Given { seed, ..given })
}

/// What is given with a number of lines more.
fn with_lines(lines: Option<u64>, given: Given) -> Option<Given>
    requires within { AreWithin given }
    requires least { IfSome lines (λ lines. 1 ≤ lines) }
    requires most { IfSome lines (λ lines. lines ≤ 500000) }
    ensures value { result ≡ with_lines lines given }
    ensures within { IfSome result AreWithin }
{
    let lines = once(given.lines, lines)?;
    Some(Given { lines, ..given })
}

/// What is given with an option of both commands.
fn common_option(name: &[u8], value: &[u8], given: Given) -> Option<Given>
    requires { AreWithin given }
    ensures value { result ≡ common_option name.now value.now given }
    ensures within { IfSome result AreWithin }
{
    if is(name, "--merge") {
        with_merge(merge_of(value), given)
    } else if is(name, "--extents") {
        with_extents(small_number_in(value, 0, 65_536), given)
    } else if is(name, "--sets") {
        with_sets(small_number_in(value, 1, 4_096), given)
    } else {
        None
    }
}

/// What is given with an option of `load`.
fn load_option(name: &[u8], value: &[u8], given: Given) -> Option<Given>
    requires { AreWithin given }
    ensures value { result ≡ load_option name.now value.now given }
    ensures within { IfSome result AreWithin }
{
    if is(name, "--seed") {
        with_seed(number_in(value, 0, u64::MAX), given)
    } else if is(name, "--lines") {
        with_lines(number_in(value, 1, 500_000), given)
    } else {
        common_option(name, value, given)
    }
}

/// What is given with this option, where the command has it and its value is one of its values.
pub fn with_option(verb: Verb, name: &[u8], value: &[u8], given: Given) -> Option<Given>
    requires { AreWithin given }
    ensures value { result ≡ with_option verb name.now value.now given }
    ensures within { IfSome result AreWithin }
{
    match verb {
        Verb::Run => common_option(name, value, given),
        Verb::Load => load_option(name, value, given),
    }
}

/// The setup, in which each option that was not given has its default.
pub fn setup_of(given: Given) -> Setup
    requires { AreWithin given }
    ensures value { result ≡ setup_of given }
    ensures within { IsSetup result }
{
    Setup {
        merge: given.merge.unwrap_or(Merge::Add),
        extents: given.extents.unwrap_or(8192),
        sets: given.sets.unwrap_or(64),
    }
}
