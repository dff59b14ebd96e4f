ghost use Rattle.std.specs.Prelude.{◌≡◌, ◌≤◌, ◌==◌, ◌∷◌, map, length, position, MatchOption, IfSome, string_bytes};
ghost use Rattle.std.specs.Option.{option_and_then, option_copied};
ghost use Rattle.spl_words.specs.declared.options.Given.{Given as GivenOf};
ghost use Rattle.spl_words.specs.declared.options.Verb.{Verb as VerbOf};
ghost use Rattle.spl_words.specs.Words.{AreWithin, IsWithin, command_by, command_of, name_in, nothing, options_of, value_in, verb_of, with_option};

use crate::command::Command;
use crate::options::{Given, Verb, setup_of, with_option};

/// Where the `=` of a word stands.
fn equals_at(word: &[u8]) -> Option<usize>
    ensures { result ≡ position (λ byte. byte == 61) word.now }
{
    word.iter().position(|byte| *byte == b'=')
}

/// The name in a word, and the value behind its first `=` where it has one.
fn parts_of(word: &[u8]) -> (&[u8], Option<&[u8]>)
    ensures name { result.0.now ≡ name_in word.now }
    ensures value { option_copied result.1 ≡ value_in word.now }
{
    match equals_at(word) {
        Some(place) => (&word[..place], Some(&word[place + 1..])),
        None => (word, None),
    }
}

/// An option that words begin with: its name, its value and the words behind it.
#[derive(Drop)]
struct First<'a> {
    name: &'a [u8],
    value: &'a [u8],
    rest: &'a [String],
}

/// The option that a word begins, which has its value in the same word or in the next one.
fn first_option<'a>(word: &'a String, rest: &'a [String]) -> Option<First<'a>>
    ensures less { IfSome result (λ first. length first.rest.now ≤ length rest.now) }
    ensures value { (verb : VerbOf) (given : GivenOf) → MatchOption result
        (options_of verb (string_bytes word.now ∷ map string_bytes rest.now) given ≡ None)
        (λ first. options_of verb (string_bytes word.now ∷ map string_bytes rest.now) given
        ≡ option_and_then (options_of verb (map string_bytes first.rest.now)) (with_option verb first.name.now first.value.now given)) }
{
    let (name, value) = parts_of(word.as_bytes());
    match value {
        Some(value) => Some(First { name, value, rest }),
        None => {
            let [next, rest @ ..] = rest else {
                return None;
            };
            Some(First {
                name,
                value: next.as_bytes(),
                rest,
            })
        }
    }
}

/// What the options of these words give.
fn read_options(verb: Verb, words: &[String]) -> Option<Given>
    ensures value { result ≡ options_of verb (map string_bytes words.now) nothing }
    ensures within { IfSome result AreWithin }
{
    let mut given = Given {
        merge: None,
        extents: None,
        sets: None,
        seed: None,
        lines: None,
    };
    let mut left = words;
    while let [word, rest @ ..] = left {
        let first = first_option(word, rest)?;
        given = with_option(verb, first.name, first.value, given)?;
        left = first.rest;
    }
    Some(given)
}

/// The command that a word names.
fn verb_of(word: &[u8]) -> Option<Verb>
    ensures { result ≡ verb_of word.now }
{
    match word {
        b"run" => Some(Verb::Run),
        b"load" => Some(Verb::Load),
        _ => None,
    }
}

/// The command with these options.
fn command_by(verb: Verb, given: Given) -> Command
    requires { AreWithin given }
    ensures value { result ≡ command_by verb given }
    ensures within { IsWithin result }
{
    match verb {
        Verb::Run => Command::Run(setup_of(given)),
        Verb::Load => Command::Load {
            setup: setup_of(given),
            seed: given.seed.unwrap_or(1),
            lines: given.lines.unwrap_or(1000),
        },
    }
}

/// The command that the words spell, which is none exactly where they are not those of the table.
pub fn read_words(words: &[String]) -> Option<Command>
    ensures value { result ≡ command_of (map string_bytes words.now) }
    ensures within { IfSome result IsWithin }
{
    let [first, rest @ ..] = words else {
        return None;
    };
    let verb = verb_of(first.as_bytes())?;
    let given = read_options(verb, rest)?;
    Some(command_by(verb, given))
}
