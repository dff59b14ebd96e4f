ghost use Rattle.std.specs.Prelude.{◌≡◌, ◌<◌, ◌≤◌, ◌+◌, ◌/◌, ◌%◌, ◌^◌, All, IfOk, length};
ghost use Rattle.spl_script.specs.Generator.{call_by, generated, key_at, line_at, next_state, value_at};
ghost use Rattle.spl_script.specs.Verb.{IsPutOrLook};

use crate::lines::{Deed, ScriptLine, Scripts};
use itoa::Buffer;
use spl_message::{Call, Key, Message, NoMemory, Value};
use std::alloc::Global;

/// The state behind a state.
fn next_state(state: u64) -> u64
    ensures { result ≡ next_state state }
{
    state
        .wrapping_mul(6_364_136_223_846_793_005)
        .wrapping_add(1_442_695_040_888_963_407)
}

/// The decimal digit of a number at a place, which is a power of ten.
fn digit_at(number: u64, place: u64) -> u8
    requires { 0 < place }
    ensures { result ≡ 48 + number / place % 10 }
{
    b'0' + (number / place % 10) as u8
}

/// The key that a state gives.
fn key_at(state: u64) -> Key
    ensures { result ≡ key_at state }
{
    let number = state / (1 << 40) % 65536;
    let bytes = [
        b'k',
        digit_at(number, 10_000),
        digit_at(number, 1000),
        digit_at(number, 100),
        digit_at(number, 10),
        digit_at(number, 1),
    ];
    Key::read(&bytes).unwrap()
}

/// The value that a state gives.
fn value_at(alloc: Global, state: u64) -> Result<Value, NoMemory>
    ensures { IfOk result (λ value. value ≡ value_at state) }
{
    let number = state / (1 << 16) % (1 << 24);
    match Value::read(alloc, Buffer::new().format(number).as_bytes()) {
        Ok(value) => Ok(value),
        Err(_) => Err(NoMemory),
    }
}

/// The call that a state gives.
fn call_at(alloc: Global, state: u64) -> Result<Call, NoMemory>
    ensures value { IfOk result (λ call. call ≡ call_by (state / 2 ^ 60) state) }
    ensures deed { IfOk result IsPutOrLook }
{
    let key = key_at(state);
    match state / (1 << 60) {
        0..=7 => Ok(Call::Put(key, Message::Insert(value_at(alloc, state)?))),
        8..=10 => Ok(Call::Put(key, Message::Update(value_at(alloc, state)?))),
        11 | 12 => Ok(Call::Put(key, Message::Delete)),
        _ => Ok(Call::Look(key)),
    }
}

/// The script of so many lines that a seed gives, all of caller 0. The same seed gives the same lines, and a longer
/// script begins with a shorter one.
pub fn make(alloc: Global, seed: u64, lines: u64) -> Result<Scripts, NoMemory>
    requires { lines ≤ 500000 }
    ensures lines { IfOk result (λ script. script ≡ generated lines seed) }
    ensures count { IfOk result (λ script. length script ≡ lines) }
    ensures caller { IfOk result (λ script. All (λ line. line.caller < 1) script) }
{
    let mut made = Vec::new(alloc);
    let mut state = seed;
    for _ in 0..lines {
        state = next_state(state);
        let call = call_at(alloc, state)?;
        made.push(ScriptLine {
            caller: 0,
            deed: Deed::One(call),
        })?;
    }
    Ok(Scripts::of(made))
}
