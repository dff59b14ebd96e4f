ghost use Rattle.std.specs.Prelude.{◌≡◌, ◌∷◌, ◌<◌, ◌≤◌, length, Option, Some, None, IfOk, IfSome, MatchOption, if◌then◌else◌};
ghost use Rattle.std.specs.List.{list_all};
ghost use Rattle.std.specs.Option.{option_map};
ghost use Rattle.spl_script.specs.Text.{is_plain, digit_of, spelled};

use spl_message::NoMemory;

/// Whether the byte may be spelled by its character.
fn is_plain(byte: u8) -> bool
    ensures { result ≡ is_plain byte }
{
    byte > b' ' && byte < 127 && byte != b'%'
}

/// The number of a hexadecimal digit.
fn digit_of(byte: u8) -> Option<u8>
    ensures value { result ≡ digit_of byte }
    ensures small { IfSome result (λ digit. digit < 16) }
{
    match byte {
        b'0'..=b'9' => Some(byte - b'0'),
        b'A'..=b'F' => Some(byte - b'A' + 10),
        b'a'..=b'f' => Some(byte - b'a' + 10),
        _ => None,
    }
}

/// Whether each byte of the text spells itself.
pub fn are_plain(text: &[u8]) -> bool
    ensures { result ≡ list_all is_plain text.now }
{
    text.iter().all(|byte| is_plain(*byte))
}

/// The byte that two digits behind a `%` spell, and the text behind them.
fn escaped(text: &[u8]) -> Option<(u8, &[u8])>
    ensures shorter { IfSome result (λ first. length first.1.now ≤ length text.now) }
    ensures value { MatchOption result (spelled (37 ∷ text.now) ≡ None)
        (λ first. spelled (37 ∷ text.now) ≡ option_map (λ bytes. first.0 ∷ bytes) (spelled first.1.now)) }
{
    let [high, low, rest @ ..] = text else {
        return None;
    };
    let high = digit_of(*high)?;
    let low = digit_of(*low)?;
    Some((16 * high + low, rest))
}

#[tactic(auto, using(crate::proofs::Texts::plain_cons, crate::proofs::Texts::other_cons))]
/// The first byte that a text spells, which is its first byte and a rest, and the text behind its spelling.
fn first_byte(byte: u8, rest: &[u8]) -> Option<(u8, &[u8])>
    ensures shorter { IfSome result (λ first. length first.1.now ≤ length rest.now) }
    ensures value { MatchOption result (spelled (byte ∷ rest.now) ≡ None)
        (λ first. spelled (byte ∷ rest.now) ≡ option_map (λ bytes. first.0 ∷ bytes) (spelled first.1.now)) }
{
    if byte == b'%' {
        return escaped(rest);
    }
    if !is_plain(byte) {
        return None;
    }
    Some((byte, rest))
}

/// Puts the bytes that the text spells in the room, in the place of what it held. Answers whether it is a text.
pub fn spell(room: &mut Vec<u8>, text: &[u8]) -> Result<bool, NoMemory>
    ensures { IfOk result (λ is_text. spelled text.now ≡ (if is_text then Some room.new.items else None)) }
{
    room.clear();
    let mut left = text;
    while let [first, rest @ ..] = left {
        let Some((byte, after)) = first_byte(*first, rest) else {
            return Ok(false);
        };
        room.push(byte)?;
        left = after;
    }
    Ok(true)
}
