ghost use Rattle.std.specs.Prelude.{◌≡◌, ◌==◌, ◌+◌, length, ◌∷◌, [], MatchOption, position};
ghost use Rattle.std.specs.List.{slice_split};

/// Where the first separator stands.
fn first_place(bytes: &[u8], separator: u8) -> Option<usize>
    ensures { result ≡ position (λ byte. byte == separator) bytes.now }
{
    bytes.iter().position(|byte| *byte == separator)
}

/// What stands before the first separator, and what stands behind it, where there is one.
pub fn first_part(bytes: &[u8], separator: u8) -> (&[u8], Option<&[u8]>)
    ensures parts { MatchOption result.1
        (slice_split (λ byte. byte == separator) bytes.now ≡ result.0.now ∷ [])
        (λ rest. slice_split (λ byte. byte == separator) bytes.now ≡ result.0.now ∷ slice_split (λ byte. byte == separator) rest.now) }
    ensures lengths { MatchOption result.1
        (length result.0.now ≡ length bytes.now)
        (λ rest. length result.0.now + 1 + length rest.now ≡ length bytes.now) }
{
    match first_place(bytes, separator) {
        Some(end) => (&bytes[..end], Some(&bytes[end + 1..])),
        None => (bytes, None),
    }
}
