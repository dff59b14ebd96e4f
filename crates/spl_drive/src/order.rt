use spl_message::Key;

/// In which order keys come.
#[derive(Clone, Copy, Debug, PartialEq, Eq)]
pub(crate) enum Order {
    Rising,
    Falling,
    Random,
}

/// The key of four bytes that is this number, with the highest byte first.
pub(crate) fn key_of(number: u32) -> Option<Key> {
    Key::read(&number.to_be_bytes()).ok()
}

/// A number that looks random. No two numbers have the same one.
pub(crate) fn mixed(number: u32) -> u32 {
    let mut mixed = number ^ (number >> 16);
    mixed = mixed.wrapping_mul(0x85eb_ca6b);
    mixed ^= mixed >> 13;
    mixed = mixed.wrapping_mul(0xc2b2_ae35);
    mixed ^ (mixed >> 16)
}

impl Order {
    /// The number of the key that comes at this place.
    pub(crate) fn number_at(self, place: u32) -> u32 {
        match self {
            Order::Rising => place,
            Order::Falling => u32::MAX - place,
            Order::Random => mixed(place),
        }
    }
}
