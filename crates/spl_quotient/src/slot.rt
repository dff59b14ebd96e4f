//! A slot of the table: a remainder and three bits, in two bytes.
ghost use Rattle.std.specs.Prelude.{◌≡◌, ◌≤◌, ◌<◌, ◌^◌, true, false};
ghost use Rattle.spl_quotient.specs.Slot.{is_used, begins_run, blank};

use std::marker::Model;

/// A remainder of 12 bits, and the bits occupied, continuation and shifted.
#[derive(Clone, Copy, Debug)]
pub(crate) struct Slot {
    bits: u16,
}

impl Model for Slot {
    ghost use Rattle.spl_quotient.specs.Slot.{Slot as Parts, parts, packed, packed-parts};

    ghost Value = { Parts };

    ghost view = { λ slot. parts slot.bits };

    ghost inverse = { λ slot. record { bits = packed slot } };

    ghost inverse_ok = { λ slot h i. record { bits = packed-parts slot.bits i } };
}

impl Slot {
    pub(crate) fn new(remainder: u16, occupied: bool, continuation: bool, shifted: bool) -> Slot
        requires { remainder < 2 ^ 12 }
        ensures { result ≡ record { remainder = remainder; occupied = occupied; continuation = continuation; shifted = shifted } }
    {
        let bits = remainder * 8
            + u16::from(shifted) * 4
            + u16::from(continuation) * 2
            + u16::from(occupied);
        Slot { bits }
    }

    /// An empty slot.
    pub(crate) fn blank() -> Slot
        ensures { result ≡ blank }
    {
        Slot { bits: 0 }
    }

    pub(crate) fn remainder(self) -> u16
        ensures { result ≡ self.remainder }
    {
        self.bits / 8
    }

    pub(crate) fn is_occupied(self) -> bool
        ensures { result ≡ self.occupied }
    {
        self.bits % 2 == 1
    }

    pub(crate) fn is_continuation(self) -> bool
        ensures { result ≡ self.continuation }
    {
        self.bits / 2 % 2 == 1
    }

    pub(crate) fn is_shifted(self) -> bool
        ensures { result ≡ self.shifted }
    {
        self.bits / 4 % 2 == 1
    }

    /// Whether the first remainder of a run lies here.
    pub(crate) fn begins_run(self) -> bool
        ensures { result ≡ begins_run self }
    {
        (self.is_occupied() || self.is_shifted()) && !self.is_continuation()
    }

    /// The slot with the first bit set.
    pub(crate) fn occupied(self) -> Slot
        ensures { result ≡ record self { occupied = true } }
    {
        Slot {
            bits: self.bits - self.bits % 2 + 1,
        }
    }
}
