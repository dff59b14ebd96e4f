ghost use Rattle.std.specs.Prelude.{◌≡◌, ◌+◌, ◌-◌, ◌^◌, ◌<◌, ◌≤◌, ◌↔◌, Some, IsTrue};
ghost use Rattle.spl_port.specs.Counts.{raised_count, no_counts};

use crate::{At, PAGE_BYTES};
use std::marker::Model;

/// The counts of a port, stored inline: no call on them takes memory.
#[derive(Debug, Drop)]
pub struct Tally {
    faults: u64,
    reads: u64,
    writes: u64,
    place: Option<At>,
    page: [u8; PAGE_BYTES],
}

impl Model for Tally {
    ghost use Rattle.std.specs.Option.{option_map};
    ghost use Rattle.spl_port.specs.Counts.{Counts};

    ghost Value = { Counts };

    ghost view = { λ t. record {
      faults = t.faults;
      reads = t.reads;
      writes = t.writes;
      last = option_map (λ at. record { at = at; bytes = t.page }) t.place;
    } };
}

impl Tally {
    /// The counts of a port that did nothing.
    pub fn new() -> Tally
        ensures { result ≡ no_counts }
    {
        Tally {
            faults: 0,
            reads: 0,
            writes: 0,
            place: None,
            page: [0; PAGE_BYTES],
        }
    }

    /// How often the port failed.
    pub fn faults(&self) -> u64
        ensures { result ≡ self.now.faults }
    {
        self.faults
    }

    /// How many pages were read.
    pub fn reads(&self) -> u64
        ensures { result ≡ self.now.reads }
    {
        self.reads
    }

    /// How many pages were written.
    pub fn writes(&self) -> u64
        ensures { result ≡ self.now.writes }
    {
        self.writes
    }

    /// Whether one more read can be counted.
    pub fn can_read(&self) -> bool
        ensures { IsTrue result ↔ (self.now.reads < 2 ^ 64 - 1) }
    {
        self.reads < u64::MAX
    }

    /// Whether one more write can be counted.
    pub fn can_write(&self) -> bool
        ensures { IsTrue result ↔ (self.now.writes < 2 ^ 64 - 1) }
    {
        self.writes < u64::MAX
    }

    /// Counts a fault.
    pub fn fault(&mut self)
        ensures after { self.new ≡ record self.old { faults = raised_count self.old.faults } }
        ensures never_falls { self.old.faults ≤ self.new.faults }
    {
        self.faults = self.faults.saturating_add(1);
    }

    /// Counts a page that was written.
    pub fn write(&mut self)
        requires { self.old.writes < 2 ^ 64 - 1 }
        ensures { self.new ≡ record self.old { writes = self.old.writes + 1 } }
    {
        self.writes += 1;
    }

    /// Counts a page that was read, and keeps it with its place.
    pub fn read(&mut self, at: At, bytes: &[u8; PAGE_BYTES])
        requires { self.old.reads < 2 ^ 64 - 1 }
        ensures { self.new ≡ record self.old {
          reads = self.old.reads + 1;
          last = Some (record { at = at; bytes = bytes.now });
        } }
    {
        self.reads += 1;
        self.place = Some(at);
        self.page = *bytes;
    }
}
