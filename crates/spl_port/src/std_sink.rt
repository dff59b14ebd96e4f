ghost use Rattle.std.specs.Prelude.{◌≡◌};

use crate::{Failed, Sink};
use std::io::Write;

/// A writer of std as a sink. It tells nothing of what the writer holds.
#[derive(Drop)]
pub struct StdSink<X> {
    writer: X,
    faults: u64,
    writes: u64,
}

impl<X: Write + Drop> StdSink<X> {
    ghost use Rattle.std.specs.Prelude.{None};
    ghost use Rattle.spl_port.specs.StdSink.{writer_of, output_of};

    /// A sink over this writer, to which nothing was written.
    pub fn new(writer: X) -> StdSink<X>
        ensures writer { writer_of result ≡ writer }
        ensures output { output_of result ≡ record { held = None; faults = 0; writes = 0 } }
    {
        StdSink {
            writer,
            faults: 0,
            writes: 0,
        }
    }
}

impl<X: Write + Drop> Sink for StdSink<X> {
    ghost use Rattle.std.specs.Prelude.{◌≤◌, ◌<◌, IfOk, OnOk, OnErr, length};
    ghost use Rattle.std.specs.Io.KnownBytes.{WriteAppends};
    ghost use Rattle.spl_port.specs.Counts.{raised_count};
    ghost use Rattle.spl_port.specs.StdSink.{writer_of, output_of};

    ghost means = { λ s. output_of s };

    /// One write of the writer. Each of its errors is a fault, and so is a write that takes none of the bytes.
    fn write(&mut self, piece: &[u8]) -> Result<usize, Failed>
        ensures bytes { WriteAppends (X.contents (writer_of self.old)) (X.contents (writer_of self.new)) result piece.now }

        // What each sink keeps.
        ensures bound { IfOk result (λ n. n ≤ length piece.now) }
        ensures some { IfOk result (λ n. 0 < length piece.now → 0 < n) }
        ensures count { (output_of self.new).writes ≡ raised_count (output_of self.old).writes }
        ensures ok_count { OnOk result ((output_of self.new).faults ≡ (output_of self.old).faults) }
        ensures failed { OnErr result ((output_of self.new).faults ≡ raised_count (output_of self.old).faults) }
        ensures never_falls { (output_of self.old).faults ≤ (output_of self.new).faults }
    {
        self.writes = self.writes.saturating_add(1);
        match self.writer.write(piece) {
            Ok(taken) if taken > 0 || piece.is_empty() => Ok(taken),
            _ => {
                self.faults = self.faults.saturating_add(1);
                Err(Failed)
            }
        }
    }
}
