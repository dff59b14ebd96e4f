ghost use Rattle.std.specs.Prelude.{◌≡◌};

use crate::source::count_late;
use crate::{Failed, Source};
use std::io::Read;

/// A reader of std as a source. It tells nothing of what the reader has.
#[derive(Drop)]
pub struct StdSource<X> {
    reader: X,
    faults: u64,
    late: Option<u64>,
}

impl<X: Read + Drop> StdSource<X> {
    ghost use Rattle.std.specs.Prelude.{None};
    ghost use Rattle.spl_port.specs.StdSource.{reader_of, input_of};

    /// A source over this reader, of which nothing was read.
    pub fn new(reader: X) -> StdSource<X>
        ensures reader { reader_of result ≡ reader }
        ensures input { input_of result ≡ record { left = None; faults = 0; late = None } }
    {
        StdSource {
            reader,
            faults: 0,
            late: None,
        }
    }
}

impl<X: Read + Drop> Source for StdSource<X> {
    ghost use Rattle.std.specs.Prelude.{◌≤◌, IfOk, OnOk, OnErr, length};
    ghost use Rattle.std.specs.Io.KnownBytes.{ReadConsumes};
    ghost use Rattle.spl_port.specs.Counts.{raised_count};
    ghost use Rattle.spl_port.specs.Streams.{met_end, late_after};
    ghost use Rattle.spl_port.specs.StdSource.{reader_of, input_of};

    ghost means = { λ s. input_of s };

    /// One read of the reader. Each of its errors is a fault.
    fn read(&mut self, into: &mut [u8]) -> Result<usize, Failed>
        ensures bytes { ReadConsumes (X.remaining (reader_of self.old)) (X.remaining (reader_of self.new)) result into.new }

        // What each source keeps.
        ensures bound { IfOk result (λ n. n ≤ length into.old) }
        ensures late { (input_of self.new).late ≡ late_after (input_of self.old).late (met_end (length into.old) result) }
        ensures ok_count { OnOk result ((input_of self.new).faults ≡ (input_of self.old).faults) }
        ensures failed { OnErr result ((input_of self.new).faults ≡ raised_count (input_of self.old).faults) }
        ensures never_falls { (input_of self.old).faults ≤ (input_of self.new).faults }
    {
        match self.reader.read(into) {
            Ok(given) => {
                self.late = count_late(self.late, !into.is_empty() && given == 0);
                Ok(given)
            }
            Err(_) => {
                self.late = count_late(self.late, false);
                self.faults = self.faults.saturating_add(1);
                Err(Failed)
            }
        }
    }
}
