ghost use Rattle.std.specs.Prelude.{◌≡◌, ◌≤◌, ◌<◌, [], length, take, IfOk, IfSome, OnOk, OnErr};
ghost use Rattle.spl_port.specs.Bytes.{Gives};
ghost use Rattle.spl_port.specs.Counts.{raised_count};
ghost use Rattle.spl_port.specs.Streams.{Input, met_end, late_after};

use crate::Failed;

/// Where bytes come from.
pub trait Source: Drop {
    /// The bytes that are left to read, where the source tells them, and the counts of its reads.
    ghost means: { Self → Input };

    /// Reads some bytes to the front of `into`, and says how many. None, where there was room for one,
    /// is the end of the input.
    fn read(&mut self, into: &mut [u8]) -> Result<usize, Failed>
        ensures bound { IfOk result (λ n. n ≤ length into.old) }
        ensures ok { IfOk result (λ n. Gives (means self.old).left (means self.new).left (take n into.new)) }
        ensures end { 0 < length into.old → result ≡ Ok 0 → IfSome (means self.new).left (λ rest. rest ≡ []) }
        ensures late { (means self.new).late ≡ late_after (means self.old).late (met_end (length into.old) result) }
        ensures ok_count { OnOk result ((means self.new).faults ≡ (means self.old).faults) }

        // Nothing was given, and the outside failed.
        ensures err { OnErr result ((means self.new).left ≡ (means self.old).left) }
        ensures failed { OnErr result ((means self.new).faults ≡ raised_count (means self.old).faults) }
        ensures never_falls { (means self.old).faults ≤ (means self.new).faults };
}

/// Counts a read, which met the end or not, where one before it had met the end.
pub(crate) fn count_late(late: Option<u64>, met_end: bool) -> Option<u64>
    ensures { result ≡ late_after late met_end }
{
    match late {
        Some(reads) => Some(reads.saturating_add(1)),
        None if met_end => Some(0),
        None => None,
    }
}
