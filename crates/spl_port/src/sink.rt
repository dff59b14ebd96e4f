ghost use Rattle.std.specs.Prelude.{◌≡◌, ◌≤◌, ◌<◌, length, take, IfOk, OnOk, OnErr};
ghost use Rattle.spl_port.specs.Bytes.{Takes};
ghost use Rattle.spl_port.specs.Counts.{raised_count};
ghost use Rattle.spl_port.specs.Streams.{Output};

use crate::Failed;

/// Where bytes go.
pub trait Sink: Drop {
    /// The bytes that the sink holds, where it tells them, and the counts of its writes.
    ghost means: { Self → Output };

    /// Takes the first bytes of the piece, and says how many: at least one, where there is one.
    fn write(&mut self, piece: &[u8]) -> Result<usize, Failed>
        ensures bound { IfOk result (λ n. n ≤ length piece.now) }
        ensures some { IfOk result (λ n. 0 < length piece.now → 0 < n) }
        ensures ok { IfOk result (λ n. Takes (means self.old).held (means self.new).held (take n piece.now)) }
        ensures count { (means self.new).writes ≡ raised_count (means self.old).writes }
        ensures ok_count { OnOk result ((means self.new).faults ≡ (means self.old).faults) }

        // Nothing was taken, and the outside failed.
        ensures err { OnErr result ((means self.new).held ≡ (means self.old).held) }
        ensures failed { OnErr result ((means self.new).faults ≡ raised_count (means self.old).faults) }
        ensures never_falls { (means self.old).faults ≤ (means self.new).faults };
}
