ghost use Rattle.std.specs.Prelude.{◌≡◌, ◌≤◌, ◌<◌, ◌↔◌, ◌++◌, [], IsTrue, IsErr, IfOk, IfSome, OnOk, OnErr, true, false, length, take, drop, min};
ghost use Rattle.spl_port.specs.Bytes.{Gives};
ghost use Rattle.spl_port.specs.Counts.{raised_count};
ghost use Rattle.spl_port.specs.Streams.{met_end, late_after};

use crate::schedule::Schedule;
use crate::source::count_late;
use crate::{Failed, Source};
use std::marker::Model;

/// Bytes in memory as a source, of which chosen reads fail.
///
/// In a clause it is the bytes that are left, the plan of its reads, which are its calls, and how many of them came
/// after the one that met the end of the bytes, if one did.
#[derive(Debug, Drop)]
pub struct MemSource {
    bytes: Vec<u8>,
    cursor: usize,
    schedule: Schedule,
    late: Option<u64>,
}

impl Model for MemSource {
    ghost use Rattle.std.specs.Prelude.{◌≤◌, drop, vec_len};
    ghost use Rattle.spl_port.specs.MemSource.{SourceState};

    ghost Value = { SourceState };

    ghost view = { λ s. record { left = drop s.cursor s.bytes.items; plan = s.schedule; late = s.late } };

    ghost invariant = { λ s. s.cursor ≤ vec_len s.bytes };
}

impl MemSource {
    ghost use Rattle.std.specs.Prelude.{None};
    ghost use Rattle.spl_port.specs.Plan.{plan_of};

    /// A source that gives these bytes, and whose reads with these numbers fail.
    pub fn new(bytes: Vec<u8>, failing: Vec<u64>) -> MemSource
        ensures { result ≡ record { left = bytes.items; plan = plan_of failing.items; late = None } }
    {
        MemSource {
            bytes,
            cursor: 0,
            schedule: Schedule::new(failing),
            late: None,
        }
    }
}

impl Source for MemSource {
    ghost use Rattle.spl_port.specs.Plan.{fails, after_call};
    ghost use Rattle.spl_port.specs.MemSource.{input_of};

    ghost means = { λ s. input_of s };

    fn read(&mut self, into: &mut [u8]) -> Result<usize, Failed>
        ensures fails { IsErr result ↔ IsTrue (fails self.old.plan) }
        ensures count { IfOk result (λ n. n ≡ min (length into.old) (length self.old.left)) }
        ensures bytes { IfOk result (λ n. into.new ≡ take n self.old.left ++ drop n into.old) }
        ensures after_ok { IfOk result (λ n. self.new ≡ record {
          left = drop n self.old.left;
          plan = after_call self.old.plan false;
          late = late_after self.old.late (met_end (length into.old) result);
        }) }
        ensures after_err { OnErr result (self.new ≡ record self.old { plan = after_call self.old.plan true; late = late_after self.old.late false }) }

        // What each source keeps.
        ensures bound { IfOk result (λ n. n ≤ length into.old) }
        ensures ok { IfOk result (λ n. Gives (input_of self.old).left (input_of self.new).left (take n into.new)) }
        ensures end { 0 < length into.old → result ≡ Ok 0 → IfSome (input_of self.new).left (λ rest. rest ≡ []) }
        ensures late { (input_of self.new).late ≡ late_after (input_of self.old).late (met_end (length into.old) result) }
        ensures ok_count { OnOk result ((input_of self.new).faults ≡ (input_of self.old).faults) }
        ensures err { OnErr result ((input_of self.new).left ≡ (input_of self.old).left) }
        ensures failed { OnErr result ((input_of self.new).faults ≡ raised_count (input_of self.old).faults) }
        ensures never_falls { (input_of self.old).faults ≤ (input_of self.new).faults }
    {
        let fails = self.schedule.fails();
        self.schedule.count(fails);
        if fails {
            self.late = count_late(self.late, false);
            return Err(Failed);
        }
        let rest = &self.bytes[self.cursor..];
        let given = rest.len().min(into.len());
        into[..given].copy_from_slice(&rest[..given]);
        self.cursor += given;
        self.late = count_late(self.late, !into.is_empty() && given == 0);
        Ok(given)
    }
}
