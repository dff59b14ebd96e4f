ghost use Rattle.std.specs.Prelude.{◌≡◌, ◌≤◌, ◌<◌, ◌↔◌, ◌++◌, ◌-◌, [], IsTrue, IsErr, IfOk, OnOk, OnErr, true, false, length, take, min};
ghost use Rattle.spl_port.specs.Bytes.{Takes};
ghost use Rattle.spl_port.specs.Counts.{raised_count};

use crate::schedule::Schedule;
use crate::{Failed, Sink};
use spl_base::NoMemory;
use std::alloc::Global;
use std::marker::Model;

/// Bytes in memory as a sink, of which chosen writes fail. `new` allocates all its memory.
///
/// In a clause it is the bytes that it holds, the room that is left, and the plan of its writes, which
/// are its calls.
#[derive(Debug, Drop)]
pub struct MemSink {
    bytes: Vec<u8>,
    room: usize,
    schedule: Schedule,
}

impl Model for MemSink {
    ghost use Rattle.std.specs.Prelude.{◌+◌, ◌≤◌, vec_len, vec_capacity};
    ghost use Rattle.spl_port.specs.MemSink.{SinkState};

    ghost Value = { SinkState };

    ghost view = { λ s. record { held = s.bytes.items; room = s.room; plan = s.schedule } };

    ghost invariant = { λ s. vec_len s.bytes + s.room ≤ vec_capacity s.bytes };
}

impl MemSink {
    ghost use Rattle.spl_port.specs.Plan.{plan_of};

    /// A sink with room for so many bytes, whose writes with these numbers fail.
    pub fn new(alloc: Global, room: u64, failing: Vec<u64>) -> Result<MemSink, NoMemory>
        ensures { IfOk result (λ sink. sink ≡ record { held = []; room = room; plan = plan_of failing.items }) }
    {
        let room = room as usize;
        Ok(MemSink {
            bytes: Vec::with_capacity(alloc, room)?,
            room,
            schedule: Schedule::new(failing),
        })
    }

    /// What was written, from the first byte on.
    pub fn bytes(&self) -> &[u8]
        ensures { result.now ≡ self.now.held }
    {
        &self.bytes
    }
}

impl Sink for MemSink {
    ghost use Rattle.spl_port.specs.Plan.{after_call};
    ghost use Rattle.spl_port.specs.MemSink.{refuses, output_of};

    ghost means = { λ s. output_of s };

    /// Takes the first bytes that fit. It is a fault if there are bytes and none fits.
    fn write(&mut self, piece: &[u8]) -> Result<usize, Failed>
        ensures refused { IsErr result ↔ IsTrue (refuses self.old piece.now) }
        ensures taken { IfOk result (λ n. n ≡ min (length piece.now) self.old.room) }
        ensures after_ok { IfOk result (λ n. self.new ≡ record {
          held = self.old.held ++ take n piece.now;
          room = self.old.room - n;
          plan = after_call self.old.plan false;
        }) }
        ensures after_err { OnErr result (self.new ≡ record self.old { plan = after_call self.old.plan true }) }

        // What each sink keeps.
        ensures bound { IfOk result (λ n. n ≤ length piece.now) }
        ensures some { IfOk result (λ n. 0 < length piece.now → 0 < n) }
        ensures ok { IfOk result (λ n. Takes (output_of self.old).held (output_of self.new).held (take n piece.now)) }
        ensures count { (output_of self.new).writes ≡ raised_count (output_of self.old).writes }
        ensures ok_count { OnOk result ((output_of self.new).faults ≡ (output_of self.old).faults) }
        ensures err { OnErr result ((output_of self.new).held ≡ (output_of self.old).held) }
        ensures failed { OnErr result ((output_of self.new).faults ≡ raised_count (output_of self.old).faults) }
        ensures never_falls { (output_of self.old).faults ≤ (output_of self.new).faults }
    {
        let taken = piece.len().min(self.room);
        let refused = self.schedule.fails() || (taken == 0 && !piece.is_empty());
        self.schedule.count(refused);
        if refused {
            return Err(Failed);
        }
        self.bytes.extend_from_slice(&piece[..taken]).unwrap();
        self.room -= taken;
        Ok(taken)
    }
}
