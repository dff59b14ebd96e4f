ghost use Rattle.std.specs.Prelude.{◌≡◌, ◌<◌, slice_get, slice_set, Some, OnOk, OnErr};
ghost use Rattle.spl_base.specs.declared.TheConstants.{ACTORS};
ghost use Rattle.spl_holds.specs.Latch.{IsLatched, nobody, writer_of, claimant_of, first_reader_of, refused_by};

use crate::grip::Grip;
use crate::held::Held;
use spl_base::ACTORS;
use std::marker::Model;

/// The grips on one node. In a clause it is their list, by the actors' numbers.
#[derive(Debug, Drop)]
pub struct Latch {
    /// The bit of each actor that reads.
    readers: u32,
    owner: Owner,
}

/// Who alone may come to write.
#[derive(Debug, Drop)]
enum Owner {
    Nobody,
    Claimant { actor: u32 },
    Writer { actor: u32 },
}

impl Model for Latch {
    ghost use Rattle.std.specs.Prelude.{List};
    ghost use Rattle.spl_holds.specs.declared.grip.Grip.{Grip};
    ghost use Rattle.spl_holds.specs.Word.{grips_in, IsSound};

    ghost Value = { List Grip };

    ghost view = { λ l. grips_in l.readers l.owner };

    ghost invariant = { λ l. IsSound l.readers l.owner };
}

impl Owner {
    ghost use Rattle.spl_holds.specs.Word.{owner_of};

    fn actor(&self) -> Option<u32>
        ensures { result ≡ owner_of self.now }
    {
        match self {
            Owner::Nobody => None,
            Owner::Claimant { actor } | Owner::Writer { actor } => Some(*actor),
        }
    }
}

impl Latch {
    /// No grips.
    pub fn new() -> Latch
        ensures nobody { result ≡ nobody }
        ensures latched { IsLatched result }
    {
        Latch {
            readers: 0,
            owner: Owner::Nobody,
        }
    }

    /// The actor's grip.
    pub fn grip(&self, actor: u32) -> Grip
        requires { actor < ACTORS }
        ensures { slice_get self.now actor ≡ Some result }
    {
        match self.owner {
            Owner::Claimant { actor: owner } if owner == actor => Grip::Claim,
            Owner::Writer { actor: owner } if owner == actor => Grip::Write,
            _ if (self.readers >> actor) & 1 == 1 => Grip::Read,
            _ => Grip::Free,
        }
    }

    /// The actor that writes.
    pub fn writer(&self) -> Option<u32>
        ensures { result ≡ writer_of self.now }
    {
        match self.owner {
            Owner::Writer { actor } => Some(actor),
            _ => None,
        }
    }

    /// The actor that has a claim or a write.
    pub fn claimant(&self) -> Option<u32>
        ensures { result ≡ claimant_of self.now }
    {
        self.owner.actor()
    }

    /// The lowest-numbered actor that reads.
    pub fn first_reader(&self) -> Option<u32>
        ensures { result ≡ first_reader_of self.now }
    {
        if self.readers == 0 {
            return None;
        }
        Some(self.readers.trailing_zeros())
    }

    /// Lets the actor read, unless another actor writes.
    pub fn read(&mut self, actor: u32) -> Result<(), Held>
        requires known { actor < ACTORS }
        requires free { slice_get self.old actor ≡ Some Grip.Free }
        ensures answer { result ≡ refused_by (writer_of self.old) }
        ensures ok { OnOk result (self.new ≡ slice_set self.old actor Grip.Read) }
        ensures err { OnErr result (self.new ≡ self.old) }
        ensures latched { IsLatched self.new }
    {
        if let Owner::Writer { actor: by } = self.owner {
            return Err(Held { by });
        }
        self.readers |= 1 << actor;
        Ok(())
    }

    /// Lets the actor claim, unless another actor claims or writes.
    pub fn claim(&mut self, actor: u32) -> Result<(), Held>
        requires known { actor < ACTORS }
        requires free { slice_get self.old actor ≡ Some Grip.Free }
        ensures answer { result ≡ refused_by (claimant_of self.old) }
        ensures ok { OnOk result (self.new ≡ slice_set self.old actor Grip.Claim) }
        ensures err { OnErr result (self.new ≡ self.old) }
        ensures latched { IsLatched self.new }
    {
        if let Some(by) = self.owner.actor() {
            return Err(Held { by });
        }
        self.owner = Owner::Claimant { actor };
        Ok(())
    }

    /// Makes the actor's claim a write, unless another actor reads.
    pub fn lock(&mut self, actor: u32) -> Result<(), Held>
        requires known { actor < ACTORS }
        requires claimed { slice_get self.old actor ≡ Some Grip.Claim }
        ensures answer { result ≡ refused_by (first_reader_of self.old) }
        ensures ok { OnOk result (self.new ≡ slice_set self.old actor Grip.Write) }
        ensures err { OnErr result (self.new ≡ self.old) }
        ensures latched { IsLatched self.new }
    {
        if self.readers != 0 {
            return Err(Held {
                by: self.readers.trailing_zeros(),
            });
        }
        self.owner = Owner::Writer { actor };
        Ok(())
    }

    /// Ends the actor's grip, if it has one.
    pub fn leave(&mut self, actor: u32)
        requires { actor < ACTORS }
        ensures left { self.new ≡ slice_set self.old actor Grip.Free }
        ensures latched { IsLatched self.new }
    {
        self.readers &= !(1 << actor);
        if self.owner.actor() == Some(actor) {
            self.owner = Owner::Nobody;
        }
    }
}
