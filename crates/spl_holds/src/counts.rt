ghost use Rattle.std.specs.Prelude.{◌≤◌};
ghost use Rattle.spl_numbers.specs.Numbers.{one_if};
ghost use Rattle.spl_holds.specs.Grip.{is_read, is_claim, is_write};
ghost use Rattle.spl_holds.specs.Counts.{IsAdded, IsFew};

use crate::grip::Grip;

/// How many reads, claims and writes an actor has.
#[derive(Clone, Copy, Debug, Default, PartialEq, Eq)]
pub struct Counts {
    pub reads: u32,
    pub claims: u32,
    pub writes: u32,
}

impl Counts {
    /// Counts one more grip.
    pub fn add(&mut self, grip: Grip)
        requires { IsFew self.old }
        ensures { IsAdded self.old self.new grip }
    {
        match grip {
            Grip::Free => {}
            Grip::Read => self.reads += 1,
            Grip::Claim => self.claims += 1,
            Grip::Write => self.writes += 1,
        }
    }

    /// Counts one grip fewer.
    pub fn drop(&mut self, grip: Grip)
        requires reads { one_if (is_read grip) ≤ self.old.reads }
        requires claims { one_if (is_claim grip) ≤ self.old.claims }
        requires writes { one_if (is_write grip) ≤ self.old.writes }
        ensures { IsAdded self.new self.old grip }
    {
        match grip {
            Grip::Free => {}
            Grip::Read => self.reads -= 1,
            Grip::Claim => self.claims -= 1,
            Grip::Write => self.writes -= 1,
        }
    }
}
