//! How a table is filled: run behind run, in the order of their homes.
ghost use Rattle.std.specs.Prelude.{◌≡◌, ◌≢◌, ℕ, true, false, ◌+◌, ◌/◌, ◌^◌, ◌≤◌, ◌<◌, ◌↔◌, max, length, All};
ghost use Rattle.spl_quotient.specs.Filling.{IsFilled, IsInTurn, Gains, HasPrint};
ghost use Rattle.spl_quotient.specs.Slot.{blank};
ghost use Rattle.spl_quotient.specs.Table.{has, IsLaid};

use crate::slot::Slot;
use crate::table::{Table, number_of};

/// Lays the fingerprints into an empty table: first those from the place `first` on, and then those before it.
pub(crate) fn lay(table: &mut Table, prints: &[u64], first: usize)
    requires empty { All (λ slot. slot ≡ blank) table.old.slots }
    requires numbers { All (λ print. print / 2 ^ 12 < length table.old.slots) prints.now }
    requires count { length prints.now ≤ length table.old.slots }
    requires first { 0 < length prints.now → first < length prints.now }
    requires turn { IsInTurn prints.now first table.old.origin (length table.old.slots) }
    ensures laid { IsLaid table.new.slots }
    ensures has { (h r : ℕ) → (has table.new.slots h r ≡ true)
        ↔ HasPrint prints.now first table.old.origin (length table.old.slots) (length prints.now) h r }
    ensures origin { table.new.origin ≡ table.old.origin }
    ensures len { length table.new.slots ≡ length table.old.slots }
{
    let mut next = 0;
    let mut last = 0;
    for i in 0..prints.len() {
        let print = prints[number_of(first, i, prints.len())];
        let home = table.position_of((print / 4096) as usize);
        next = lay_one(table, next, last, home, (print % 4096) as u16);
        last = home;
    }
}

/// Lays a remainder behind all that is laid, or at its home where that lies further on, and gives the next position.
/// `last` is the home of the run before.
fn lay_one(table: &mut Table, next: usize, last: usize, home: usize, remainder: u16) -> usize
    requires filled { IsFilled table.old.slots next last }
    requires order { 0 < next → last ≤ home }
    requires room { next < length table.old.slots }
    requires within { home < length table.old.slots }
    requires remainder { remainder < 2 ^ 12 }
    ensures next { result ≡ max next home + 1 }
    ensures filled { IsFilled table.new.slots result home }
    ensures gains { Gains table.old.slots table.new.slots home remainder }
    ensures origin { table.new.origin ≡ table.old.origin }
    ensures len { length table.new.slots ≡ length table.old.slots }
{
    let place = next.max(home);
    let slot = table.slot_at(home);
    table.put(home, slot.occupied());
    let continuation = continues(next, last, home);
    table.put(
        place,
        Slot::new(remainder, home == place, continuation, home < place),
    );
    place + 1
}

/// Whether the home is that of the run before, if there is one.
fn continues(next: usize, last: usize, home: usize) -> bool
    ensures yes { result ≡ true → (0 < next) × (home ≡ last) }
    ensures no { result ≡ false → 0 < next → home ≢ last }
{
    next > 0 && home == last
}
