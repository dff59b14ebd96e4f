ghost use Rattle.std.specs.Prelude.{◌≡◌};

use crate::history::{KnownOf, OneHistory, SlotOf};
use crate::stands_for::StandsFor;
use atomic_table::Table;
use std::alloc::Global;
use std::snapshot::Snapshot;

/// The word of the history: twice its length, and one more while a turn is made.
pub(crate) const HISTORY: usize = 0;

/// The word of the seats that sleep, or are about to.
pub(crate) const SLEEPERS: usize = 1;

/// The table of a turn.
pub(crate) type TableOf<V> = Table<SlotOf<V>, KnownOf<V>, Snapshot<V>, OneHistory<V>, Global>;

/// A value that is stepped in turn, through seats.
#[derive(Drop)]
pub struct Turn<V: StandsFor> {
    pub(crate) table: TableOf<V>,
    ghost sized: { (table.shared.table_id.words ≡ 2) × (table.shared.table_id.slots ≡ 1) },
}
