//! The references of a new node to the branches of its bundles.
ghost use Rattle.std.specs.Prelude.{ℕ, ◌<◌, ◌≤◌, ◌^◌};
ghost use Rattle.spl_bundle.specs.Numbered.{names};
ghost use Rattle.spl_refs.specs.Refs.{count_at};
ghost use Rattle.spl_trunk.specs.Tree.{times};
ghost use Rattle.spl_split.specs.Naming.{AreNamed, HaveRoom, NamedMore};

use spl_bundle::Bundles;
use spl_message::Content;
use spl_refs::Refs;

/// Adds a reference to each branch of the bundles.
pub(crate) fn name_again<B: Content>(refs: &mut Refs<B>, lists: &Bundles)
    requires stand { AreNamed refs.old (names lists.now) }
    requires few { (number : ℕ) → count_at refs.old number < 2 ^ 62 }
    ensures named { NamedMore refs.old refs.new (names lists.now) }
    ensures few { (number : ℕ) → times number (names lists.now) ≤ 768 }
{
    for number in lists.first()..lists.next() {
        name_list(refs, lists.list(number));
    }
}

/// Adds a reference to each branch of the list.
fn name_list<B: Content>(refs: &mut Refs<B>, list: &[u64])
    requires stand { AreNamed refs.old list.now }
    requires room { HaveRoom refs.old list.now }
    ensures { NamedMore refs.old refs.new list.now }
{
    for number in list {
        refs.hold(*number);
    }
}
