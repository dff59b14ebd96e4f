//! What a page says of a key on the path down. Only a message is copied.
ghost use Rattle.std.specs.Prelude.{◌≡◌, ◌^◌, ◌-◌, ◌<◌, true, IfOk, IfSome};
ghost use Rattle.spl_page.specs.AnyPage.{shown_of};
ghost use Rattle.spl_branch.specs.Visiting.{child_in, message_on, start_on};

use spl_message::{Key, Message, NoMemory};
use spl_page::AnyPage;
use std::alloc::Global;

/// The page where the search for the key goes on. There is none below a leaf page, nor if all children begin above the
/// key.
pub(crate) fn child_of(page: &AnyPage, key: &Key) -> Option<u32>
    ensures child { result ≡ child_in (shown_of page.now) key.now }
    ensures below { IfSome result (λ child. child < (shown_of page.now).at.page) }
{
    // A page is of the kind that its place asks for.
    let _at = page.at();
    match page {
        AnyPage::Leaf(_) => None,
        AnyPage::Index(index) => index.child(key),
    }
}

/// The message of the key, if the path ends at this page.
pub(crate) fn message_of(
    alloc: Global,
    page: &AnyPage,
    key: &Key,
) -> Result<Option<Message>, NoMemory>
    ensures { IfOk result (λ found. found ≡ message_on (shown_of page.now) key.now) }
{
    let _at = page.at();
    match page {
        AnyPage::Leaf(leaf) => match leaf.find(key) {
            Some(message) => Ok(Some(message.copy(alloc)?)),
            None => Ok(None),
        },
        AnyPage::Index(_) => Ok(None),
    }
}

/// The first leaf page that has an entry not below the key, if the path ends at this page.
pub(crate) fn start_of(page: &AnyPage, key: &Key) -> u32
    requires { (shown_of page.now).at.leaf ≡ true → (shown_of page.now).at.page < 2 ^ 32 - 1 }
    ensures { result ≡ start_on (shown_of page.now) key.now }
{
    let number = page.at().page;
    match page {
        AnyPage::Leaf(leaf) => {
            if leaf.seek(key) < leaf.len() {
                number
            } else {
                number + 1
            }
        }
        AnyPage::Index(_) => 0,
    }
}
