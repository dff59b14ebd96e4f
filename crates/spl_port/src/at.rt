/// How many pages an extent has.
pub const EXTENT_PAGES: u32 = 32;

/// The place of a page, and which kind of page is wanted there.
#[derive(Clone, Copy, Debug, PartialEq, Eq, Hash)]
pub struct At {
    /// The extent of 32 pages, by its number in the file.
    pub extent: u32,
    /// The number of the branch that the page is of.
    pub branch: u64,
    /// The page's number in the branch. Page i lies in the branch's extent number i / 32, at place i % 32.
    pub page: u32,
    /// Whether a leaf page is wanted, and not an index page.
    pub leaf: bool,
}
