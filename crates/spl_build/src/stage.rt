/// How far a builder has come.
#[derive(Clone, Copy, Debug, PartialEq, Eq)]
pub enum Stage {
    /// It takes keys.
    Adding,
    /// It takes no more keys, and has pages to write.
    Finishing,
    /// The branch was returned, or there is none.
    Over,
}
