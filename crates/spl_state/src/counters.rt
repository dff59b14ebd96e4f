/// The numbers that only rise, and how many callers still run.
#[derive(Clone, Copy, Debug, PartialEq, Eq)]
pub struct Counters {
    /// How many steps were made, refused ones too.
    pub steps: u64,
    /// How many calls have a place, which is the place of the next one.
    pub places: u64,
    /// The number of the next branch.
    pub branches: u64,
    /// How many callers have not retired.
    pub running: u32,
}
