/// By which rule an update changes the value of its key.
#[derive(Clone, Copy, Debug, PartialEq, Eq)]
pub enum Merge {
    /// Adds the numbers, modulo 2^64.
    Add,
    /// Keeps the greater value by bytes.
    Max,
    /// Appends the operand, and keeps the last 512 bytes.
    Tail,
    /// The rule of the callbacks that the program was given.
    Own,
}

/// What a run stands on.
#[derive(Clone, Copy, Debug, PartialEq, Eq)]
pub struct Setup {
    pub merge: Merge,
    /// How many extents the store has: at most 65,536.
    pub extents: u32,
    /// How many sets the page cache has: 1 to 4,096.
    pub sets: u32,
}

/// What the program is asked to do.
#[derive(Clone, Copy, Debug, PartialEq, Eq)]
pub enum Command {
    /// Runs the script that the input spells.
    Run(Setup),
    /// Runs the script that a seed gives, which has 1 to 500,000 lines.
    Load { setup: Setup, seed: u64, lines: u64 },
}
