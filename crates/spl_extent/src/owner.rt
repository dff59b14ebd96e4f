/// Who has an extent.
#[derive(Clone, Copy, Debug, PartialEq, Eq, Hash)]
pub enum Owner {
    /// It is free: the next grant may give it.
    Free,
    /// It is granted to an actor, which fills it with the pages of a branch that is not published yet.
    Granted { actor: u32 },
    /// It is held by the published branch with this number.
    Held { branch: u64 },
}
