use std::alloc::Global;

/// What a call of the store works with: the turns of one actor, the device of its thread, the pager that reads it, and
/// the law.
#[derive(Drop)]
pub struct Desk<'a, T, P, G, L> {
    pub alloc: Global,
    pub turns: T,
    pub port: &'a mut P,
    pub pager: &'a G,
    pub law: &'a L,
}
