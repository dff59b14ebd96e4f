use std::snapshot::Snapshot;

/// The step that was made last, as proofs see it.
pub struct Last<V, S, R> {
    pub before: Snapshot<V>,
    pub step: Snapshot<S>,
    pub reply: Snapshot<R>,
}

impl<V, S, R> Drop for Last<V, S, R> {
    fn drop(self) {
        let Last {
            before: _,
            step: _,
            reply: _,
        } = self;
    }
}

/// The value of a turn, beside its last step. It has the bytes of the value, and one more.
#[derive(Drop)]
pub struct Guarded<V, S, R> {
    pub value: V,
    pub last: Option<Last<V, S, R>>,
}
