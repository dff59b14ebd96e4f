use spl_message::Content;
use std::sync::Arc;

/// A branch with its reference count.
#[derive(Drop)]
pub struct Counted<B: Content> {
    pub branch: Arc<B>,
    pub count: u64,
}
