use crate::numbered::{Range, is_pair_of};
use spl_message::{Key, Value};
use spl_port::At;

/// How one scan or more went.
#[derive(Clone, Copy, Debug)]
pub(crate) struct Outcome {
    /// Whether each scan gave the pairs that it should, in order, and no others.
    pub(crate) as_put: bool,
    /// Whether no piece read a page twice.
    pub(crate) once: bool,
    /// The most leaf pages of one branch that a piece read.
    pub(crate) leaves: u32,
    /// The most index pages of one branch that a piece read.
    pub(crate) indexes: u32,
    /// How many pages all pieces read.
    pub(crate) reads: u64,
}

/// How many pages of the kind and branch of this one are among these.
fn alike(reads: &[At], page: At) -> u32 {
    let mut count = 0u32;
    for at in reads {
        if at.branch == page.branch && at.leaf == page.leaf {
            count = count.saturating_add(1);
        }
    }
    count
}

/// How often the page is among these.
fn times(reads: &[At], page: At) -> u32 {
    let mut count = 0u32;
    for at in reads {
        if *at == page {
            count = count.saturating_add(1);
        }
    }
    count
}

/// Whether the pairs are the first ones of the range.
fn are_first(pairs: &[(Key, Value)], range: Range) -> bool {
    let mut number = range.first;
    for (key, value) in pairs {
        if !is_pair_of(key, value, number) {
            return false;
        }
        number = number.saturating_add(1);
    }
    pairs.len() as u64 <= u64::from(range.count)
}

impl Outcome {
    /// No scan was made.
    pub(crate) fn new() -> Outcome {
        Outcome {
            as_put: true,
            once: true,
            leaves: 0,
            indexes: 0,
            reads: 0,
        }
    }

    /// Notes the pages that a piece read.
    fn note_reads(&mut self, reads: &[At]) {
        for page in reads {
            let count = alike(reads, *page);
            if page.leaf {
                self.leaves = self.leaves.max(count);
            } else {
                self.indexes = self.indexes.max(count);
            }
            if times(reads, *page) != 1 {
                self.once = false;
            }
            self.reads = self.reads.saturating_add(1);
        }
    }

    /// Notes a piece at the front of the range. Answers what is left of the range behind it.
    pub(crate) fn note(&mut self, pairs: &[(Key, Value)], reads: &[At], left: Range) -> Range {
        self.note_reads(reads);
        if !are_first(pairs, left) {
            self.as_put = false;
        }
        let given = pairs.len().min(u32::MAX as usize) as u32;
        Range {
            first: left.first.saturating_add(given),
            count: left.count.saturating_sub(given),
        }
    }

    /// Notes that a scan ended with so much left of its range.
    pub(crate) fn note_end(&mut self, left: Range) {
        if left.count > 0 {
            self.as_put = false;
        }
    }
}
