ghost use Rattle.std.specs.Prelude.{◌≡◌, ◌<◌, ◌≤◌, ◌+◌, ◌↔◌, ℕ, length, slice_get, slice_index, slice_set, take, replicate, true, false, Some, IsTrue, IsNone, IfSome, IfOk};
ghost use Rattle.spl_numbers.specs.Numbers.{has, size_of, times, one_if, ListsEach};

use crate::bits::{clear_bit, has_bit, set_bit};
use spl_base::NoMemory;
use std::alloc::Global;
use std::marker::Model;

/// A set has at most the numbers below this one.
pub const LIMIT: u32 = 65_536;

/// Level above level, a bit says which words of the level below are not 0: one word for all.
const WORDS: usize = 16;

/// A set of numbers below a limit. In a clause it is a list that says of each number whether it is
/// in the set.
///
/// Only `new` takes memory, about one bit a number. `is_listed_by` takes as many steps as the list
/// is long, and each other call the same few, however many numbers there are.
#[derive(Debug, Drop)]
pub struct Numbers {
    limit: u32,
    count: u32,
    /// A bit for each number.
    members: Vec<u64>,
    /// A bit for each word of `members` that is not 0.
    words: Vec<u64>,
    /// A bit for each word of `words` that is not 0.
    groups: Vec<u64>,
}

impl Model for Numbers {
    ghost use Rattle.std.specs.Prelude.{List, Bool};
    ghost use Rattle.spl_numbers.specs.Levels.{members_in, AreLevels};

    ghost Value = { List Bool };

    ghost view = { λ n. members_in n.members.items n.limit };

    ghost invariant = { λ n. AreLevels n.members.items n.words.items n.groups.items n.limit n.count };
}

impl Numbers {
    /// An empty set of numbers below the limit.
    pub fn new(alloc: Global, limit: u32) -> Result<Numbers, NoMemory>
        requires { limit ≤ LIMIT }
        ensures { IfOk result (λ numbers. numbers ≡ replicate limit false) }
    {
        let members = vec![in alloc; 0; limit as usize / 64 + 1]?;
        let words = vec![in alloc; 0; WORDS]?;
        let groups = vec![in alloc; 0; 1]?;
        Ok(Numbers {
            limit,
            count: 0,
            members,
            words,
            groups,
        })
    }

    /// The limit: all numbers of the set are below it.
    pub fn limit(&self) -> u32
        ensures { result ≡ length self.now }
    {
        self.limit
    }

    /// How many numbers the set has.
    pub fn count(&self) -> u32
        ensures { result ≡ size_of self.now }
    {
        self.count
    }

    /// Whether the number is in the set.
    pub fn has(&self, number: u32) -> bool
        ensures { result ≡ has self.now number }
    {
        number < self.limit && has_bit(&self.members, number as usize)
    }

    /// A number of the set. Which one is unspecified.
    pub fn any(&self) -> Option<u32>
        ensures found { IfSome result (λ number. slice_get self.now number ≡ Some true) }
        ensures none { IsNone result ↔ (size_of self.now ≡ 0) }
    {
        let top = self.groups[0];
        if top == 0 {
            return None;
        }
        let group = top.trailing_zeros() as usize;
        let word = group * 64 + self.words[group].trailing_zeros() as usize;
        let number = word * 64 + self.members[word].trailing_zeros() as usize;
        Some(number as u32)
    }

    /// Adds a number.
    pub fn insert(&mut self, number: u32)
        requires { slice_get self.old number ≡ Some false }
        ensures { self.new ≡ slice_set self.old number true }
    {
        let at = number as usize;
        set_bit(&mut self.members, at);
        set_bit(&mut self.words, at / 64);
        set_bit(&mut self.groups, at / 64 / 64);
        self.count += 1;
    }

    /// Removes a number.
    pub fn remove(&mut self, number: u32)
        requires { slice_get self.old number ≡ Some true }
        ensures { self.new ≡ slice_set self.old number false }
    {
        let at = number as usize;
        self.count -= 1;
        if clear_bit(&mut self.members, at) && clear_bit(&mut self.words, at / 64) {
            clear_bit(&mut self.groups, at / 64 / 64);
        }
    }

    /// Whether the list has each number of the set once, and no other.
    pub fn is_listed_by(&mut self, numbers: &[u32]) -> bool
        ensures answer { IsTrue result ↔ ListsEach numbers.now self.old }
        ensures unchanged { self.new ≡ self.old }
    {
        // What was seen is taken out of the set meanwhile, so that a second time is noticed.
        let seen = self.take_out(numbers);
        let all = seen == numbers.len() && self.count == 0;
        self.put_back(&numbers[..seen]);
        all
    }

    /// Removes the numbers in turn, up to the first that is not in the set, and gives its index.
    fn take_out(&mut self, numbers: &[u32]) -> usize
        ensures within { result ≤ length numbers.now }
        ensures limit { length self.new ≡ length self.old }
        ensures taken { (n : ℕ) → times (take result numbers.now) n + one_if (has self.new n) ≡ one_if (has self.old n) }
        ensures next { result < length numbers.now → has self.new (slice_index numbers.now result) ≡ false }
    {
        for (seen, number) in numbers.iter().enumerate() {
            if !self.has(*number) {
                return seen;
            }
            self.remove(*number);
        }
        numbers.len()
    }

    /// Adds the numbers, none of which is in the set or twice in the list.
    fn put_back(&mut self, numbers: &[u32])
        requires new { (n : ℕ) → times numbers.now n + one_if (has self.old n) ≤ 1 }
        requires within { (k : ℕ) → k < length numbers.now → slice_index numbers.now k < length self.old }
        ensures limit { length self.new ≡ length self.old }
        ensures added { (n : ℕ) → one_if (has self.new n) ≡ times numbers.now n + one_if (has self.old n) }
    {
        for number in numbers {
            self.insert(*number);
        }
    }
}
