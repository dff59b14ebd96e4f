ghost use Rattle.std.specs.Prelude.{◌≡◌, ◌==◌};
ghost use Rattle.std.specs.List.{list_any};
ghost use Rattle.spl_port.specs.Calls.{fails};

use std::marker::Model;

/// The numbers of calls, which are counted from 0 in the order in which they are made.
#[derive(Debug, Drop)]
pub struct CallNumbers {
    numbers: Vec<u64>,
}

impl Model for CallNumbers {
    ghost use Rattle.std.specs.Prelude.{List, ℕ};

    ghost Value = { List ℕ };

    ghost view = { λ c. c.numbers.items };
}

impl From<Vec<u64>> for CallNumbers {
    ghost from_gives = { λ numbers calls. calls ≡ numbers.items };

    fn from(numbers: Vec<u64>) -> CallNumbers {
        CallNumbers { numbers }
    }
}

impl CallNumbers {
    /// The numbers as a `Vec`. It takes no memory.
    pub fn into_vec(self) -> Vec<u64>
        ensures { result.items ≡ self }
    {
        self.numbers
    }

    /// Whether the number is one of these.
    pub(crate) fn lists(&self, number: u64) -> bool
        ensures { result ≡ list_any (λ call. call == number) self.now }
    {
        self.numbers.iter().any(|call| *call == number)
    }
}

/// Which calls of a port in memory are to fail.
#[derive(Debug, Drop)]
pub enum Calls {
    /// The calls with these numbers.
    Listed(CallNumbers),
    /// Each read, and no other call.
    Reads,
    Every,
}

impl Calls {
    /// Whether the call with this number, which may be a read, is to fail.
    pub(crate) fn fails(&self, number: u64, is_read: bool) -> bool
        ensures { result ≡ fails self.now number is_read }
    {
        match self {
            Calls::Listed(listed) => listed.lists(number),
            Calls::Reads => is_read,
            Calls::Every => true,
        }
    }
}
