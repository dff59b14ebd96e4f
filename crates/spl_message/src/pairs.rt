ghost use Rattle.std.specs.Prelude.{◌≡◌, nat_eq};
ghost use Rattle.std.specs.Cmp.{partial_equiv_from_equiv};
ghost use Rattle.std.specs.Cmp.Lexicographic.{pointwise, lists_equiv, nat_list_eq_equiv};
ghost use Rattle.spl_message.specs.Pairs.{AreInOrder, same_pair, same_pair-equiv};

use crate::key::Key;
use crate::value::Value;
use std::marker::Model;

/// Keys with their values, in the order of the keys. A clause sees the list of the pairs.
#[derive(Debug, Drop)]
pub struct Pairs {
    pairs: Vec<(Key, Value)>,
}

impl Model for Pairs {
    ghost use Rattle.std.specs.Prelude.{ℕ, List};
    ghost use Rattle.spl_message.specs.Pairs.{AreInOrder};

    ghost Value = { List (List ℕ × List ℕ) };

    ghost view = { λ p. p.pairs.items };

    ghost invariant = { λ p. AreInOrder p.pairs.items };
}

impl Pairs {
    /// Wraps these pairs. It takes no memory.
    pub fn of(pairs: Vec<(Key, Value)>) -> Pairs
        requires { AreInOrder pairs.items }
        ensures { result ≡ pairs.items }
    {
        Pairs { pairs }
    }

    /// The pairs, in the order of their keys.
    pub fn as_slice(&self) -> &[(Key, Value)]
        ensures value { result.now ≡ self.now }
        ensures in_order { AreInOrder self.now }
    {
        self.pairs.as_slice()
    }

    /// The pairs as a `Vec`. It takes no memory.
    pub fn into_vec(self) -> Vec<(Key, Value)>
        ensures value { result.items ≡ self }
        ensures in_order { AreInOrder self }
    {
        let Pairs { pairs } = self;
        pairs
    }
}

impl PartialEq for Pairs {
    ghost eq = { pointwise same_pair };

    ghost laws = { partial_equiv_from_equiv (lists_equiv same_pair-equiv) };

    fn eq(&self, other: &Pairs) -> bool {
        self.pairs == other.pairs
    }
}

impl Eq for Pairs {
    ghost laws = { lists_equiv same_pair-equiv };
}
