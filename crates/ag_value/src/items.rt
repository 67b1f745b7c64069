//! A vector; contracts see the list of its elements.
ghost use Rattle.std.specs.Prelude.{◌≡◌};

use std::marker::Model;

/// A `Vec`; contracts see only the list of its elements, and not its capacity.
#[derive(Debug, Drop)]
pub struct Items<T> {
    vec: Vec<T>,
}

impl<T> Model for Items<T> {
    ghost use Rattle.std.specs.Prelude.{List};
    ghost use Rattle.std.specs.Coded.{coded_list};

    ghost Value = { List T };

    // for the prover alone: a fact about the type that contracts see, from the same fact about T
    ghost coded = { coded_list T.code };

    ghost view = { λ it. it.vec.items };
}

impl<T> Items<T> {
    /// Makes items of a vector. Takes no memory.
    pub fn from_vec(vec: Vec<T>) -> Items<T>
        ensures { result ≡ vec.items }
    {
        Items { vec }
    }

    /// Lends the items.
    pub fn as_slice(&self) -> &[T]
        ensures { result.now ≡ self.now }
    {
        self.vec.as_slice()
    }

    /// Returns the vector. Takes no memory.
    pub fn into_vec(self) -> Vec<T>
        ensures { result.items ≡ self }
    {
        let Items { vec } = self;
        vec
    }
}
