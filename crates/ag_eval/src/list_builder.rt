//! A list that is built item by item.

ghost use Rattle.std.specs.Prelude.{◌≡◌, ◌++◌, ◌∷◌, [], None, OnOk};
ghost use Rattle.ag_value.specs.declared.value.Value.TheVariants as value;
ghost use Rattle.ag_value.specs.operations.Arguments.{fault_of};
ghost use Rattle.ag_value.specs.operations.Fitting.{fit};

use crate::measured::Measured;
use ag_value::{Items, NoMemory, Value};
use std::alloc::Global;
use std::marker::Model;

/// Items for a list, with the weight and the depth of the list. The stored weight is saturated at
/// `u64::MAX`, and the stored depth at `u32::MAX`.
#[derive(Drop)]
pub struct ListBuilder {
    items: Vec<Value>,
    weight: u64,
    depth: u32,
}

impl Model for ListBuilder {
    ghost use Rattle.std.specs.Prelude.{List};
    ghost use Rattle.std.specs.Coded.{codes};
    ghost use Rattle.ag_value.specs.declared.value.Value.{Value as AttributeValue};
    // what the prover knows of the Rust type `Value`; only `coded` uses it
    ghost use Rattle.ag_value.specs.contracts.value.Value as value_row;
    ghost use Rattle.ag_value.specs.operations.Fitting.{IsGathered};

    ghost Value = { List AttributeValue };

    ghost coded = { Prim.hlevel (codes, value_row.the_row.coded) };

    ghost view = { λ g. g.items.items };

    ghost invariant = { λ g. IsGathered g.items.items g.weight g.depth };
}

impl ListBuilder {
    /// Makes an empty list of items. Its encoding has 5 bytes, which is its weight, and its depth
    /// is 1. Takes no memory.
    pub fn new(alloc: Global) -> ListBuilder
        ensures { result ≡ [] }
    {
        ListBuilder {
            items: Vec::new(alloc),
            weight: 5,
            depth: 1,
        }
    }

    /// Appends an item. Fails with `NoMemory` if memory is refused.
    pub fn push(&mut self, item: Measured) -> Result<(), NoMemory>
        requires { fault_of item ≡ None }
        ensures { OnOk result (self.new ≡ self.old ++ item ∷ []) }
    {
        let weight = self.weight.saturating_add(item.weight());
        let depth = self.depth.max(item.depth() + 1);
        self.items.push(item.into_value())?;
        self.weight = weight;
        self.depth = depth;
        Ok(())
    }

    /// Returns the list of the items, or the error `deep` or `big` if it is beyond the limits.
    pub fn into_list(self) -> Measured
        ensures { result ≡ fit (value.List self) }
    {
        let ListBuilder {
            items,
            weight,
            depth,
        } = self;
        Measured::fit(Value::List(Items::from_vec(items)), weight, depth)
    }
}
