//! Values with their weights and depths, so that values made of them need not be measured again.

ghost use Rattle.std.specs.Prelude.{◌≡◌, ◌-◌, ◌^◌, ◌≤◌, min, true};
ghost use Rattle.ag_value.specs.Measure.{depth_of, max_value_depth, max_weight, weight_of};
ghost use Rattle.ag_value.specs.Well.{IsWell, is_item};
ghost use Rattle.ag_value.specs.operations.Fitting.{fit};

use ag_value::{ErrorCode, MAX_VALUE_DEPTH, MAX_WEIGHT, Value, depth, weight};
use std::marker::Model;

/// The weight of a number: the length of its encoding in bytes.
const NUMBER_WEIGHT: u64 = 9;

/// A well value, with its weight and its depth.
#[derive(Drop)]
pub struct Measured {
    value: Value,
    weight: u64,
    depth: u32,
}

impl Model for Measured {
    ghost use Rattle.std.specs.Coded.{codes};
    ghost use Rattle.ag_value.specs.declared.value.Value.{Value as AttributeValue};
    // what the prover knows of the Rust type `Value`; only `coded` uses it
    ghost use Rattle.ag_value.specs.contracts.value.Value as value_row;
    ghost use Rattle.ag_value.specs.operations.Fitting.{IsMeasured};

    ghost Value = { AttributeValue };

    ghost coded = { Prim.hlevel (codes, value_row.the_row.coded) };

    ghost view = { λ m. m.value };

    ghost invariant = { λ m. IsMeasured m.value m.weight m.depth };
}

impl Measured {
    /// Returns a well value with its weight and its depth.
    pub fn new(value: Value) -> Measured
        requires { IsWell value }
        ensures { result ≡ value }
    {
        if let Value::Num(_) = value {
            return Measured {
                value,
                weight: NUMBER_WEIGHT,
                depth: 0,
            };
        }
        let weight = weight(&value);
        let depth = depth(&value);
        Measured {
            value,
            weight,
            depth,
        }
    }

    /// Returns the value, or the error `deep` if its depth exceeds 64, or else the error `big` if
    /// its weight exceeds 1,048,576. The value must be one that a list or table may contain.
    /// `weight` must be the weight of the value, saturated at `u64::MAX`. `depth` must be its
    /// depth, saturated at `u32::MAX`.
    pub fn fit(value: Value, weight: u64, depth: u32) -> Measured
        requires item { is_item value ≡ true }
        requires weighed { weight ≡ min (weight_of value) (2 ^ 64 - 1) }
        requires depth_exact { depth ≡ min (depth_of value) (2 ^ 32 - 1) }
        ensures { result ≡ fit value }
    {
        if depth > MAX_VALUE_DEPTH {
            return Measured::new(Value::Fault(ErrorCode::Deep));
        }
        if weight > MAX_WEIGHT {
            return Measured::new(Value::Fault(ErrorCode::Big));
        }
        Measured {
            value,
            weight,
            depth,
        }
    }

    /// Measures a value, and returns it, or the error `deep` or `big` if it is beyond the limits.
    /// The value must be one that a list or table may contain.
    pub fn weighed(value: Value) -> Measured
        requires { is_item value ≡ true }
        ensures { result ≡ fit value }
    {
        let weight = weight(&value);
        let depth = depth(&value);
        Measured::fit(value, weight, depth)
    }

    /// Lends the value.
    pub fn get(&self) -> &Value
        ensures value { result.now ≡ self.now }
        ensures well { IsWell result.now }
    {
        &self.value
    }

    /// Returns the value.
    pub fn into_value(self) -> Value
        ensures value { result ≡ self }
        ensures well { IsWell result }
    {
        let Measured { value, .. } = self;
        value
    }

    /// Returns the weight of the value, in bytes.
    pub fn weight(&self) -> u64
        ensures value { result ≡ weight_of self.now }
        ensures light { result ≤ max_weight }
    {
        self.weight
    }

    /// Returns the depth of the value.
    pub fn depth(&self) -> u32
        ensures value { result ≡ depth_of self.now }
        ensures shallow { result ≤ max_value_depth }
    {
        self.depth
    }
}
