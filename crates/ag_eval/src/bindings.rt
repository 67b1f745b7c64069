//! The values of the names that are bound around a part of an expression.

ghost use Rattle.std.specs.Prelude.{◌≡◌, ◌++◌, ◌∷◌, ◌<◌, [], OnOk, Some, length, slice_get};
ghost use Rattle.ag_eval.specs.Operands.{IsIn, held_value, operand_value};

use crate::operand::{Held, Operand};
use ag_value::NoMemory;
use std::alloc::Global;
use std::marker::Model;

/// The values of the bindings around a part of an expression, the outermost first.
#[derive(Drop)]
pub struct Bindings<'e> {
    held: Vec<Held<'e>>,
}

impl<'e> Model for Bindings<'e> {
    ghost use Rattle.std.specs.Prelude.{List, map};
    ghost use Rattle.std.specs.Coded.{codes};
    ghost use Rattle.ag_value.specs.declared.value.Value.{Value as AttributeValue};
    // what the prover knows of the Rust type `Value`; only `coded` uses it
    ghost use Rattle.ag_value.specs.contracts.value.Value as value_row;
    ghost use Rattle.ag_eval.specs.Operands.{held_value};

    ghost Value = { List AttributeValue };

    ghost coded = { Prim.hlevel (codes, value_row.the_row.coded) };

    ghost view = { λ s. map held_value s.held.items };
}

impl<'e> Bindings<'e> {
    /// Makes an empty list of bindings. Takes no memory.
    pub fn new(alloc: Global) -> Bindings<'e>
        ensures { result ≡ [] }
    {
        Bindings {
            held: Vec::new(alloc),
        }
    }

    /// Lends the value of the binding with this number. The outermost one has the number 0.
    pub fn get(&self, k: usize) -> &Held<'e>
        requires { k < length self.now }
        ensures { slice_get self.now k ≡ Some (held_value result.now) }
    {
        &self.held[k]
    }

    /// Adds an innermost binding. Fails with `NoMemory` if memory is refused.
    pub fn bind(&mut self, held: Held<'e>) -> Result<(), NoMemory>
        ensures { OnOk result (self.new ≡ self.old ++ held_value held.entry ∷ []) }
    {
        self.held.push(held)?;
        Ok(())
    }

    /// Removes the innermost binding. Returns an operand that has, with the remaining bindings, the
    /// value that `operand` had before.
    pub fn unbind(&mut self, operand: Operand<'e>) -> Operand<'e>
        requires within { IsIn self.old operand }
        requires some { 0 < length self.old }
        ensures value { operand_value self.new result ≡ operand_value self.old operand.entry }
        ensures within { IsIn self.new result }
        ensures left { (outer : _) (innermost : _) → self.old ≡ outer ++ innermost ∷ []
            → self.new ≡ outer }
    {
        let Some(innermost) = self.held.pop() else {
            return operand;
        };
        match operand {
            Operand::Held(held) => Operand::Held(held),
            Operand::Bound(k) => {
                if k == self.held.len() {
                    return Operand::Held(innermost);
                }
                Operand::Bound(k)
            }
        }
    }
}
