//! Literals of expressions: numbers and texts.

ghost use Rattle.std.specs.Prelude.{◌≡◌, true};
ghost use Rattle.ag_value.specs.Well.{is_item};
ghost use Rattle.ag_value.specs.declared.value.Value.TheVariants as value;

use ag_value::{Text, Value};
use std::marker::Model;

/// A number or text literal, kept as a `Value`, so that an evaluation can borrow it.
#[derive(Debug, Drop)]
pub struct Literal {
    value: Value,
}

impl Model for Literal {
    ghost use Rattle.std.specs.Prelude.{◌≡◌, true};
    ghost use Rattle.std.specs.Coded.{codes};
    ghost use Rattle.ag_value.specs.Well.{is_item};
    ghost use Rattle.ag_value.specs.declared.value.Value.{Value as AttributeValue};
    ghost use Rattle.ag_value.specs.contracts.value.Value as value_row;

    ghost Value = { AttributeValue };

    ghost coded = { Prim.hlevel (codes, value_row.the_row.coded) };

    ghost view = { λ l. l.value };

    ghost invariant = { λ l. is_item l.value ≡ true };
}

impl Literal {
    /// Makes the literal of a number.
    pub fn number(number: i64) -> Literal
        ensures { result ≡ value.Num number }
    {
        Literal {
            value: Value::Num(number),
        }
    }

    /// Makes the literal of a text.
    #[tactic(auto, using(ag_value::proofs::Layers::items, ag_value::proofs::Utf8::utf8))]
    pub fn text(text: Text) -> Literal
        ensures { result ≡ value.Text text }
    {
        // this call shows the prover that the text is UTF-8
        let _utf8 = text.as_str();
        Literal {
            value: Value::Text(text),
        }
    }

    /// Returns the value.
    pub fn value(&self) -> &Value
        ensures value { result.now ≡ self.now }
        ensures item { is_item result.now ≡ true }
    {
        &self.value
    }
}
