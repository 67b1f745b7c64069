//! A value beside its encoding, which is also called its spelling.

ghost use Rattle.std.specs.Prelude.{◌≡◌, ◌↔◌, IfOk, IfSome, IsTrue};
ghost use Rattle.ag_value.specs.Spelling.{spelling_of};
ghost use Rattle.ag_value.specs.Well.{IsWell};
ghost use Rattle.ag_carried.specs.Prefixes.{IsPrefix};

use ag_value::{NoMemory, Value, encode};
use std::alloc::Global;
use std::marker::Model;

/// A well value beside the bytes that encode it. Contracts see the value.
#[derive(Drop)]
pub struct Spelled {
    value: Value,
    bytes: Vec<u8>,
}

impl Model for Spelled {
    ghost use Rattle.std.specs.Coded.{codes};
    ghost use Rattle.ag_value.specs.declared.value.Value.{Value as AttributeValue};
    // what the prover knows of the Rust type `Value`; only `coded` uses it
    ghost use Rattle.ag_value.specs.contracts.value.Value as value_row;
    ghost use Rattle.ag_carried.specs.Spelled.{IsSpelled};

    ghost Value = { AttributeValue };

    ghost coded = { Prim.hlevel (codes, value_row.the_row.coded) };

    ghost view = { λ s. s.value };

    ghost invariant = { λ s. IsSpelled s.value s.bytes.items };
}

impl Spelled {
    /// Encodes a value. `weight` is the number of bytes that is reserved for the encoding; the
    /// result is right for any number. Fails with NoMemory.
    pub fn new(alloc: Global, value: Value, weight: u64) -> Result<Spelled, NoMemory>
        requires { IsWell value }
        ensures { IfOk result (λ s. s ≡ value) }
    {
        let mut bytes = Vec::with_capacity(alloc, weight as usize)?;
        encode(&value, &mut bytes)?;
        Ok(Spelled { value, bytes })
    }

    /// Stores a value beside a copy of the bytes that it was decoded from. Fails with NoMemory.
    pub fn from_encoding(alloc: Global, value: Value, encoding: &[u8]) -> Result<Spelled, NoMemory>
        requires well { IsWell value }
        requires encoding { encoding.now ≡ spelling_of value }
        ensures { IfOk result (λ s. s ≡ value) }
    {
        let bytes = encoding.to_vec(alloc)?;
        Ok(Spelled { value, bytes })
    }

    /// Lends the value.
    #[inline(always)]
    pub fn value(&self) -> &Value
        ensures value { result.now ≡ self.now }
        ensures well { IsWell result.now }
    {
        &self.value
    }

    /// Returns the value, without its encoding.
    pub fn into_value(self) -> Value
        ensures { result ≡ self }
    {
        let Spelled { value, .. } = self;
        value
    }

    /// Lends the encoding.
    pub fn bytes(&self) -> &[u8]
        ensures { result.now ≡ spelling_of self.now }
    {
        self.bytes.as_slice()
    }

    /// Returns whether two values are equal, by a comparison of their encodings.
    #[tactic(auto, using(crate::proofs::Encodings::encodings))]
    pub fn same(&self, other: &Spelled) -> bool
        ensures { IsTrue result ↔ (self.now ≡ other.now) }
    {
        self.bytes.as_slice() == other.bytes.as_slice()
    }

    /// Returns the length in bytes of the encoding, if the input begins with this encoding, and
    /// otherwise `None`. Takes no memory.
    pub fn prefix_of(&self, input: &[u8]) -> Option<usize>
        ensures { IfSome result (IsPrefix self.now input.now) }
    {
        let bytes = self.bytes.as_slice();
        let len = bytes.len();
        if len <= input.len() && &input[..len] == bytes {
            return Some(len);
        }
        None
    }
}
