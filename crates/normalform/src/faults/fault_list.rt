//! The list of faults that a search fills.
ghost use Rattle.std.specs.Prelude.{◌≡◌, ◌∷◌, [], false, length, OnOk, slice_get};
ghost use Rattle.normalform.specs.faults.FaultList.{after_checks, is_empty, is_full};

use crate::fault::NormalFault;
use ag_value::NoMemory;
use std::alloc::Global;
use std::marker::Model;

/// A list of faults. If only the first one is wanted, the list keeps no other. Contracts see the
/// list of the faults (`items`), and whether only the first one is wanted (`only_first`).
#[derive(Drop)]
pub struct FaultList {
    items: Vec<NormalFault>,
    only_first: bool,
}

impl Model for FaultList {
    ghost use Rattle.normalform.specs.faults.FaultList.{Found};

    ghost Value = { Found };

    ghost view = { λ list. record {
      only_first = list.only_first;
      items = list.items.items;
    } };
}

impl FaultList {
    /// Returns a list of no faults. Takes no memory.
    pub(crate) fn new(alloc: Global, only_first: bool) -> FaultList
        ensures { result ≡ record {
          only_first = only_first;
          items = [];
        } }
    {
        FaultList {
            items: Vec::new(alloc),
            only_first,
        }
    }

    /// Returns whether the list has no fault.
    pub fn is_empty(&self) -> bool
        ensures { result ≡ is_empty self.now.items }
    {
        self.items.is_empty()
    }

    /// Returns the number of faults.
    pub fn len(&self) -> usize
        ensures { result ≡ length self.now.items }
    {
        self.items.len()
    }

    /// Lends the faults.
    pub fn as_slice(&self) -> &[NormalFault]
        ensures { result.now ≡ self.now.items }
    {
        self.items.as_slice()
    }

    /// Returns whether the list keeps no more faults.
    pub(crate) fn is_full(&self) -> bool
        ensures { result ≡ is_full self.now }
    {
        self.only_first && !self.items.is_empty()
    }

    /// Appends a fault, unless the list is full.
    pub(crate) fn push(&mut self, fault: NormalFault) -> Result<(), NoMemory>
        ensures { OnOk result (self.new ≡ after_checks self.old ((fault, false) ∷ [])) }
    {
        if !self.is_full() {
            self.items.push(fault)?;
        }
        Ok(())
    }

    /// Appends the fault of a check that does not hold, unless the list is full.
    #[tactic(auto, using(crate::proofs::Listing::after_none))]
    pub(crate) fn push_unless(&mut self, holds: bool, fault: NormalFault) -> Result<(), NoMemory>
        ensures { OnOk result (self.new ≡ after_checks self.old ((fault, holds) ∷ [])) }
    {
        if !holds {
            self.push(fault)?;
        }
        Ok(())
    }

    /// Returns the first fault, if there is one, and drops the others.
    pub(crate) fn into_first(self) -> Option<NormalFault>
        ensures { result ≡ slice_get self.items 0 }
    {
        let mut items = self.items;
        if items.is_empty() {
            None
        } else {
            Some(items.swap_remove(0))
        }
    }
}
