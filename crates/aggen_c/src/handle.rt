//! The handle that a caller in C keeps.

ghost use Rattle.std.specs.Prelude.{◌≡◌, MatchOption, None, Option, Some};
ghost use Rattle.ag_grammar.specs.grammars.AttributeGrammar.{Grammar as Plain};
ghost use Rattle.aggen_c.specs.Holding.{grammar_code, holds};

use crate::raw_box::RawBox;
use aggen::Translator;
use std::alloc::Global;
use std::marker::Model;
use std::mem;

/// A translator on the heap, or none. C sees one pointer; it is null in a handle without a
/// translator. Contracts see the translator's grammar.
#[repr(C)]
pub struct Handle {
    /// The translator, or null.
    at: *mut u8,
    /// The allocator of the translator. A value of its type has no bytes, so C sees the pointer
    /// alone.
    alloc: Global,
    // for proofs: the grammar of the translator, or `None`; only proofs use what follows `by`
    ghost value: { Option Plain } by { grammar_code },
}

impl Model for Handle {
    ghost also_owns = { λ h. holds h.alloc h.at h.value };
}

impl Handle {
    /// Returns a handle without a translator.
    pub fn empty(alloc: Global) -> Handle
        ensures { result.value ≡ None }
    {
        Handle {
            at: std::ptr::null_mut(),
            alloc,
        }
    }

    /// Returns the handle of a translator.
    fn from_raw_box(translator: RawBox<Translator, Global>) -> Handle
        ensures { result.value ≡ Some translator.value }
    {
        let RawBox { ptr, alloc } = translator;
        Handle {
            at: ptr as *mut u8,
            alloc,
        }
    }

    /// Returns the translator of the handle as a raw box, if the handle has one.
    fn into_raw_box(self) -> Option<RawBox<Translator, Global>>
        ensures { MatchOption result (self.value ≡ None) (λ t. self.value ≡ Some t.value) }
    {
        let Handle { at, alloc } = self;
        if at.is_null() {
            None
        } else {
            Some(RawBox {
                ptr: at as *mut Translator,
                alloc,
            })
        }
    }

    /// Takes the translator out of the handle, if it has one. `alloc` is for the empty handle that
    /// is left in its place.
    pub fn take(&mut self, alloc: Global) -> Option<Box<Translator>>
        ensures emptied { self.new.value ≡ None }
        ensures taken { MatchOption result
            (self.old.value ≡ None) (λ t. self.old.value ≡ Some t.value) }
    {
        let handle = mem::replace(self, Handle::empty(alloc));
        match handle.into_raw_box() {
            Some(translator) => Some(translator.into_box()),
            None => None,
        }
    }

    /// Puts a translator into the handle. Frees the translator that the handle had.
    pub fn put(&mut self, translator: Box<Translator>)
        ensures { self.new.value ≡ Some translator.value }
    {
        *self = Handle::from_raw_box(RawBox::from_box(translator));
    }

    /// Frees the translator, if the handle has one. `alloc` is as in `take`.
    pub fn clear(&mut self, alloc: Global)
        ensures { self.new.value ≡ None }
    {
        *self = Handle::empty(alloc);
    }
}

impl Drop for Handle {
    fn drop(self) {
        if let Some(translator) = self.into_raw_box() {
            drop(translator.into_box());
        }
    }
}
