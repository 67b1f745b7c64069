//! Occurrences of attributes in an expression.

use ag_value::Text;
use std::alloc::Global;
use std::default::MadeWith;

/// An occurrence of an attribute in the text of a rule: in its expression, or as its target.
#[derive(Debug, Drop)]
pub struct Occ {
    /// The place: 0 is the left side of a production; 1, 2, .. are its children.
    pub place: u16,
    /// The attribute's name.
    pub attr: Text,
    /// The offset in bytes of the `$`, from the beginning of the text. In an expression, it is the
    /// offset of the first occurrence of this pair of place and name.
    pub at: usize,
}

/// Makes the value with which a `SmallVec` fills its unused slots.
impl MadeWith<Global> for Occ {
    fn made_with(alloc: Global) -> Occ {
        Occ {
            place: 0,
            attr: Text::from_string(String::new(alloc)),
            at: 0,
        }
    }
}
