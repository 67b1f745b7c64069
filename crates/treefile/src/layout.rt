//! The versions of tree files, and the layout of their headers and frames.

ghost use Rattle.std.specs.Prelude.{◌≡◌};
ghost use Rattle.treefile.specs.framing.Ending.{greatest_body};
ghost use Rattle.treefile.specs.records.TreeFile.{header, version_of, version_two};

use ag_grammar::limits::{MAX_ATTRIBUTES, MAX_CHILDREN};
use ag_value::MAX_WEIGHT;

/// The number of bytes of a header: four of the magic, and two of the pass number.
pub const HEADER_BYTES: u64 = 6;

/// The number of bytes of the length that follows a body.
pub const LENGTH_BYTES: u64 = 4;

/// The least number of bytes of a body: one of the kind, and two of the number.
pub const LEAST_BODY: u64 = 3;

/// The greatest number of values of a record, 272: at most `MAX_ATTRIBUTES` of its own, and at most
/// `MAX_ATTRIBUTES` copies for each of at most `MAX_CHILDREN` children.
pub const MAX_VALUES: usize = MAX_ATTRIBUTES + MAX_CHILDREN * MAX_ATTRIBUTES;

/// The greatest number of bytes of a body of version 1: the least body, and a value of the greatest
/// weight for each attribute that a symbol may have.
const GREATEST_OLD_BODY: u64 = LEAST_BODY + MAX_ATTRIBUTES as u64 * MAX_WEIGHT;

/// The greatest number of bytes of a body of version 2: the least body, and `MAX_VALUES` values of
/// the greatest weight.
const GREATEST_BODY: u64 = LEAST_BODY + MAX_VALUES as u64 * MAX_WEIGHT;

/// A version of tree files.
#[derive(Clone, Copy, PartialEq, Eq)]
pub enum FileVersion {
    /// Version 1: its files begin with `AGT1`, and the record of a node has only its own values.
    One,
    /// Version 2: its files begin with `AGT2`, and the record of a node has copies of its
    /// children's synthesized values after its own values. The copy of a child that is a token is
    /// its `lex`. All files that are written have this version.
    Two,
}

impl FileVersion {
    /// Returns the first four bytes of the files of this version.
    pub(crate) fn magic(self) -> [u8; 4]
        ensures { result ≡ (version_of self).magic }
    {
        match self {
            FileVersion::One => [b'A', b'G', b'T', b'1'],
            FileVersion::Two => [b'A', b'G', b'T', b'2'],
        }
    }

    /// Returns the greatest number of bytes of a body: 16,777,219 in version 1, 285,212,675 in
    /// version 2.
    pub fn greatest_body(self) -> u64
        ensures { result ≡ greatest_body (version_of self) }
    {
        match self {
            FileVersion::One => GREATEST_OLD_BODY,
            FileVersion::Two => GREATEST_BODY,
        }
    }
}

/// Returns the header of the file of a pass, in version 2.
pub(crate) fn header_of(pass: u16) -> [u8; 6]
    ensures { result ≡ header version_two pass }
{
    let [first, second, third, fourth] = FileVersion::Two.magic();
    let [high, low] = pass.to_be_bytes();
    [first, second, third, fourth, high, low]
}
