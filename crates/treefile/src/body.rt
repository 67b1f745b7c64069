//! The body of a record: its kind, its number and the spellings of its values.

ghost use Rattle.std.specs.Prelude.{◌≡◌, ◌<◌, ◌^◌, ◌⊎◌, ℕ, List, length, IfNone, IfSome, IsSomeAnd};
ghost use Rattle.std.specs.Prelude.{slice_index};
ghost use Rattle.treefile.specs.records.TreeFile.{body_from};
ghost use Rattle.treefile.specs.declared.body.Kind.{Kind};

/// The kind of a record of a tree file.
#[derive(Clone, Copy, Debug, PartialEq, Eq)]
pub enum Kind {
    /// A node of a production; the record's number is that of the production, from 0.
    Node,
    /// A token, which is a leaf of the tree; the record's number is that of its class, from 0.
    Token,
}

impl Kind {
    ghost use Rattle.treefile.specs.records.TreeFile.{kind_byte};

    /// Returns the first byte of a body of this kind.
    pub(crate) fn byte(self) -> u8
        ensures { result ≡ kind_byte self }
    {
        match self {
            Kind::Node => 0,
            Kind::Token => 1,
        }
    }
}

/// Splits a body into its kind, its number and the spellings of its values. Returns `None` if the
/// body has fewer than three bytes or its first byte is neither 0 (a node) nor 1 (a token). The
/// spellings are not checked. Takes no memory.
pub fn split_body(body: &[u8]) -> Option<(Kind, u16, &[u8])>
    // The body has the returned parts,
    ensures fields { IfSome result (λ fields. body.now ≡ body_from fields.0 fields.1 fields.2.now) }
    ensures none { IfNone result ((length body.now < 3) ⊎ (1 < slice_index body.now 0)) }

    // and the parts of a body are returned.
    ensures only { (kind : Kind) (number : ℕ) (spellings : List ℕ) → number < 2 ^ 16 →
        body.now ≡ body_from kind number spellings →
        IsSomeAnd result (λ fields. (fields.0 ≡ kind) × (fields.1 ≡ number)
        × (fields.2.now ≡ spellings)) }
{
    let [kind, high, low, spellings @ ..] = body else {
        return None;
    };
    let number = u16::from_be_bytes([*high, *low]);
    match kind {
        0 => Some((Kind::Node, number, spellings)),
        1 => Some((Kind::Token, number, spellings)),
        _ => None,
    }
}
