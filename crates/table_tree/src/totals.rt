//! The totals of the pairs of a table.

ghost use Rattle.std.specs.Prelude.{◌+◌, ◌<◌, ◌^◌, []};
ghost use Rattle.table_tree.specs.Totals.{AreJoined, AreTotals};

/// The totals of some pairs.
#[derive(Clone, Copy)]
pub(crate) struct Totals {
    /// The number of pairs.
    pub pairs: u32,
    /// The number of bytes of their encodings.
    pub bytes: u32,
    /// The greatest depth of their values, 0 if there is no pair.
    pub depth: u32,
}

impl Totals {
    /// Returns the totals of no pairs.
    #[inline(always)]
    pub fn none() -> Totals
        ensures { AreTotals [] result }
    {
        Totals {
            pairs: 0,
            bytes: 0,
            depth: 0,
        }
    }

    /// Returns the totals of three parts together: of the pairs before a pair, of that pair and of
    /// the pairs after it.
    pub fn joined(before: Totals, pair: Totals, after: Totals) -> Totals
        requires pairs { before.pairs + pair.pairs + after.pairs < 2 ^ 32 }
        requires bytes { before.bytes + pair.bytes + after.bytes < 2 ^ 32 }
        ensures { AreJoined before pair after result }
    {
        Totals {
            pairs: before.pairs + pair.pairs + after.pairs,
            bytes: before.bytes + pair.bytes + after.bytes,
            depth: before.depth.max(pair.depth).max(after.depth),
        }
    }
}
