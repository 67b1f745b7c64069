//! Tables and lists that are trees: from which size on they are to be made, and whether an input
//! begins with the encoding of one.

ghost use Rattle.std.specs.Prelude.{IfSome};
ghost use Rattle.ag_value.specs.declared.value.Value.{List as ListValue, Table as TableValue};
ghost use Rattle.ag_carried.specs.Prefixes.{IsPrefix};

use list_tree::ListTree;
use table_tree::TableTree;

/// The greatest number of pairs in the table argument of `put`, the function of expressions, for
/// which the result is a flat table (a `Value`). From a larger flat table `put` makes a tree. The
/// pair that is put in is not counted. `ag_eval` keeps to this limit; no contract says so.
pub const MAX_FLAT_TABLE: usize = 16;

/// The greatest number of items of a flat list (a `Value`) that `append` or `++` of expressions
/// makes. Both make a longer list as a tree. `ag_eval` keeps to this limit; no contract says so.
pub const MAX_FLAT_LIST: usize = 16;

/// Returns the length in bytes of a table's encoding, if the input begins with this encoding, and
/// otherwise `None`. Takes no memory.
pub(crate) fn prefix_of_table(table: &TableTree, input: &[u8]) -> Option<usize>
    ensures { IfSome result (IsPrefix (TableValue table.now) input.now) }
{
    let len = table.encoding_len();
    if len <= input.len() && table.has_encoding(&input[..len]) {
        return Some(len);
    }
    None
}

/// Returns the length in bytes of a list's encoding, if the input begins with this encoding, and
/// otherwise `None`. Takes no memory.
pub(crate) fn prefix_of_list(list: &ListTree, input: &[u8]) -> Option<usize>
    ensures { IfSome result (IsPrefix (ListValue list.now) input.now) }
{
    let len = list.encoding_len();
    if len <= input.len() && list.has_encoding(&input[..len]) {
        return Some(len);
    }
    None
}
