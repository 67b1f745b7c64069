//! Operations on lists that are balanced trees.

ghost use Rattle.std.specs.Prelude.{◌≡◌, ◌++◌, ◌∷◌, ◌+◌, ◌<◌, ◌≤◌, [], option_copied, IfOk, IfSome, None};
ghost use Rattle.ag_value.specs.Measure.{depth_of, max_value_depth, max_weight, weight_of};
ghost use Rattle.ag_value.specs.Well.{IsWell};
ghost use Rattle.ag_value.specs.declared.value.Value.TheVariants as value;
ghost use Rattle.ag_value.specs.operations.Arguments.{fault_of};
ghost use Rattle.ag_value.specs.operations.Fitting.{fit};
ghost use Rattle.ag_value.specs.operations.Lists.{append_result, item_at, length_of, nth_of};
ghost use Rattle.ag_eval.specs.Operands.{held_value};

use crate::builtins::lists::count;
use crate::measured::Measured;
use crate::operand::Held;
use ag_value::{ErrorCode, Items, MAX_VALUE_DEPTH, MAX_WEIGHT, NoMemory, Value};
use list_tree::ListTree;
use std::alloc::Global;

/// Computes `len(l)`.
#[tactic(auto, using(ag_value::proofs::operations::Wells::short))]
pub fn length(list: &ListTree) -> Value
    ensures value { result ≡ length_of (value.List list.now) }
    ensures well { IsWell result }
{
    // the contract of `weight` shows the prover that the list is within the limits
    let _weight = list.weight();
    count(list.len())
}

/// Computes `nth(l, i)`: the item with the index i, from 0, lent; the error `index` if there is
/// none.
pub fn nth<'a>(list: &'a ListTree, index: &Value) -> Held<'a>
    ensures { held_value result ≡ nth_of (value.List list.now) index.now }
{
    let Value::Num(index) = index else {
        return Held::fault(ErrorCode::Kind);
    };
    match item_at(list, *index) {
        Some(item) => Held::from_lent(item),
        None => Held::fault(ErrorCode::Index),
    }
}

/// Returns the item with an index from 0, if there is one.
fn item_at(list: &ListTree, index: i64) -> Option<&Value>
    ensures item { option_copied result ≡ item_at list.now index }
    ensures well { IfSome result (λ item. IsWell item.now) }
{
    if index < 0 {
        return None;
    }
    list.get(index as usize)
}

/// Computes `a ++ b`: a tree that shares nodes with a and b. Takes memory for new nodes, whose
/// number grows with the difference of the heights of a and b.
#[tactic(auto, using(crate::proofs::Lists::limits))]
pub fn concatenate<'a>(
    alloc: Global,
    left: &ListTree,
    right: &ListTree,
) -> Result<Held<'a>, NoMemory>
    ensures { IfOk result (λ h. held_value h ≡ fit (value.List (left.now ++ right.now))) }
{
    // the contract of `weight` shows the prover that both lists are within the limits
    let _weights = (left.weight(), right.weight());
    match ListTree::join(alloc, left, right)? {
        Some(list) => Ok(Held::List(list)),
        None => Ok(Held::fault(ErrorCode::Big)),
    }
}

/// Computes `append(l, v)`: a tree that shares nodes with l. Takes memory for the item, and for the
/// nodes on the way from the root to the last item.
#[tactic(auto, using(crate::proofs::Lists::limits))]
pub fn append<'a>(alloc: Global, list: &ListTree, item: Measured) -> Result<Held<'a>, NoMemory>
    requires { fault_of item ≡ None }
    ensures { IfOk result (λ h. held_value h ≡ append_result (value.List list.now) item) }
{
    // a list is one level deeper than its deepest item
    if item.depth() >= MAX_VALUE_DEPTH {
        return Ok(Held::fault(ErrorCode::Deep));
    }
    if list.weight() + item.weight() > MAX_WEIGHT {
        return Ok(Held::fault(ErrorCode::Big));
    }
    concatenate(alloc, list, &single(alloc, item)?)
}

/// Returns the list of one item, as a tree.
fn single(alloc: Global, item: Measured) -> Result<ListTree, NoMemory>
    requires no_fault { fault_of item ≡ None }
    requires shallow { depth_of item < max_value_depth }
    requires light { 5 + weight_of item ≤ max_weight }
    ensures { IfOk result (λ list. list ≡ item ∷ []) }
{
    let mut items = Vec::with_capacity(alloc, 1)?;
    items.push(item.into_value())?;
    ListTree::from_list(alloc, Items::from_vec(items))
}
