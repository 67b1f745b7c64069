//! The operator `++`. A long text or list that it makes shares the parts of its operands, so that a
//! text or list that grows from node to node is not copied. The functions that return a `Result`
//! fail with `NoMemory` if memory is refused.

ghost use Rattle.std.specs.Prelude.{◌≡◌, ◌++◌, IfOk, IfSome, MatchOption, length, false, true};
ghost use Rattle.ag_value.specs.declared.value.Value.TheVariants as value;
ghost use Rattle.ag_value.specs.operations.Fitting.{fit};
ghost use Rattle.ag_value.specs.operations.Lists.{concatenation};
ghost use Rattle.ag_grammar.specs.values.Operators.{operation_result};
ghost use Rattle.ag_value.specs.operations.Texts.{bytes_of, is_text};
ghost use Rattle.ag_eval.specs.Lists.{is_list};
ghost use Rattle.ag_eval.specs.Operands.{Gives, IsIn, held_value, operand_value};

use crate::bindings::Bindings;
use crate::builtins::faults::fault_of_two;
use crate::builtins::list_trees;
use crate::builtins::lists::extend_list;
use crate::builtins::texts::{bytes_of, extend_text};
use crate::calls::fault;
use crate::measured::Measured;
use crate::operand::{Held, Operand};
use ag_carried::{MAX_FLAT_LIST, MAX_FLAT_TEXT, SharedText};
use ag_grammar::Operator;
use ag_value::{ErrorCode, MAX_WEIGHT, NoMemory};
use std::alloc::Global;

/// The greatest length of a text in bytes. The encoding of a text has 5 bytes more than the text.
const MAX_TEXT: usize = MAX_WEIGHT as usize - 5;

/// Computes `a ++ b` for two texts or two lists. The value is the error `big` if the result is
/// beyond the limit of weight. If an operand is an error, the value is the leftmost error of the
/// two. For all other operands the value is the error `kind`.
///
/// A result of at most `MAX_FLAT_TEXT` bytes or `MAX_FLAT_LIST` items is made by extending the left
/// operand. First each operand that is lent, bound, shared or a tree is copied. The exception is a
/// right text that is not shared: its bytes are only read. A longer result shares the bytes of
/// operands that are shared texts, or the nodes of operands that are trees. Any other operand is
/// moved into such a text or tree, or copied if it is lent or bound.
pub fn concatenate<'e>(
    alloc: Global,
    left: Operand<'e>,
    right: Operand<'e>,
    bindings: &Bindings<'e>,
) -> Result<Operand<'e>, NoMemory>
    requires left { IsIn bindings.now left }
    requires right { IsIn bindings.now right }
    ensures value { IfOk result (Gives bindings.now (operation_result Operator.Join) left.entry right.entry) }
    ensures within { IfOk result (λ o. IsIn bindings.now o) }
{
    if let Some(code) = fault_of_two(left.get(&*bindings), right.get(&*bindings)) {
        return Ok(fault(code));
    }
    match joined_len(&left, &right, &*bindings) {
        Some(len) if len > MAX_TEXT => Ok(fault(ErrorCode::Big)),
        Some(len) if len > MAX_FLAT_TEXT => {
            Ok(Operand::Held(shared_text(alloc, left, right, bindings)?))
        }
        Some(_) => Ok(Operand::owned(flat_text(alloc, left, right, bindings)?)),
        None => list_of_both(alloc, left, right, bindings),
    }
}

/// Makes each of two texts a shared one, and joins them as `joined` does.
#[tactic(auto, using(crate::proofs::Texts::concatenations))]
fn shared_text<'e>(
    alloc: Global,
    left: Operand<'e>,
    right: Operand<'e>,
    bindings: &Bindings<'e>,
) -> Result<Held<'e>, NoMemory>
    requires left { IsIn bindings.now left }
    requires right { IsIn bindings.now right }
    requires left_text { is_text (operand_value bindings.now left) ≡ true }
    requires right_text { is_text (operand_value bindings.now right) ≡ true }
    ensures { IfOk result (λ h. held_value h
        ≡ concatenation (operand_value bindings.now left.entry) (operand_value bindings.now right.entry)) }
{
    let left = left.into_shared(alloc, &*bindings)?;
    let right = right.into_shared(alloc, &*bindings)?;
    joined(alloc, left, right)
}

/// Extends the first of two texts by the second.
#[tactic(auto, using(crate::proofs::Texts::concatenations))]
fn flat_text<'e>(
    alloc: Global,
    left: Operand<'e>,
    right: Operand<'e>,
    bindings: &Bindings<'e>,
) -> Result<Measured, NoMemory>
    requires left { IsIn bindings.now left }
    requires right { IsIn bindings.now right }
    requires right_text { is_text (operand_value bindings.now right) ≡ true }
    ensures { IfOk result (λ m. m
        ≡ concatenation (operand_value bindings.now left.entry) (operand_value bindings.now right.entry)) }
{
    let left = left.into_owned(alloc, &*bindings)?;
    let right = right.get(&*bindings).to_plain(alloc)?;
    extend_text(alloc, left, bytes_of(right.get()))
}

/// Concatenates two operands that are not both texts. Returns the error `kind` if one of them is
/// not a list.
fn list_of_both<'e>(
    alloc: Global,
    left: Operand<'e>,
    right: Operand<'e>,
    bindings: &Bindings<'e>,
) -> Result<Operand<'e>, NoMemory>
    requires left { IsIn bindings.now left }
    requires right { IsIn bindings.now right }
    requires no_texts { is_text (operand_value bindings.now left) ≡ true
        → is_text (operand_value bindings.now right) ≡ false }
    ensures value { IfOk result (Gives bindings.now concatenation left.entry right.entry) }
    ensures within { IfOk result (λ o. IsIn bindings.now o) }
{
    match joined_count(&left, &right, &*bindings) {
        Some(count) if count > MAX_FLAT_LIST => {
            Ok(Operand::Held(tree_of_both(alloc, left, right, bindings)?))
        }
        _ => Ok(Operand::owned(extended_list(alloc, left, right, bindings)?)),
    }
}

/// Concatenates two lists, as trees.
fn tree_of_both<'e>(
    alloc: Global,
    left: Operand<'e>,
    right: Operand<'e>,
    bindings: &Bindings<'e>,
) -> Result<Held<'e>, NoMemory>
    requires left { IsIn bindings.now left }
    requires right { IsIn bindings.now right }
    requires left_list { is_list (operand_value bindings.now left) ≡ true }
    requires right_list { is_list (operand_value bindings.now right) ≡ true }
    ensures { IfOk result (λ h. held_value h
        ≡ concatenation (operand_value bindings.now left.entry) (operand_value bindings.now right.entry)) }
{
    let left = left.into_list(alloc, &*bindings)?;
    let right = right.into_list(alloc, &*bindings)?;
    list_trees::concatenate(alloc, &left, &right)
}

/// Returns the number of items of two lists together, or `None` if an operand is not a list.
fn joined_count(left: &Operand<'_>, right: &Operand<'_>, bindings: &Bindings<'_>) -> Option<usize>
    requires left { IsIn bindings.now left.now }
    requires right { IsIn bindings.now right.now }
    ensures { IfSome result (λ _. (is_list (operand_value bindings.now left.now) ≡ true)
        × (is_list (operand_value bindings.now right.now) ≡ true)) }
{
    let first = left.get(bindings).list_len()?;
    let second = right.get(bindings).list_len()?;
    Some(first + second)
}

/// Extends the left list by the items of the right one. The operands must not both be texts.
/// Returns the error `kind` if one of them is not a list.
fn extended_list<'e>(
    alloc: Global,
    left: Operand<'e>,
    right: Operand<'e>,
    bindings: &Bindings<'e>,
) -> Result<Measured, NoMemory>
    requires left { IsIn bindings.now left }
    requires right { IsIn bindings.now right }
    requires no_texts { is_text (operand_value bindings.now left) ≡ true
        → is_text (operand_value bindings.now right) ≡ false }
    ensures { IfOk result (λ m. m
        ≡ concatenation (operand_value bindings.now left.entry) (operand_value bindings.now right.entry)) }
{
    let left = left.into_owned(alloc, &*bindings)?;
    let right = right.into_owned(alloc, &*bindings)?;
    extend_list(left, right)
}

/// Returns the length in bytes of two texts together, or `None` if an operand is not a text.
fn joined_len(left: &Operand<'_>, right: &Operand<'_>, bindings: &Bindings<'_>) -> Option<usize>
    requires left { IsIn bindings.now left.now }
    requires right { IsIn bindings.now right.now }
    ensures texts { MatchOption result
        (is_text (operand_value bindings.now left.now) ≡ true
        → is_text (operand_value bindings.now right.now) ≡ false)
        (λ _. (is_text (operand_value bindings.now left.now) ≡ true)
        × (is_text (operand_value bindings.now right.now) ≡ true)) }
    ensures len { IfSome result (λ n. n ≡ length (bytes_of (operand_value bindings.now left.now)
        ++ bytes_of (operand_value bindings.now right.now))) }
{
    let first = left.get(bindings).text_len()?;
    let second = right.get(bindings).text_len()?;
    Some(first + second)
}

/// Joins two shared texts, or returns the error `big` if the result is beyond the limit of weight.
#[tactic(auto, using(crate::proofs::Texts::limits))]
fn joined<'e>(alloc: Global, left: SharedText, right: SharedText) -> Result<Held<'e>, NoMemory>
    ensures { IfOk result (λ h. held_value h ≡ fit (value.Text (left ++ right))) }
{
    match SharedText::join(alloc, left, right)? {
        Some(text) => Ok(Held::Shared(text)),
        None => Ok(Held::fault(ErrorCode::Big)),
    }
}
