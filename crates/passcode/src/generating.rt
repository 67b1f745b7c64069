//! The code of a grammar under an assignment.

ghost use Rattle.std.specs.Prelude.{ℕ, ◌≡◌, ◌+◌, IfOk, Some, List, length, slice_get};
ghost use Rattle.ag_grammar.specs.grammars.Passes.{IsLegal};
ghost use Rattle.passassign.specs.Rows.{passes_of};
ghost use Rattle.passcode.specs.Agreement.{Agrees};
ghost use Rattle.passcode.specs.Limits.{IsPlanned};
ghost use Rattle.passcode.specs.Listing.{AreGeneratedLists, generated_list};
ghost use Rattle.passcode.specs.Rows.{row_of};
ghost use Rattle.passcode.specs.Shape.{HasLists, HasNumbers, HasShape};
ghost use Rattle.passcode.specs.declared.instr.Instr.{Instr as TheInstr};

use crate::code::Code;
use crate::course::{ListContext, arity};
use crate::instr::Instr;
use ag_grammar::{Grammar, Production};
use ag_value::NoMemory;
use passassign::Assignment;
use std::alloc::Global;

/// Returns the lists of a production, for the passes from 1 to `passes`. Fails with NoMemory if
/// memory is refused. (`lists_of` of the specs is another function: it finds a production's lists
/// in given code.)
fn lists_of(
    alloc: Global,
    production: &Production,
    assignment: &Assignment,
    passes: u16,
) -> Result<Vec<Vec<Instr>>, NoMemory>
    requires { IsPlanned (passes_of assignment.now) production.now }
    ensures len { IfOk result (λ lists. length lists.items ≡ passes) }
    ensures lists { IfOk result (λ lists. (i : ℕ) (xs : List TheInstr)
        → slice_get (row_of lists.items) i ≡ Some xs
        → xs ≡ generated_list (passes_of assignment.now) production.now (i + 1)) }
{
    let children = arity(production);
    let mut lists = Vec::new(alloc);
    for before in 0..passes {
        let context = ListContext {
            assignment,
            production,
            pass: before + 1,
        };
        lists.push(context.list(alloc, children)?)?;
    }
    Ok(lists)
}

/// Returns the code of an accepted grammar under a legal assignment: a list of instructions for
/// each production and each pass up to the assignment's greatest.
///
/// A list begins with the instructions for each place of the right side, in the pass's direction.
/// At a token these are the `Get` and the `Put`. At a symbol they are the `Get`, the `Set`s in the
/// order of their attributes, the `Go` and the `Put`. Then come the `Def`s in the order of their
/// attributes, and `End`. The `Set`s and `Def`s are those of the attributes that have the list's
/// pass and a rule in the production.
///
/// Fails with NoMemory if the allocator refuses memory. Allocates only the code. For each list it
/// looks up each attribute of the left side and of each child that is a symbol once. It searches
/// for the attribute's rule only if the attribute has the list's pass.
pub fn generate(alloc: Global, grammar: &Grammar, assignment: &Assignment) -> Result<Code, NoMemory>
    requires { IsLegal grammar.now (passes_of assignment.now) }
    ensures agrees { IfOk result (Agrees grammar.now (passes_of assignment.now)) }
    ensures lists { IfOk result (HasLists grammar.now assignment.now) }
    ensures shape { IfOk result (λ code. HasNumbers grammar.now assignment.now
        → HasShape grammar.now assignment.now code) }
    ensures order { IfOk result (AreGeneratedLists grammar.now (passes_of assignment.now)) }
{
    let passes = assignment.passes();
    let mut rows = Vec::new(alloc);
    for production in grammar.productions() {
        rows.push(lists_of(alloc, production, assignment, passes)?)?;
    }
    Ok(Code::of_rows(rows))
}
