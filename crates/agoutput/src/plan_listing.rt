//! Writes the listing of a plan's passes.

ghost use Rattle.std.specs.Prelude.{◌≡◌, ◌++◌, IfOk, IsErrOf, OnOk, string_bytes};
ghost use Rattle.std.specs.List.{flat_map, zip};
ghost use Rattle.passassign.specs.Rows.{numbers_of};
ghost use Rattle.planchecker.specs.Plans.{IsPlan};
ghost use Rattle.agoutput.specs.Listings.{AppendsPlan, AppendsPlanBeginning, IsPlanListing};
ghost use Rattle.agoutput.specs.Listings.{attribute_text, pass_line, symbol_text};

use crate::fault::ListingFault;
use crate::naming::show_number;
use crate::writing::write_text;
use ag_grammar::{Direction, Grammar, Symbol};
use passassign::Assignment;
use planchecker::Plan;
use std::alloc::{AllocError, Global};
use std::io::Write;

/// Appends a space and `SYMBOL.ATTRIBUTE`, as in ` L.p`, if `own` equals `pass`. Appends nothing
/// otherwise. `own` is the pass of the attribute, and `pass` the pass of the line. Fails if memory
/// is refused, as all `show_` functions do.
fn show_attribute(
    out: &mut String,
    pass: u16,
    symbol: &str,
    name: &str,
    own: u16,
) -> Result<(), AllocError>
    ensures { OnOk result (string_bytes out.new
        ≡ string_bytes out.old ++ attribute_text pass symbol.now (name.now, own)) }
{
    if own == pass {
        out.push_str(" ")?;
        out.push_str(symbol)?;
        out.push_str(".")?;
        out.push_str(name)?;
    }
    Ok(())
}

/// Appends the attributes of a symbol that a pass computes. `passes` has the passes of the symbol's
/// attributes, the passes of its synthesized attributes first.
fn show_symbol(
    out: &mut String,
    pass: u16,
    symbol: &Symbol,
    passes: &[u16],
) -> Result<(), AllocError>
    ensures { OnOk result (string_bytes out.new
        ≡ string_bytes out.old ++ symbol_text pass (symbol.now, passes.now)) }
{
    let names = symbol
        .syn
        .as_slice()
        .iter()
        .chain(symbol.inh.as_slice().iter());
    for (name, own) in names.zip(passes.iter()) {
        show_attribute(out, pass, symbol.name.as_str(), name.as_str(), *own)?;
    }
    Ok(())
}

/// Appends the attributes that a pass computes, symbol by symbol. `rows` has the passes of each
/// symbol's attributes.
fn show_symbols(
    out: &mut String,
    pass: u16,
    symbols: &[Symbol],
    rows: &[Vec<u16>],
) -> Result<(), AllocError>
    ensures { OnOk result (string_bytes out.new ≡ string_bytes out.old
        ++ flat_map (symbol_text pass) (zip symbols.now (numbers_of rows.now))) }
{
    for (symbol, row) in symbols.iter().zip(rows.iter()) {
        show_symbol(out, pass, symbol, row.as_slice())?;
    }
    Ok(())
}

/// Appends the line of a pass: its number, its direction, and the attributes that it computes.
fn show_pass(
    out: &mut String,
    grammar: &Grammar,
    assignment: &Assignment,
    pass: u16,
) -> Result<(), AllocError>
    ensures { OnOk result (string_bytes out.new
        ≡ string_bytes out.old ++ pass_line grammar.now assignment.now pass) }
{
    out.push_str("pass ")?;
    show_number(out, pass as usize)?;
    out.push_str(" ")?;
    out.push_str(Direction::of_pass(pass).name())?;
    out.push_str(":")?;
    show_symbols(out, pass, grammar.symbols(), assignment.rows())?;
    out.push_str("\n")?;
    Ok(())
}

/// Returns the listing of an assignment: the lines of its passes. Fails if memory is refused.
fn plan_lines(
    alloc: Global,
    grammar: &Grammar,
    assignment: &Assignment,
) -> Result<String, AllocError>
    ensures { IfOk result (λ text. IsPlanListing grammar.now assignment.now (string_bytes text)) }
{
    let mut out = String::new(alloc);
    for before in 0..assignment.passes() {
        show_pass(&mut out, grammar, assignment, before + 1)?;
    }
    Ok(out)
}

/// Writes the listing of a plan's passes: a line for each pass from 1, with its direction and the
/// attributes that it computes. Symbols are in declared order, and for each symbol the synthesized
/// attributes come before the inherited ones. `plan` has to be a plan for `grammar`: the listing of
/// another plan could lack lines or names.
///
/// Fails with O2 if a write takes no byte, or fails for any reason, for example because the writer
/// is refused memory. A prefix of the listing, perhaps empty, is written then. Fails with NoMemory
/// if memory for the listing is refused. Nothing is written then, since the whole listing is made
/// in memory before its first byte is written.
pub fn write_plan<W: Write>(
    alloc: Global,
    out: &mut W,
    grammar: &Grammar,
    plan: &Plan,
) -> Result<(), ListingFault>
    requires plan { IsPlan grammar.now plan.now.assignment plan.now.code }
    ensures ok { OnOk result
        (AppendsPlan grammar.now plan.now.assignment (W.contents out.old) (W.contents out.new)) }
    // O2: a prefix of the listing was written
    ensures write { IsErrOf result ListingFault.Write → AppendsPlanBeginning grammar.now plan.now.assignment
        (W.contents out.old) (W.contents out.new) }
    // NoMemory: nothing was written
    ensures memory { IsErrOf result ListingFault.NoMemory → out.new ≡ out.old }
{
    let listing = plan_lines(alloc, grammar, plan.assignment())?;
    write_text(out, listing.as_str())?;
    Ok(())
}
