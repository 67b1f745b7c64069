//! Writes the listing of a plan's code.

ghost use Rattle.std.specs.Prelude.{◌≡◌, ◌++◌, IfOk, IsErrOf, OnOk, codes, decimal, map};
ghost use Rattle.std.specs.Prelude.{string_bytes};
ghost use Rattle.std.specs.Io.KnownBytes.{Appends};
ghost use Rattle.ag_value.specs.Shown.{separated};
ghost use Rattle.passcode.specs.Rows.{row_of};
ghost use Rattle.planchecker.specs.Plans.{IsPlan};
ghost use Rattle.agoutput.specs.Listings.{code_line, code_text};
ghost use Rattle.agoutput.specs.Listings.{instruction_text, production_text};
ghost use Rattle.agoutput.specs.Writing.{AppendsBeginning};

use crate::fault::ListingFault;
use crate::naming::{attribute_name, show_number};
use crate::writing::write_text;
use ag_grammar::{Grammar, Production};
use passcode::{Code, Instr};
use planchecker::Plan;
use std::alloc::{AllocError, Global};
use std::io::Write;

/// A production of a grammar, with its number from 0.
#[derive(Clone, Copy)]
struct NumberedProduction<'g> {
    grammar: &'g Grammar,
    number: usize,
    production: &'g Production,
}

/// Appends `name`, the name of an instruction with a space after it, and a place in decimal. Fails
/// if memory is refused, as all `show_` functions do.
fn show_place(out: &mut String, name: &str, place: u16) -> Result<(), AllocError>
    ensures { OnOk result (string_bytes out.new ≡ string_bytes out.old
        ++ (name.now ++ decimal place)) }
{
    out.push_str(name)?;
    show_number(out, place as usize)
}

/// Appends the name of an attribute, and the number of the rule that computes it, as in `s rule 2`.
/// The rules of a production are numbered from 0.
fn show_attribute_and_rule(out: &mut String, name: &str, rule: u16) -> Result<(), AllocError>
    ensures { OnOk result (string_bytes out.new ≡ string_bytes out.old
        ++ (name.now ++ codes " rule " ++ decimal rule)) }
{
    out.push_str(name)?;
    out.push_str(" rule ")?;
    show_number(out, rule as usize)
}

/// Appends the text of an instruction for a node of a production.
fn show_instruction(
    out: &mut String,
    grammar: &Grammar,
    production: &Production,
    instruction: Instr,
) -> Result<(), AllocError>
    ensures { OnOk result (string_bytes out.new
        ≡ string_bytes out.old ++ instruction_text grammar.now production.now instruction) }
{
    match instruction {
        Instr::Get(place) => show_place(out, "get ", place)?,
        Instr::Set { place, attr, rule } => {
            show_place(out, "set ", place)?;
            out.push_str(".")?;
            let name = attribute_name(grammar, production, place, attr);
            show_attribute_and_rule(out, name, rule)?;
        }
        Instr::Go(place) => show_place(out, "go ", place)?,
        Instr::Put(place) => show_place(out, "put ", place)?,
        Instr::Def { attr, rule } => {
            out.push_str("def ")?;
            let name = attribute_name(grammar, production, 0, attr);
            show_attribute_and_rule(out, name, rule)?;
        }
        Instr::End => out.push_str("end")?,
    }
    Ok(())
}

/// Appends the texts of instructions, separated by a comma and a space.
fn show_list(
    out: &mut String,
    grammar: &Grammar,
    production: &Production,
    list: &[Instr],
) -> Result<(), AllocError>
    ensures { OnOk result (string_bytes out.new ≡ string_bytes out.old
        ++ separated (map (instruction_text grammar.now production.now) list.now)) }
{
    let [first, rest @ ..] = list else {
        return Ok(());
    };
    show_instruction(out, grammar, production, *first)?;
    for instruction in rest {
        out.push_str(", ")?;
        show_instruction(out, grammar, production, *instruction)?;
    }
    Ok(())
}

/// Appends the line of a production and a pass: their numbers and the instructions of `list`.
/// Productions are numbered from 0, and passes from 1.
fn show_line(
    out: &mut String,
    numbered: &NumberedProduction<'_>,
    pass: usize,
    list: &[Instr],
) -> Result<(), AllocError>
    ensures { let of = numbered.now in OnOk result (string_bytes out.new ≡ string_bytes out.old
        ++ code_line of.grammar.now of.number of.production.now (pass, list.now)) }
{
    show_number(out, numbered.number)?;
    out.push_str(" pass ")?;
    show_number(out, pass)?;
    out.push_str(": ")?;
    show_list(out, numbered.grammar, numbered.production, list)?;
    out.push_str("\n")?;
    Ok(())
}

/// Appends the lines of a production, one for each pass from 1.
fn show_production(
    out: &mut String,
    numbered: &NumberedProduction<'_>,
    lists: &[Vec<Instr>],
) -> Result<(), AllocError>
    ensures { let of = numbered.now in OnOk result (string_bytes out.new ≡ string_bytes out.old
        ++ production_text of.grammar.now ((of.number, of.production.now), row_of lists.now)) }
{
    for (before, list) in lists.iter().enumerate() {
        show_line(out, numbered, before + 1, list.as_slice())?;
    }
    Ok(())
}

/// Returns the listing of a plan's code. Fails if memory is refused.
fn code_lines(alloc: Global, grammar: &Grammar, code: &Code) -> Result<String, AllocError>
    ensures { IfOk result (λ text. string_bytes text ≡ code_text grammar.now code.now) }
{
    let mut out = String::new(alloc);
    let productions = grammar.productions().iter().enumerate();
    for ((number, production), lists) in productions.zip(code.rows().iter()) {
        let numbered = NumberedProduction {
            grammar,
            number,
            production,
        };
        show_production(&mut out, &numbered, lists.as_slice())?;
    }
    Ok(out)
}

/// Writes the listing of a plan's code: one line for each production and pass, with the
/// instructions of its list. Productions are in the order of the grammar's text, and the lines of a
/// production in the order of the passes, from 1. `plan` has to be a plan for `grammar`: the
/// listing of another plan could lack lines or names.
///
/// Fails with O2 if a write takes no byte, or fails for any reason, for example because the writer
/// is refused memory. A prefix of the listing, perhaps empty, is written then. Fails with NoMemory
/// if memory for the listing is refused. Nothing is written then, since the whole listing is made
/// in memory before its first byte is written.
pub fn write_code<W: Write>(
    alloc: Global,
    out: &mut W,
    grammar: &Grammar,
    plan: &Plan,
) -> Result<(), ListingFault>
    requires plan { IsPlan grammar.now plan.now.assignment plan.now.code }
    ensures ok { OnOk result (Appends (W.contents out.old) (W.contents out.new)
        (code_text grammar.now plan.now.code)) }
    // O2: a prefix of the listing was written
    ensures write { IsErrOf result ListingFault.Write → AppendsBeginning (W.contents out.old)
        (W.contents out.new) (code_text grammar.now plan.now.code) }
    // NoMemory: nothing was written
    ensures memory { IsErrOf result ListingFault.NoMemory → out.new ≡ out.old }
{
    let listing = code_lines(alloc, grammar, plan.code())?;
    write_text(out, listing.as_str())?;
    Ok(())
}
