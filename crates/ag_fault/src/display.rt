//! How the program's faults are printed.

ghost use Rattle.std.specs.Prelude.{flat_map};
ghost use Rattle.std.specs.Fmt.{WritesOnOk};
ghost use Rattle.ag_fault.specs.Printed.{attribute_text, qualified_name};

use crate::fault::Fault;
use crate::stuck_grammar::StuckGrammar;
use ag_grammar::Grammar;
use std::fmt;

/// Prints the number of the fault first, as in `D1 reading or writing failed`. A fault without a
/// number prints `usage` or `NoMemory` in place of the number. A fault that contains a fault of
/// another crate is printed as the contained fault.
impl fmt::Display for Fault {
    ghost use Rattle.std.specs.Prelude.{Some};
    ghost use Rattle.ag_fault.specs.Printed.{printed};

    ghost output = { λ fault. Some (printed fault) };

    fn fmt<W: fmt::Write>(&self, f: &mut fmt::Formatter<W>) -> fmt::Result {
        match self {
            Fault::Usage => f.write_str("usage: the arguments of the command line can't be read"),
            Fault::File => f.write_str("F1 the file can't be opened, read or created"),
            Fault::Expr(fault) => write!(f, "{fault}"),
            Fault::Text(fault) => write!(f, "{fault}"),
            Fault::Normal(fault) => write!(f, "{fault}"),
            Fault::Table(fault) => write!(f, "{fault}"),
            Fault::Assign(stuck) => write!(f, "{stuck}"),
            Fault::Scan(fault) => write!(f, "{fault}"),
            Fault::Parse(fault) => write!(f, "{fault}"),
            Fault::Run(fault) => write!(f, "{fault}"),
            Fault::Job(fault) => write!(f, "{fault}"),
            Fault::NoText(_) => f.write_str("O1 the translation is not a text"),
            Fault::NotATreeFile => f.write_str("B1 the device does not contain a tree file"),
            Fault::Damaged(at) => write!(f, "B2 at {at}: the tree file is damaged here"),
            Fault::Device => f.write_str("D1 reading or writing failed"),
            Fault::Write => f.write_str("O2 the output could not be written completely"),
            Fault::NoMemory => f.write_str("NoMemory a request for memory was refused"),
        }
    }
}

/// Prints A1 and the attributes to which no pass can be assigned: `A1 R.out A.s A.i`.
impl fmt::Display for StuckGrammar {
    ghost use Rattle.std.specs.Prelude.{Some};
    ghost use Rattle.ag_fault.specs.Printed.{printed_stuck};

    ghost output = { λ stuck. Some (printed_stuck stuck) };

    fn fmt<W: fmt::Write>(&self, f: &mut fmt::Formatter<W>) -> fmt::Result {
        f.write_str("A1")?;
        write_attributes(f, &self.grammar, self.stuck.set.as_slice())
    }
}

/// Writes attributes with a space before each. A pair has the number of a symbol and the number of
/// an attribute in the symbol, both from 0.
fn write_attributes<W: fmt::Write>(
    f: &mut fmt::Formatter<W>,
    grammar: &Grammar,
    attributes: &[(u16, u16)],
) -> fmt::Result
    ensures { WritesOnOk W.write_str_gives f.old result
        (flat_map (attribute_text grammar.now) attributes.now) f.new }
{
    for attribute in attributes {
        f.write_str(" ")?;
        write_attribute(f, grammar, attribute.0, attribute.1)?;
    }
    Ok(())
}

/// Writes an attribute by the names of its symbol and of itself: `L.p`. Writes nothing if the
/// grammar has no attribute of these numbers.
fn write_attribute<W: fmt::Write>(
    f: &mut fmt::Formatter<W>,
    grammar: &Grammar,
    symbol: u16,
    attribute: u16,
) -> fmt::Result
    ensures { WritesOnOk W.write_str_gives f.old result
        (qualified_name grammar.now symbol attribute) f.new }
{
    let Some(symbol) = grammar.symbols().get(usize::from(symbol)) else {
        return Ok(());
    };
    match symbol.attribute_name(attribute) {
        Some(name) => write!(f, "{}.{name}", symbol.name.as_str()),
        None => Ok(()),
    }
}
