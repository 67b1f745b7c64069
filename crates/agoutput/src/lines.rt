//! Makes the lines of values and of counts.

ghost use Rattle.std.specs.Prelude.{◌≡◌, IfOk, string_bytes};
ghost use Rattle.agoutput.specs.Lines.{counts_line as counts_text, nodes_line as nodes_text};
ghost use Rattle.agoutput.specs.Lines.{value_line as value_text};

use crate::naming::show_number;
use ag_grammar::Grammar;
use ag_value::{NoMemory, Value, show};
use std::alloc::{AllocError, Global};

/// Returns the text of a value, and LF. Fails with NoMemory if memory is refused.
pub fn value_line(alloc: Global, value: &Value) -> Result<String, NoMemory>
    ensures { IfOk result (λ line. string_bytes line ≡ value_text value.now) }
{
    let mut line = show(alloc, value)?;
    line.push_str("\n")?;
    Ok(line)
}

/// Returns the line with the number of symbols and the number of productions of a grammar, as in
/// `1 symbols, 2 productions`, and LF. The words are the same for each number. Fails with
/// AllocError if memory is refused.
pub fn counts_line(alloc: Global, grammar: &Grammar) -> Result<String, AllocError>
    ensures { IfOk result (λ line. string_bytes line ≡ counts_text grammar.now) }
{
    let mut line = String::new(alloc);
    show_number(&mut line, grammar.symbols().len())?;
    line.push_str(" symbols, ")?;
    show_number(&mut line, grammar.productions().len())?;
    line.push_str(" productions\n")?;
    Ok(line)
}

/// Returns the line with the number of nodes of a tree, as in `3 nodes`, and LF. The word is the
/// same for each number. Fails with AllocError if memory is refused.
pub fn nodes_line(alloc: Global, count: u32) -> Result<String, AllocError>
    ensures { IfOk result (λ line. string_bytes line ≡ nodes_text count) }
{
    let mut line = String::new(alloc);
    show_number(&mut line, count as usize)?;
    line.push_str(" nodes\n")?;
    Ok(line)
}
