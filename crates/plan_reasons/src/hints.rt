//! Attributes that the grammar may not need: those that no rule uses, and those that are only
//! copied.

ghost use Rattle.std.specs.Prelude.{ℕ, ◌⊎◌, IfOk, OnOk};
ghost use Rattle.ag_grammar.specs.Lists.{Has};
ghost use Rattle.plan_reasons.specs.Hints.{IsCopied, IsUnused};

use crate::attributes::attributes_of;
use crate::explanation::{Explanation, MAX_LINES, write_others};
use crate::uses::{is_copied, is_unused, rule_count};
use ag_grammar::Grammar;
use ag_value::NoMemory;
use message_parts::Attribute;
use std::alloc::Global;

/// Returns whether an attribute is the start symbol's `out`, whose value is the translation.
fn is_translation(grammar: &Grammar, attribute: Attribute) -> bool {
    match grammar.symbols().get(usize::from(attribute.0)) {
        Some(symbol) => attribute.0 == grammar.start()
            && symbol.attribute_name(attribute.1) == Some("out"),
        None => false,
    }
}

/// Appends an attribute, if no rule uses it and it is not the start symbol's `out`.
fn append_unused(
    unused: &mut Vec<Attribute>,
    grammar: &Grammar,
    attribute: Attribute,
) -> Result<(), NoMemory>
    ensures { OnOk result ((x : ℕ × ℕ) → Has unused.new.items x
        → Has unused.old.items x ⊎ IsUnused grammar.now x.0 x.1) }
{
    if is_translation(grammar, attribute) {
        return Ok(());
    }
    if !is_unused(grammar, attribute) {
        return Ok(());
    }
    unused.push(attribute)?;
    Ok(())
}

/// Returns the elements of `attributes` that no rule uses, except the start symbol's `out`.
fn unused_among(
    alloc: Global,
    grammar: &Grammar,
    attributes: &[Attribute],
) -> Result<Vec<Attribute>, NoMemory>
    ensures { IfOk result (λ unused. (x : ℕ × ℕ) → Has unused.items x → IsUnused grammar.now x.0 x.1) }
{
    let mut unused = Vec::new(alloc);
    for attribute in attributes {
        append_unused(&mut unused, grammar, *attribute)?;
    }
    Ok(unused)
}

/// Appends an attribute, if there are rules for it and each of these is a copy.
fn append_copied(
    copied: &mut Vec<Attribute>,
    grammar: &Grammar,
    attribute: Attribute,
) -> Result<(), NoMemory>
    ensures { OnOk result ((x : ℕ × ℕ) → Has copied.new.items x
        → Has copied.old.items x ⊎ IsCopied grammar.now x.0 x.1) }
{
    if rule_count(grammar, attribute) == 0 {
        return Ok(());
    }
    if !is_copied(grammar, attribute) {
        return Ok(());
    }
    copied.push(attribute)?;
    Ok(())
}

/// Returns the elements of `attributes` for which there are rules, all of which are copies.
fn copied_among(
    alloc: Global,
    grammar: &Grammar,
    attributes: &[Attribute],
) -> Result<Vec<Attribute>, NoMemory>
    ensures { IfOk result (λ copied. (x : ℕ × ℕ) → Has copied.items x → IsCopied grammar.now x.0 x.1) }
{
    let mut copied = Vec::new(alloc);
    for attribute in attributes {
        append_copied(&mut copied, grammar, *attribute)?;
    }
    Ok(copied)
}

impl Explanation<'_> {
    /// Writes two lists, each after a heading: the attributes that no rule uses, without the start
    /// symbol's `out`, and the attributes that are only copied. For these there are rules, all of
    /// which are copies. An empty list is left out with its heading.
    pub(crate) fn write_hints(&self, out: &mut String) -> Result<(), NoMemory> {
        let attributes = attributes_of(self.alloc, self.grammar.symbols())?;
        let unused = unused_among(self.alloc, self.grammar, attributes.as_slice())?;
        self.write_unused(out, unused.as_slice())?;
        let copied = copied_among(self.alloc, self.grammar, attributes.as_slice())?;
        self.write_copied(out, copied.as_slice())
    }

    /// Writes the attributes `unused` after a heading.
    fn write_unused(&self, out: &mut String, unused: &[Attribute]) -> Result<(), NoMemory> {
        if unused.is_empty() {
            return Ok(());
        }
        out.push_str("\nno rule uses:\n")?;
        for attribute in unused.iter().take(MAX_LINES) {
            writeln!(out, "  {}", self.name_of(*attribute))?;
        }
        write_others(out, unused.len())
    }

    /// Writes the attributes `copied` after a heading, each with the number of rules for it.
    fn write_copied(&self, out: &mut String, copied: &[Attribute]) -> Result<(), NoMemory> {
        if copied.is_empty() {
            return Ok(());
        }
        out.push_str("\nonly copied, each rule is one occurrence:\n")?;
        for attribute in copied.iter().take(MAX_LINES) {
            let rules = rule_count(self.grammar, *attribute);
            let noun = if rules == 1 { "rule" } else { "rules" };
            writeln!(out, "  {} ({rules} {noun})", self.name_of(*attribute))?;
        }
        write_others(out, copied.len())
    }
}
