//! What the rules of a grammar do with an attribute: whether one of them uses it, and whether the
//! rules for it are only copies.

ghost use Rattle.std.specs.Prelude.{◌≡◌, ◌↔◌, IsTrue, Some};
ghost use Rattle.ag_grammar.specs.declared.grammar.Item.TheVariants as item;
ghost use Rattle.ag_grammar.specs.grammars.AttributeGrammar.{item_at};
ghost use Rattle.plan_reasons.specs.Hints.{IsAttributeAt, IsCopied, IsCopiedBy, IsCopiedIn, IsCopy};
ghost use Rattle.plan_reasons.specs.Hints.{IsUnused, IsUnusedBy, IsUnusedIn};

use ag_grammar::{Grammar, Item, Node, Production, Rule, Target};
use message_parts::Attribute;

/// Returns whether the symbol of number `symbol` is at a place of a production.
fn is_symbol_at(production: &Production, place: u16, symbol: u16) -> bool
    ensures { IsTrue result ↔ (item_at production.now place ≡ Some (item.Symbol symbol)) }
{
    match production.item_at(place) {
        Some(Item::Symbol(found)) => found == symbol,
        Some(Item::Terminal(_)) => false,
        None => false,
    }
}

/// Returns whether a target of a production is this attribute: the attribute's symbol is at the
/// target's place, and the two attribute numbers are equal.
fn is_attribute_at(production: &Production, target: Target, attribute: Attribute) -> bool
    ensures { IsTrue result ↔ IsAttributeAt production.now target attribute.0 attribute.1 }
{
    target.attr == attribute.1 && is_symbol_at(production, target.place, attribute.0)
}

/// Returns whether no argument of a rule is this attribute.
fn is_unused_by(production: &Production, rule: &Rule, attribute: Attribute) -> bool
    ensures { IsTrue result ↔ IsUnusedBy production.now attribute.0 attribute.1 rule.now }
{
    for argument in rule.args.as_slice() {
        if is_attribute_at(production, *argument, attribute) {
            return false;
        }
    }
    true
}

/// Returns whether no rule of a production uses an attribute.
fn is_unused_in(production: &Production, attribute: Attribute) -> bool
    ensures { IsTrue result ↔ IsUnusedIn attribute.0 attribute.1 production.now }
{
    for rule in production.rules.as_slice() {
        if !is_unused_by(production, rule, attribute) {
            return false;
        }
    }
    true
}

/// Returns whether no rule of a grammar uses an attribute. Reads each rule at most once.
pub fn is_unused(grammar: &Grammar, attribute: Attribute) -> bool
    ensures { IsTrue result ↔ IsUnused grammar.now attribute.0 attribute.1 }
{
    for production in grammar.productions() {
        if !is_unused_in(production, attribute) {
            return false;
        }
    }
    true
}

/// Returns whether a rule is a copy: its expression is one occurrence, such as `$1.p`.
fn is_copy(rule: &Rule) -> bool
    ensures { IsTrue result ↔ IsCopy rule.now }
{
    match rule.expr.tree() {
        Node::Occurrence(_) => true,
        _ => false,
    }
}

/// Returns whether a rule is a copy or is not for this attribute.
fn is_copied_by(production: &Production, rule: &Rule, attribute: Attribute) -> bool
    ensures { IsTrue result ↔ IsCopiedBy production.now attribute.0 attribute.1 rule.now }
{
    !is_attribute_at(production, rule.target, attribute) || is_copy(rule)
}

/// Returns whether each rule of a production for an attribute is a copy. Returns true if the
/// production has no rule for the attribute.
fn is_copied_in(production: &Production, attribute: Attribute) -> bool
    ensures { IsTrue result ↔ IsCopiedIn attribute.0 attribute.1 production.now }
{
    for rule in production.rules.as_slice() {
        if !is_copied_by(production, rule, attribute) {
            return false;
        }
    }
    true
}

/// Returns whether each rule of a grammar for an attribute is a copy. Returns true if the grammar
/// has no rule for the attribute. Reads each rule at most once.
pub fn is_copied(grammar: &Grammar, attribute: Attribute) -> bool
    ensures { IsTrue result ↔ IsCopied grammar.now attribute.0 attribute.1 }
{
    for production in grammar.productions() {
        if !is_copied_in(production, attribute) {
            return false;
        }
    }
    true
}

/// Returns the number of rules of a grammar for an attribute.
pub(crate) fn rule_count(grammar: &Grammar, attribute: Attribute) -> usize {
    let mut count = 0usize;
    for production in grammar.productions() {
        count = count.saturating_add(rule_count_in(production, attribute));
    }
    count
}

/// Returns the number of rules of a production for an attribute.
fn rule_count_in(production: &Production, attribute: Attribute) -> usize {
    let mut count = 0usize;
    for rule in production.rules.as_slice() {
        if is_attribute_at(production, rule.target, attribute) {
            count = count.saturating_add(1);
        }
    }
    count
}
