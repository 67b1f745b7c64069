//! The dependencies in a production: the target of each rule depends on the rule's arguments.

ghost use Rattle.std.specs.Prelude.{◌≡◌, ◌++◌, IfOk, OnOk};
ghost use Rattle.ag_grammar.specs.expressions.Occurrences.{AreDifferent};
ghost use Rattle.ag_grammar.specs.grammars.AttributeGrammar.{IsRule, item_at};
ghost use Rattle.passassign.specs.Dependencies.{symbol_of, dependency_on, dependencies_of_rule};
ghost use Rattle.passassign.specs.Dependencies.{dependencies_of_production, dependencies_of};
ghost use Rattle.passassign.specs.Dependencies.{AreAccepted, IsAcceptedProduction};

use crate::stuck::Strike;
use crate::table::AttributeIndex;
use ag_grammar::{Item, Production, Rule, Target, occurrences};
use ag_value::NoMemory;
use std::alloc::Global;

/// A dependency of a rule's target on an argument of the rule (Knuth 1968). Both are attributes of
/// symbols. An argument that is the text of a token is known before all passes, so the target does
/// not depend on it.
#[derive(Clone, Copy)]
pub(crate) struct Dependency {
    /// The strike of the target by this argument.
    pub strike: Strike,
    /// The target's place.
    pub place: u16,
    /// The argument.
    pub argument: AttributeIndex,
    /// The argument's place.
    pub from: u16,
}

/// A rule of a production, with the numbers by which a strike names the production and the rule.
#[derive(Clone, Copy)]
struct NumberedRule<'a> {
    /// The production.
    production: &'a Production,
    /// The number of the production in the grammar, from 0.
    production_number: u16,
    /// The rule.
    rule: &'a Rule,
    /// The number of the rule in the production, from 0.
    number: u16,
}

impl<'a> NumberedRule<'a> {
    /// Returns the symbol at a place of the production, if there is one.
    fn symbol_at(&self, place: u16) -> Option<u16>
        ensures { result ≡ symbol_of (item_at self.now.production.now place) }
    {
        match self.production.item_at(place)? {
            Item::Symbol(symbol) => Some(symbol),
            Item::Terminal(_) => None,
        }
    }

    /// Returns the dependency of the rule's target on one of the rule's arguments, if both are
    /// attributes of symbols. `index` is the argument's number in the rule, from 0.
    fn dependency_on(&self, index: u16, argument: Target) -> Option<Dependency>
        ensures { result ≡ dependency_on self.now.production_number self.now.production.now
            (self.now.number, self.now.rule.now) (index, argument) }
    {
        let target = self.rule.target;
        let symbol = self.symbol_at(target.place)?;
        let of = self.symbol_at(argument.place)?;
        Some(Dependency {
            strike: Strike {
                symbol,
                attr: target.attr,
                production: self.production_number,
                rule: self.number,
                arg: index,
            },
            place: target.place,
            argument: AttributeIndex::new(of, argument.attr),
            from: argument.place,
        })
    }

    /// Returns the arguments of the rule: one for each of the distinct occurrences in its
    /// expression. The result of `occurrences` is not used. The call is there for its contract,
    /// which says that the occurrences are distinct (`different`). So the arguments are distinct
    /// too. Each is one of at most 16 attributes at one of at most 17 places, so 16 bits can index
    /// them.
    fn arguments(&self) -> &[Target]
        ensures lent { result.now ≡ self.now.rule.now.args }
        ensures different { AreDifferent self.now.rule.now.expr.occurrences }
    {
        let _different = occurrences(&self.rule.expr);
        self.rule.args.as_slice()
    }

    /// Appends the dependencies of the rule's target on the rule's arguments to `found`.
    fn append_dependencies(&self, found: &mut Vec<Dependency>) -> Result<(), NoMemory>
        requires accepted { IsAcceptedProduction self.now.production.now }
        requires rule { IsRule self.now.production.now self.now.rule.now }
        ensures { OnOk result (found.new.items ≡ found.old.items
            ++ dependencies_of_rule self.now.production_number self.now.production.now
            (self.now.number, self.now.rule.now)) }
    {
        let arguments = self.arguments();
        for (index, argument) in arguments.iter().enumerate() {
            if let Some(one) = self.dependency_on(index as u16, *argument) {
                found.push(one)?;
            }
        }
        Ok(())
    }
}

/// Appends the dependencies of a production, whose number is `number`, from 0.
fn append_production(
    found: &mut Vec<Dependency>,
    number: u16,
    production: &Production,
) -> Result<(), NoMemory>
    requires { IsAcceptedProduction production.now }
    ensures { OnOk result (found.new.items
        ≡ found.old.items ++ dependencies_of_production (number, production.now)) }
{
    let rules = production.rules.as_slice();
    for (index, rule) in rules.iter().enumerate() {
        let rule = NumberedRule {
            production,
            production_number: number,
            rule,
            number: index as u16,
        };
        rule.append_dependencies(found)?;
    }
    Ok(())
}

/// Returns all dependencies of the productions of an accepted grammar, in the order of productions,
/// rules and arguments.
pub(crate) fn all_dependencies(
    alloc: Global,
    productions: &[Production],
) -> Result<Vec<Dependency>, NoMemory>
    requires { AreAccepted productions.now }
    ensures { IfOk result (λ all. all.items ≡ dependencies_of productions.now) }
{
    let mut found = Vec::new(alloc);
    for (index, production) in productions.iter().enumerate() {
        append_production(&mut found, index as u16, production)?;
    }
    Ok(found)
}
