//! The values of a node, with the rules that computed them.

ghost use Rattle.std.specs.Prelude.{IsErrOf};
ghost use Rattle.treefile.specs.devices.Device.{LeavesContent, Persists};

use crate::explained::ExplainedTree;
use crate::rule_at_node::RuleAtNode;
use ag_carried::Carried;
use ag_grammar::limits::MAX_ATTRIBUTES;
use ag_grammar::{Item, Target};
use ag_value::NoMemory;
use causes::{Cause, ChainStart, find_cause, rule_for};
use message_parts::display::PlainText;
use std::alloc::Global;
use tree_index::{NodeKind, NodePath, NodeRecord, TreeFault};
use tree_text::{ItemName, ProductionText, SelectedAttribute, write_value};
use treefile::Device;

/// Which node is explained, and which of its attributes.
#[derive(Clone, Copy)]
pub struct NodeRequest<'a> {
    /// The places of children, from 1, that lead from the root to the node.
    pub places: &'a [u16],
    /// The names of the attributes; if the list is empty, all are explained. A name that the node
    /// does not have is ignored.
    pub names: &'a [&'a str],
    /// The greatest number of characters of a value that is not a number; 0 for whole values. In
    /// the line about an error's cause (`write_cause`), the limit is always 40 characters.
    pub width: usize,
}

/// A rule that computes an attribute: the places of children, from 1, that lead from the root to
/// the rule's node, and the rule's target.
#[derive(Clone, Copy)]
struct RulePlace<'a> {
    places: &'a [u16],
    target: Target,
}

impl<'a> ExplainedTree<'a> {
    /// Writes the path of a node and its production, or the class of a token. Then writes for each
    /// attribute of the request its value, the rule for it, and the values of the rule's arguments
    /// that the file has. If the file does not have the attribute's value yet, names the pass that
    /// computes the value. If the value is an error and the file is of the last pass, a line about
    /// its cause follows. Writes nothing if the tree does not have the node. Fails with R1 if a
    /// record is damaged, with D1 if a call of the device fails, and if memory is refused.
    pub fn write_node<D: Device>(
        &self,
        out: &mut String,
        request: &NodeRequest<'_>,
        device: &mut D,
    ) -> Result<(), TreeFault>
        ensures content { LeavesContent (D.is_honest device.new)
            (D.content device.old) (D.content device.new) }
        ensures persists { Persists (D.is_honest device.old) (D.is_honest device.new)
            (D.failures device.old) (D.failures device.new) (IsErrOf result TreeFault.Device) }
    {
        let grammar = self.format.grammar;
        let Some(node) = self.index.find(grammar, request.places) else {
            return Ok(());
        };
        let Some(item) = self.index.item(grammar, node) else {
            return Ok(());
        };
        let Some(record) = self.read_node(node, device)? else {
            return Ok(());
        };
        self.write_heading(out, request.places, item, &record)?;
        for attr in 0..MAX_ATTRIBUTES as u16 {
            let selected = SelectedAttribute { item, attr };
            if self.is_selected(selected, request.names) {
                self.write_value_line(out, selected, &record, request.width)?;
                self.write_reason(out, request, selected, device)?;
                if self.is_explained_error(&record, selected) {
                    self.write_cause_of(out, request.places, selected, device)?;
                }
            }
        }
        Ok(())
    }

    /// Returns whether an item has this attribute, and the attribute is explained: its name is
    /// among `names`, or `names` is empty.
    fn is_selected(&self, selected: SelectedAttribute, names: &[&str]) -> bool {
        match self.format.attribute_name(selected.item, selected.attr) {
            Some(name) => names.is_empty() || names.iter().any(|given| *given == name),
            None => false,
        }
    }

    /// Writes the path of a node, and its production or class.
    fn write_heading(
        &self,
        out: &mut String,
        places: &[u16],
        item: Item,
        record: &NodeRecord,
    ) -> Result<(), NoMemory> {
        let grammar = self.format.grammar;
        let path = NodePath::of_places(self.alloc, places)?;
        write!(out, "{path}  ")?;
        match (item, self.format.production(record.number)) {
            (Item::Symbol(_), Some(production)) => {
                let text = ProductionText {
                    grammar,
                    production,
                };
                Ok(writeln!(out, "{text}")?)
            }
            _ => {
                let name = ItemName { grammar, item };
                Ok(writeln!(out, "{name}")?)
            }
        }
    }

    /// Writes a line with the name of an attribute and its value or, if the file does not have the
    /// value, the pass that computes it.
    fn write_value_line(
        &self,
        out: &mut String,
        selected: SelectedAttribute,
        record: &NodeRecord,
        width: usize,
    ) -> Result<(), NoMemory> {
        let SelectedAttribute { item, attr } = selected;
        let name = self.format.attribute_name(item, attr).unwrap_or("");
        write!(out, "{}", PlainText(name))?;
        match (
            self.format.own_value(record, item, attr),
            self.format.pass_of(item, attr),
        ) {
            (Some(value), _) => {
                out.push_str("=")?;
                write_value(self.alloc, out, value, width)?;
            }
            (None, Some(pass)) => {
                let of_file = self.format.pass;
                write!(
                    out,
                    ": pass {pass} computes it, and the file is of pass {of_file}"
                )?;
            }
            (None, None) => {}
        }
        Ok(out.push('\n')?)
    }

    /// Writes the rule for an attribute of the requested node, and the values of the rule's
    /// arguments that the file has. Writes nothing if the attribute has no rule. Fails as
    /// `read_node` does.
    fn write_reason<D: Device>(
        &self,
        out: &mut String,
        request: &NodeRequest<'_>,
        selected: SelectedAttribute,
        device: &mut D,
    ) -> Result<(), TreeFault>
        ensures content { LeavesContent (D.is_honest device.new)
            (D.content device.old) (D.content device.new) }
        ensures persists { Persists (D.is_honest device.old) (D.is_honest device.new)
            (D.failures device.old) (D.failures device.new) (IsErrOf result TreeFault.Device) }
    {
        let Some(place) = self.rule_place(request.places, selected) else {
            return Ok(());
        };
        let Some(found) = self.find_rule(place, device)? else {
            return Ok(());
        };
        let path = NodePath::of_places(self.alloc, place.places)?;
        self.write_rule_line(out, &found, &path, place.target)?;
        Ok(self.write_arguments(out, &found, path, request.width)?)
    }

    /// Writes a line with a rule and its position. If the rule's target is at a child, also writes
    /// the path of the rule's node, which is the parent of the explained node.
    fn write_rule_line(
        &self,
        out: &mut String,
        found: &RuleAtNode<'_>,
        path: &NodePath,
        target: Target,
    ) -> Result<(), NoMemory> {
        out.push_str("  ")?;
        self.write_rule(out, found.number, found.index)?;
        self.write_position(out, found.number, found.index)?;
        if target.place != 0 {
            write!(out, " of {path}")?;
        }
        Ok(out.push('\n')?)
    }

    /// Returns where the rule for an attribute is. `places` lead to the attribute's node. The rule
    /// for a synthesized attribute is one of this node, the rule for an inherited one is one of the
    /// node's parent. Returns `None` for a token, whose text has no rule, and for an inherited
    /// attribute of the root, which has no parent.
    fn rule_place<'p>(
        &self,
        places: &'p [u16],
        selected: SelectedAttribute,
    ) -> Option<RulePlace<'p>> {
        let SelectedAttribute { item, attr } = selected;
        let Item::Symbol(number) = item else {
            return None;
        };
        let symbol = self.format.grammar.symbols().get(usize::from(number))?;
        if usize::from(attr) < symbol.syn.as_slice().len() {
            return Some(RulePlace {
                places,
                target: Target { place: 0, attr },
            });
        }
        let (last, above) = places.split_last()?;
        Some(RulePlace {
            places: above,
            target: Target { place: *last, attr },
        })
    }

    /// Reads the record of the node of a rule, and returns it with the rule. Returns `None` if the
    /// rule does not exist. Fails as `read_node` does.
    fn find_rule<D: Device>(
        &self,
        place: RulePlace<'_>,
        device: &mut D,
    ) -> Result<Option<RuleAtNode<'a>>, TreeFault>
        ensures content { LeavesContent (D.is_honest device.new)
            (D.content device.old) (D.content device.new) }
        ensures persists { Persists (D.is_honest device.old) (D.is_honest device.new)
            (D.failures device.old) (D.failures device.new) (IsErrOf result TreeFault.Device) }
    {
        match self.rule_number(place) {
            Some((node, index)) => self.rule_at(node, index, device),
            None => Ok(None),
        }
    }

    /// Returns the number of a rule's node in the index, and the rule's number, from 0, in its
    /// production. Returns `None` if the node or the rule does not exist.
    fn rule_number(&self, place: RulePlace<'_>) -> Option<(u32, u16)> {
        let node = self.index.find(self.format.grammar, place.places)?;
        let NodeKind::Node(number) = self.index.kind(node)? else {
            return None;
        };
        let production = self.format.production(number)?;
        Some((node, rule_for(production.rules.as_slice(), place.target)?))
    }

    /// Writes a line for each argument of a rule, if the record of the rule's node has the
    /// argument's value: the argument, its value, and the path of the node whose attribute it is.
    /// `path` is that of the rule's node.
    fn write_arguments(
        &self,
        out: &mut String,
        found: &RuleAtNode<'_>,
        mut path: NodePath,
        width: usize,
    ) -> Result<(), NoMemory> {
        for argument in found.rule.args.as_slice() {
            let value = self.value_of(&found.record, found.production, *argument);
            let name = self.occurrence(found.production, *argument);
            let (Some(name), Some(value)) = (name, value) else {
                continue;
            };
            write!(out, "    {name}=")?;
            write_value(self.alloc, out, value, width)?;
            if argument.place == 0 {
                writeln!(out, "  {path}")?;
                continue;
            }
            path.push(argument.place)?;
            writeln!(out, "  {path}")?;
            path.pop();
        }
        Ok(())
    }

    /// Returns whether the value of an attribute is an error, and the file is of the last pass.
    /// Only this file has the values of all rules, from which the cause is found.
    fn is_explained_error(&self, record: &NodeRecord, selected: SelectedAttribute) -> bool {
        let is_whole = self.format.pass == self.format.plan.assignment().passes();
        is_whole && is_error(self.format.own_value(record, selected.item, selected.attr))
    }

    /// Writes a line about the cause of an error: the value of an attribute of the node at the end
    /// of `places`. Writes nothing if no cause is found (`find_cause`).
    fn write_cause_of<D: Device>(
        &self,
        out: &mut String,
        places: &[u16],
        selected: SelectedAttribute,
        device: &mut D,
    ) -> Result<(), TreeFault>
        ensures content { LeavesContent (D.is_honest device.new)
            (D.content device.old) (D.content device.new) }
        ensures persists { Persists (D.is_honest device.old) (D.is_honest device.new)
            (D.failures device.old) (D.failures device.new) (IsErrOf result TreeFault.Device) }
    {
        let Some(place) = self.rule_place(places, selected) else {
            return Ok(());
        };
        let start = ChainStart {
            places: place.places,
            target: place.target,
        };
        let (alloc, grammar) = (self.alloc, self.format.grammar);
        let Some(cause) = find_cause(alloc, grammar, self.index, &start, device)? else {
            return Ok(());
        };
        let at = write_beginning(alloc, out, &cause)?;
        self.write_cause(out, &cause, at.as_str(), device)?;
        Ok(write_end(out)?)
    }
}

/// Returns whether a value is an error; false if there is none.
fn is_error(value: Option<&Carried>) -> bool {
    match value {
        Some(value) => value.as_fault().is_some(),
        None => false,
    }
}

/// Writes the beginning of a line about a cause. Returns the text ` at PATH`, with the path of the
/// cause's node.
fn write_beginning(alloc: Global, out: &mut String, cause: &Cause) -> Result<String, NoMemory> {
    out.push_str("  the error ")?;
    let path = NodePath::of_places(alloc, cause.places.as_slice())?;
    Ok(format!(in alloc; " at {path}")?)
}

/// Writes the end of a line.
fn write_end(out: &mut String) -> Result<(), NoMemory> {
    Ok(out.push('\n')?)
}
