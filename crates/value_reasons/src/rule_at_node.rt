//! A rule at a node, with the node's record, and what is printed of a rule in which an error
//! arises.

ghost use Rattle.std.specs.Prelude.{IsErrOf};
ghost use Rattle.treefile.specs.devices.Device.{LeavesContent, Persists};

use crate::explained::ExplainedTree;
use ag_grammar::{Production, Rule};
use ag_value::NoMemory;
use causes::Cause;
use tree_index::{NodeKind, NodeRecord, TreeFault};
use tree_text::write_value;
use treefile::Device;

/// The greatest number of characters that `write_cause` writes of an argument's value. A number is
/// written whole.
const MAX_ARGUMENT: usize = 40;

/// A rule at a node, with the record of the node.
#[derive(Drop)]
pub(crate) struct RuleAtNode<'a> {
    /// The number of the node's production, from 0.
    pub(crate) number: u16,
    pub(crate) production: &'a Production,
    pub(crate) rule: &'a Rule,
    /// The number of the rule in its production, from 0.
    pub(crate) index: u16,
    pub(crate) record: NodeRecord,
}

impl<'a> ExplainedTree<'a> {
    /// Reads the record of a node, and returns it with the rule of number `index` (from 0) of the
    /// node's production. Returns `None` if the node is a token, if the node doesn't exist, and if
    /// the rule doesn't exist. Fails as `read_node` does.
    pub(crate) fn rule_at<D: Device>(
        &self,
        node: u32,
        index: u16,
        device: &mut D,
    ) -> Result<Option<RuleAtNode<'a>>, TreeFault>
        ensures content { LeavesContent (D.is_honest device.new)
            (D.content device.old) (D.content device.new) }
        ensures persists { Persists (D.is_honest device.old) (D.is_honest device.new)
            (D.failures device.old) (D.failures device.new) (IsErrOf result TreeFault.Device) }
    {
        let Some(NodeKind::Node(number)) = self.index.kind(node) else {
            return Ok(None);
        };
        let Some(production) = self.format.production(number) else {
            return Ok(None);
        };
        let Some(rule) = production.rules.as_slice().get(usize::from(index)) else {
            return Ok(None);
        };
        let Some(record) = self.read_node(node, device)? else {
            return Ok(None);
        };
        Ok(Some(RuleAtNode {
            number,
            production,
            rule,
            index,
            record,
        }))
    }

    /// Reads the record of a node or of a token. Returns `None` if the index does not have the
    /// node, or the grammar does not have its production. Fails with R1 if the record is damaged,
    /// with D1 if a call of the device fails, and if memory is refused.
    pub(crate) fn read_node<D: Device>(
        &self,
        node: u32,
        device: &mut D,
    ) -> Result<Option<NodeRecord>, TreeFault>
        ensures content { LeavesContent (D.is_honest device.new)
            (D.content device.old) (D.content device.new) }
        ensures persists { Persists (D.is_honest device.old) (D.is_honest device.new)
            (D.failures device.old) (D.failures device.new) (IsErrOf result TreeFault.Device) }
    {
        let found = (
            self.index.item(self.format.grammar, node),
            self.index.end(node),
        );
        let (Some(item), Some(end)) = found else {
            return Ok(None);
        };
        let record = self.format.read_record(self.alloc, item, device, end)?;
        Ok(Some(record))
    }

    /// Writes a cause: the target of the rule in which the error arises, the rule's position, the
    /// text `place`, the values of the rule's arguments, and the number of rules that passed the
    /// error on, if it is not 0. `place` says where the rule's node is, and begins with a space.
    /// Writes nothing if the node has no such rule. Fails with R1 if the node's record is damaged,
    /// with D1 if a call of the device fails, and if memory is refused.
    pub fn write_cause<D: Device>(
        &self,
        out: &mut String,
        cause: &Cause,
        place: &str,
        device: &mut D,
    ) -> Result<(), TreeFault>
        ensures content { LeavesContent (D.is_honest device.new)
            (D.content device.old) (D.content device.new) }
        ensures persists { Persists (D.is_honest device.old) (D.is_honest device.new)
            (D.failures device.old) (D.failures device.new) (IsErrOf result TreeFault.Device) }
    {
        let Some(found) = self.rule_at(cause.node, cause.rule, device)? else {
            return Ok(());
        };
        self.write_arising(out, &found, place)?;
        Ok(write_steps(out, cause.steps)?)
    }

    /// Writes that an error arises in a rule, the rule's position, and the text `place`. Then
    /// writes the values of the rule's arguments up to the first one that the record does not have.
    /// Writes nothing if the production does not have the rule's target.
    fn write_arising(
        &self,
        out: &mut String,
        found: &RuleAtNode<'_>,
        place: &str,
    ) -> Result<(), NoMemory> {
        let Some(target) = self.occurrence(found.production, found.rule.target) else {
            return Ok(());
        };
        write!(out, "arises in the rule for `{target}`")?;
        self.write_position(out, found.number, found.index)?;
        out.push_str(place)?;
        for (number, argument) in found.rule.args.as_slice().iter().enumerate() {
            let value = self.value_of(&found.record, found.production, *argument);
            let name = self.occurrence(found.production, *argument);
            let (Some(value), Some(name)) = (value, name) else {
                return Ok(());
            };
            out.push_str(if number == 0 { ", where " } else { ", " })?;
            write!(out, "`{name}` is `")?;
            write_value(self.alloc, out, value, MAX_ARGUMENT)?;
            out.push_str("`")?;
        }
        Ok(())
    }
}

/// Writes the number of rules that passed an error on, if there are any.
fn write_steps(out: &mut String, steps: u32) -> Result<(), NoMemory> {
    match steps {
        0 => Ok(()),
        1 => Ok(out.push_str(", and 1 rule passed it on")?),
        _ => Ok(write!(out, ", and {steps} rules passed it on")?),
    }
}
