//! The rules of a tree in which errors arise.

ghost use Rattle.std.specs.Prelude.{◌≡◌, All, IfErr, IfOk, IsErrOf, Ok, length};
ghost use Rattle.ag_grammar.specs.Lists.{Each};
ghost use Rattle.ag_grammar.specs.declared.grammar.Rule.{Rule as TheRule};
ghost use Rattle.ag_value.specs.Well.{IsWell};
ghost use Rattle.tree_index.specs.Bodies.{body_at};
ghost use Rattle.treefile.specs.devices.Device.{LeavesContent, Persists, WhenHonest};

use crate::explained::ExplainedTree;
use ag_grammar::limits::MAX_NODES;
use ag_value::{NoMemory, Value};
use agoutput::write_text;
use origins::{DecodeFault, LastRecord, Row, record_of};
use std::io::Write;
use tree_index::{NodePath, SentenceWalk, TreeFault, body_before};
use tree_text::ShowFault;
use treefile::Device;

/// If the buffer has at least this number of bytes, it is written to the output. The buffer saves a
/// write for each line, and this limit keeps the buffer small.
const BUFFER_BYTES: usize = 65_536;

impl<'a> ExplainedTree<'a> {
    /// Reads the body of the frame that ends at the offset `end` in bytes. Fails with R1 if no frame
    /// ends there, with D1 if a call of the device fails, and if memory is refused.
    fn read_body<D: Device>(&self, end: u64, device: &mut D) -> Result<Vec<u8>, TreeFault>
        ensures read { IfOk result (λ body. WhenHonest (D.is_honest device.new)
            (body_at (D.content device.old) end ≡ Ok body.items)) }
        ensures content { LeavesContent (D.is_honest device.new)
            (D.content device.old) (D.content device.new) }
        ensures persists { Persists (D.is_honest device.old) (D.is_honest device.new)
            (D.failures device.old) (D.failures device.new) (IsErrOf result TreeFault.Device) }
    {
        Ok(body_before(self.alloc, device, end)?)
    }

    /// Reads the record of node `node`, whose path is `path`, in the file of the last pass. Writes
    /// a line for each rule in which an error arises at this node. Returns the number of such
    /// rules: 0 for a token, or if the index does not have the node. Fails with R1 if the record is
    /// damaged, with D1 if a call of the device fails, and if memory is refused.
    fn write_errors_at<D: Device>(
        &self,
        out: &mut String,
        path: &NodePath,
        node: u32,
        device: &mut D,
    ) -> Result<u64, ShowFault>
        ensures content { LeavesContent (D.is_honest device.new)
            (D.content device.old) (D.content device.new) }
        ensures persists { Persists (D.is_honest device.old) (D.is_honest device.new)
            (D.failures device.old) (D.failures device.new)
            (IsErrOf result (ShowFault.Tree TreeFault.Device)) }
    {
        let grammar = self.format.grammar;
        let found = (self.index.item(grammar, node), self.index.end(node));
        let (Some(item), Some(end)) = found else {
            return Ok(0);
        };
        let body = self.read_body(end, device)?;
        match record_of(self.alloc, grammar, item, body.as_slice()) {
            Ok(LastRecord::Node(number, values)) => {
                Ok(self.write_errors_among(out, path, number, values.as_slice())?)
            }
            Ok(LastRecord::Token) => Ok(0),
            Err(DecodeFault::Damaged) => Err(ShowFault::Tree(TreeFault::Damaged(end))),
            Err(DecodeFault::NoMemory) => Err(ShowFault::NoMemory),
        }
    }

    /// Writes a line for each rule in which an error arises at a node. `number` is that of the
    /// node's production. `values` are those of the node's record; they have to be well (of the
    /// right form and within the limits). Returns the number of such rules; 0 if the grammar does
    /// not have the production.
    fn write_errors_among(
        &self,
        out: &mut String,
        path: &NodePath,
        number: u16,
        values: &[Value],
    ) -> Result<u64, NoMemory>
        requires well { All IsWell values.now }
    {
        let grammar = self.format.grammar;
        if grammar.productions().len() <= number as usize {
            return Ok(0);
        }
        let production = &grammar.productions()[number as usize];
        let row = Row {
            grammar,
            production,
            values,
        };
        self.write_errors_in(out, path, number, &row)
    }

    /// Writes a line for each rule in which an error arises at the row's node. `number` is that of
    /// the row's production. Returns the number of such rules. Like `is_arising`, it requires that
    /// each rule has an argument for each distinct occurrence in its expression.
    fn write_errors_in(
        &self,
        out: &mut String,
        path: &NodePath,
        number: u16,
        row: &Row<'_>,
    ) -> Result<u64, NoMemory>
        requires arguments { Each (λ (r : TheRule). length r.args ≡ length r.expr.occurrences)
            row.now.production.now.rules }
    {
        let mut count = 0u64;
        let mut index = 0u16;
        for rule in row.production.rules.as_slice() {
            if row.is_arising(self.alloc, rule)? {
                write!(out, "{path}  ")?;
                self.write_rule(out, number, index)?;
                self.write_position(out, number, index)?;
                out.push('\n')?;
                count = count.saturating_add(1);
            }
            index = index.saturating_add(1);
        }
        Ok(count)
    }
}

/// Prints a line for each rule in which an error arises, at each node of a tree, and then the
/// number of these lines. A line has the path of the node, the rule and the rule's position. Visits
/// the nodes in the order of the sentence: each before its children, and these from left to right.
/// The caller has to check that the file is of the last pass; for another file the lines mean
/// nothing. Fails with R1 if a record is damaged, with D1 if a call of the device fails, with O2 if
/// the output fails, and if memory is refused. Some of the lines may have been printed before a
/// failure.
pub fn write_errors<D: Device, W: Write>(
    tree: &ExplainedTree<'_>,
    device: &mut D,
    out: &mut W,
) -> Result<(), ShowFault>
    ensures content { LeavesContent (D.is_honest device.new)
        (D.content device.old) (D.content device.new) }
    ensures persists { Persists (D.is_honest device.old) (D.is_honest device.new)
        (D.failures device.old) (D.failures device.new)
        (IsErrOf result (ShowFault.Tree TreeFault.Device)) }
{
    let mut walk = SentenceWalk::new(tree.alloc, tree.format.grammar, tree.index);
    let mut buffer = String::new(tree.alloc);
    let mut count = 0u64;
    // the prover needs a bound: the index of a file has at most `MAX_NODES` nodes
    for _node in 0..MAX_NODES {
        let Some(visit) = walk.next()? else {
            break;
        };
        let here = tree.write_errors_at(&mut buffer, walk.path(), visit.node, device)?;
        count = count.saturating_add(here);
        if BUFFER_BYTES <= buffer.len() {
            flush(&mut buffer, out)?;
        }
    }
    match count {
        1 => writeln!(buffer, "errors arise in 1 rule")?,
        _ => writeln!(buffer, "errors arise in {count} rules")?,
    }
    flush(&mut buffer, out)
}

/// Writes the buffer to the output, and empties the buffer. Fails with O2 if the output fails, and
/// with no other fault.
fn flush<W: Write>(buffer: &mut String, out: &mut W) -> Result<(), ShowFault>
    ensures { IfErr result (λ fault. fault ≡ ShowFault.Write) }
{
    let Ok(()) = write_text(out, buffer.as_str()) else {
        return Err(ShowFault::Write);
    };
    buffer.clear();
    Ok(())
}
