//! Why the attributes of a plan have their passes.

use crate::chains::LeastPlan;
use crate::explanation::{Explanation, MAX_LINES, write_others};
use ag_grammar::Direction;
use ag_value::NoMemory;
use message_parts::Attribute;

/// The greatest number of passes that are explained for one attribute.
const MAX_EXPLAINED_PASSES: u16 = 20;

impl Explanation<'_> {
    /// Writes the number of passes. For each pass after pass 1 that has attributes, writes why the
    /// pass before can't compute one of these attributes. Then writes the attributes that the
    /// grammar may not need (`write_hints`). Fails if memory is refused.
    pub fn write_plan(&self, out: &mut String, plan: &LeastPlan<'_>) -> Result<(), NoMemory> {
        let passes = plan.assignment.passes();
        let noun = if passes == 1 { "pass" } else { "passes" };
        writeln!(out, "{passes} {noun}, no plan has fewer")?;
        for pass in 1..passes {
            let next = pass.saturating_add(1);
            if let Some(attribute) = plan.first_struck(pass, next) {
                let name = self.name_of(attribute);
                let direction = Direction::of_pass(pass).name();
                writeln!(
                    out,
                    "\npass {next} computes {name}, since pass {pass} ({direction}) can't:"
                )?;
                self.write_chain(out, plan, pass, attribute)?;
            }
        }
        self.write_hints(out)
    }

    /// Writes the pass of an attribute. Then writes for each earlier pass, the latest one first,
    /// why that pass can't compute the attribute. Explains at most 20 passes, and then names the
    /// others. An attribute without a pass is written as one of pass 1. Fails if memory is refused.
    pub fn write_attribute(
        &self,
        out: &mut String,
        plan: &LeastPlan<'_>,
        attribute: Attribute,
    ) -> Result<(), NoMemory> {
        let name = self.name_of(attribute);
        let own = plan.pass_of(attribute).unwrap_or(1);
        if own == 1 {
            writeln!(out, "pass 1 computes {name}, and no pass is earlier")?;
            return Ok(());
        }
        writeln!(out, "pass {own} computes {name}")?;
        let earlier = own.saturating_sub(1);
        for back in 0..earlier.min(MAX_EXPLAINED_PASSES) {
            let pass = earlier.saturating_sub(back);
            let direction = Direction::of_pass(pass).name();
            writeln!(out, "\npass {pass} ({direction}) can't compute {name}:")?;
            self.write_chain(out, plan, pass, attribute)?;
        }
        match earlier.saturating_sub(MAX_EXPLAINED_PASSES) {
            0 => Ok(()),
            1 => Ok(writeln!(out, "\npass 1 can't compute it either")?),
            others => Ok(writeln!(out, "\npasses {others} to 1 can't compute it either")?),
        }
    }

    /// Writes a line for each link of the chain of an attribute that a pass can't compute: at most
    /// `MAX_LINES` lines, and then the number of the others. An argument without a pass is written
    /// as one of `pass`.
    fn write_chain(
        &self,
        out: &mut String,
        plan: &LeastPlan<'_>,
        pass: u16,
        attribute: Attribute,
    ) -> Result<(), NoMemory> {
        let links = plan.links(self.alloc, self.grammar, pass, attribute)?;
        for link in links.as_slice().iter().take(MAX_LINES) {
            self.write_rule(out, link)?;
            link.write_reason(out, pass, plan.pass_of(link.used).unwrap_or(pass))?;
            out.push_str("\n")?;
        }
        write_others(out, links.len())
    }
}
