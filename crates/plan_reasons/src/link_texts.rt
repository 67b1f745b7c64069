//! The line of a link: the target of the link's rule, the rule's position, the argument, and why a
//! pass can't evaluate the rule.

use crate::attributes::OccurrenceName;
use crate::explanation::{Explanation, MAX_LINES, write_others};
use crate::links::{Geometry, Link};
use ag_grammar::Direction;
use ag_value::NoMemory;
use message_parts::Position;
use message_parts::display::PlainText;
use std::alloc::AllocError;

impl Explanation<'_> {
    /// Writes the beginning of a link's line, up to the reason.
    pub(crate) fn write_rule(&self, out: &mut String, link: &Link) -> Result<(), AllocError> {
        let (computed, used) = (self.name_of(link.computed()), self.name_of(link.used));
        let target = OccurrenceName {
            grammar: self.grammar,
            place: link.target.place,
            attribute: link.computed(),
        };
        let argument = OccurrenceName {
            grammar: self.grammar,
            place: link.argument.place,
            attribute: link.used,
        };
        let Position { line, column } = self.position_of(link.strike);
        let name = PlainText(self.source.name);
        write!(
            out,
            "  {computed}: `{target}` ({name}:{line}:{column}) uses `{argument}` ({used}), "
        )
    }

    /// Writes a line for each link, with the reason why no pass of a direction can evaluate the
    /// link's rule: at most `MAX_LINES` lines, and then the number of the others.
    pub(crate) fn write_stuck_links(
        &self,
        out: &mut String,
        direction: Direction,
        links: &[Link],
    ) -> Result<(), NoMemory> {
        for link in links.iter().take(MAX_LINES) {
            self.write_rule(out, link)?;
            link.write_stuck_reason(out, direction)?;
            out.push_str("\n")?;
        }
        write_others(out, links.len())
    }
}

impl Link {
    /// Writes why pass `pass` can't evaluate the link's rule. Pass `computing` computes the link's
    /// argument.
    pub(crate) fn write_reason(
        &self,
        out: &mut String,
        pass: u16,
        computing: u16,
    ) -> Result<(), AllocError> {
        let (child, other) = (self.target.place, self.argument.place);
        match self.geometry(Direction::of_pass(pass)) {
            Geometry::Within => write!(
                out,
                "which pass {computing} computes only during its visit of ${child}"
            ),
            Geometry::Later if computing == pass => write!(
                out,
                "which pass {pass} computes, but it visits ${other} after ${child}"
            ),
            Geometry::Later => write!(
                out,
                "which pass {computing} computes, and pass {pass} visits ${other} after ${child}"
            ),
            Geometry::AtHand => write!(out, "which pass {computing} computes"),
        }
    }

    /// Writes why no pass of a direction can evaluate the link's rule.
    fn write_stuck_reason(&self, out: &mut String, direction: Direction) -> Result<(), AllocError> {
        let (child, other) = (self.target.place, self.argument.place);
        match self.geometry(direction) {
            Geometry::Within => write!(out, "which is known only after the visit of ${child}"),
            Geometry::Later => write!(out, "and ${other} is visited after ${child}"),
            Geometry::AtHand => out.push_str("which no pass computes"),
        }
    }
}
