//! Why no pass computes some attributes of a grammar.

use crate::chains::stuck_links;
use crate::explanation::Explanation;
use crate::links::{Link, obstacles_of};
use ag_grammar::Direction;
use ag_value::NoMemory;
use message_parts::Attribute;
use passassign::Stuck;

/// The directions of passes: that of pass 1, then that of pass 2.
const DIRECTIONS: [Direction; 2] = [Direction::RightToLeft, Direction::LeftToRight];

impl Explanation<'_> {
    /// Writes the obstacles of one direction (`obstacles_of`), with the reason of each. The
    /// direction is the one with fewer obstacles, or that of pass 1 if both have the same number.
    /// Then writes the attributes that the grammar may not need (`write_hints`). Fails if memory is
    /// refused.
    pub fn write_stuck(&self, out: &mut String, stuck: &Stuck) -> Result<(), NoMemory> {
        let (alloc, grammar) = (self.alloc, self.grammar);
        let odd = obstacles_of(alloc, grammar, Direction::RightToLeft, stuck.odd.as_slice())?;
        let even = obstacles_of(
            alloc,
            grammar,
            Direction::LeftToRight,
            stuck.even.as_slice(),
        )?;
        if even.len() < odd.len() {
            self.write_obstacles(out, Direction::LeftToRight, even.as_slice())?;
        } else {
            self.write_obstacles(out, Direction::RightToLeft, odd.as_slice())?;
        }
        self.write_hints(out)
    }

    /// Writes the obstacles `links` of passes of a direction, with the reason of each: at most
    /// `MAX_LINES` of them, and then the number of the others.
    fn write_obstacles(
        &self,
        out: &mut String,
        direction: Direction,
        links: &[Link],
    ) -> Result<(), NoMemory> {
        let name = direction.name();
        let noun = if links.len() == 1 {
            "this rule"
        } else {
            "these rules"
        };
        writeln!(
            out,
            "no plan computes all attributes, passes {name} wait for {noun}:"
        )?;
        self.write_stuck_links(out, direction, links)
    }

    /// Writes why no pass of either direction computes an attribute, or that the attribute is not
    /// in the certificate's set. Fails if memory is refused.
    pub fn write_stuck_attribute(
        &self,
        out: &mut String,
        stuck: &Stuck,
        attribute: Attribute,
    ) -> Result<(), NoMemory> {
        let name = self.name_of(attribute);
        if !stuck.set.as_slice().contains(&attribute) {
            writeln!(
                out,
                "{name} is not one of the attributes that no pass computes"
            )?;
            return Ok(());
        }
        writeln!(out, "no pass computes {name}")?;
        for direction in DIRECTIONS {
            writeln!(out, "\npasses {} can't compute {name}:", direction.name())?;
            let links = stuck_links(self.alloc, self.grammar, stuck, direction, attribute)?;
            self.write_stuck_links(out, direction, links.as_slice())?;
        }
        Ok(())
    }
}
