//! What the object of a fault has beside its message.

use ag_fault::Fault;
use message_texts::grammar_text::{GrammarText, Span};
use message_texts::grammars::related::{
    RelatedPlace, missing_rules, related_to_conflict, related_to_normal,
};
use message_texts::grammars::stuck::offset_of_stuck;
use messages::offset_of_fault;
use std::alloc::{AllocError, Global};

/// What the object of a fault has beside its message.
#[derive(Drop)]
pub struct FaultDetails {
    /// The part of the text that the fault is about. None if it is about no part.
    pub place: Option<Span>,
    /// The occurrences, such as `$1.env`, for which rules are missing (N6).
    pub rules: Vec<String>,
    /// Other places that the fault is about.
    pub related: Vec<RelatedPlace>,
}

impl FaultDetails {
    /// Returns the details of a fault without a place.
    pub fn none(alloc: Global) -> FaultDetails {
        FaultDetails {
            place: None,
            rules: Vec::new(alloc),
            related: Vec::new(alloc),
        }
    }

    /// Returns the details of a fault of a grammar's text. The place is the token at the fault's
    /// offset; after A1 it is that of the first rule which the message names. Fails if memory is
    /// refused.
    pub fn of(
        alloc: Global,
        fault: &Fault,
        text: &GrammarText<'_>,
    ) -> Result<FaultDetails, AllocError> {
        let mut details = FaultDetails::none(alloc);
        let at = match fault {
            Fault::Assign(grammar) => offset_of_stuck(&grammar.stuck, text),
            _ => offset_of_fault(fault, text),
        };
        details.place = at.map(|at| text.token_at(at));
        match fault {
            Fault::Normal(fault) => {
                details.rules = missing_rules(fault, text)?;
                details.related = related_to_normal(fault, text)?;
            }
            Fault::Table(fault) => details.related = related_to_conflict(*fault, text)?,
            _ => {}
        }
        Ok(details)
    }
}
