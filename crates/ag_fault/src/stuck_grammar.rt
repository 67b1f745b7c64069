//! A grammar for which no assignment of passes is legal, with the certificate of that.

use ag_grammar::Grammar;
use passassign::Stuck;
use std::fmt;

/// A grammar for which no assignment of passes to its attributes is legal, with the certificate
/// that shows this. A value prints as A1 and the attributes to which no pass can be assigned, as in
/// `A1 R.out A.s A.i`.
#[derive(Drop)]
pub struct StuckGrammar {
    /// The certificate: the attributes to which no pass can be assigned, and why.
    pub stuck: Stuck,
    /// The grammar, which has the attributes' names.
    pub grammar: Grammar,
}

/// Prints the certificate alone, since a `Grammar` has no `Debug`.
impl fmt::Debug for StuckGrammar {
    fn fmt<W: fmt::Write>(&self, f: &mut fmt::Formatter<W>) -> fmt::Result {
        write!(f, "{:?}", self.stuck)
    }
}
