//! Resolved productions: names are replaced by numbers, and offsets are kept for the faults. The
//! limits are not checked yet, so the number of a symbol may have more than 16 bits.

use ag_value::Items;

/// The item at a place of a production. Place 0 is the left side. The symbols and classes of the
/// right side have the places 1, 2 and so on, and a literal has none.
#[derive(Clone, Copy)]
pub enum PlacedItem {
    /// A symbol, by its number, and the offset of its name. The number of an undeclared one is the
    /// count of declared symbols.
    Symbol(usize, usize),
    /// A token of the class with this number: 0 is NAME, 1 is NUMBER, 2 is TEXT.
    Class(u16),
}

/// What an attribute is to the production in which it occurs.
#[derive(Clone, Copy, PartialEq, Eq)]
pub enum Role {
    /// The production's rules define it: it is synthesized at place 0, or inherited at a later
    /// place.
    Defined,
    /// The production's rules may use it: it is inherited at place 0, or synthesized at a later
    /// place. The attribute `lex` of a token counts as synthesized.
    Used,
    /// It does not exist: its place does not, or the item there has no attribute of its name.
    Unknown,
    /// The symbol at its place is not declared. This is a fault of the symbol's name, so nothing is
    /// said of the attribute.
    Hidden,
}

/// An occurrence of an attribute as the target of a rule, which the rule defines, or as an argument
/// of a rule, which the rule's expression uses.
#[derive(Clone, Copy)]
pub struct Reference {
    /// The offset of the occurrence.
    pub at: usize,
    /// The place.
    pub place: usize,
    /// The number of the attribute at its place, or the count of attributes there if none of them
    /// has the name.
    pub attr: usize,
    /// The role of the attribute.
    pub role: Role,
    /// Whether this is a target.
    pub is_target: bool,
}

/// A production.
#[derive(Drop)]
pub struct ResolvedProduction {
    /// The items at its places, the left side first.
    pub places: Items<PlacedItem>,
    /// The references of its rules: of each rule the target, and then the arguments.
    pub references: Items<Reference>,
}
