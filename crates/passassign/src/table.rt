//! A table of all attributes, with their passes so far. Each symbol has `MAX_ATTRIBUTES` slots, one
//! for each attribute that it may have.

ghost use Rattle.std.specs.Prelude.{ℕ, ◌≡◌, ◌+◌, ◌*◌, ◌/◌, ◌%◌, ◌^◌, ◌<◌, ◌≤◌, ◌↔◌, ◌++◌};
ghost use Rattle.std.specs.Prelude.{[], ◌∷◌, count_by, length};
ghost use Rattle.std.specs.Prelude.{true, false, IfOk, OnOk, Some, slice_get, unwrap_or};
ghost use Rattle.ag_grammar.specs.Lists.{Each, Has};
ghost use Rattle.ag_grammar.specs.grammars.Accepted.{max_attributes, max_symbols};
ghost use Rattle.ag_grammar.specs.grammars.AttributeGrammar.{attribute_names};
ghost use Rattle.passassign.specs.Answer.{IsInDeclaredOrder};
ghost use Rattle.passassign.specs.Rows.{numbers_of};
ghost use Rattle.passassign.specs.Tables.{max_slots, slot_of, state_at, first_state, pass_of_state, is_open};
ghost use Rattle.passassign.specs.Tables.{after_pass, is_marked, AreRowsOfTable, IsFirstTable};
ghost use Rattle.passassign.specs.declared.table.State.TheVariants.{Open};

use ag_grammar::Symbol;
use ag_grammar::limits::MAX_ATTRIBUTES;
use ag_value::NoMemory;
use std::alloc::Global;
use std::marker::Model;

/// The state of a slot of the table.
#[derive(Clone, Copy, PartialEq, Eq)]
pub(crate) enum State {
    /// The slot has no attribute.
    Absent,
    /// The attribute has no pass yet.
    Open,
    /// The attribute has this pass, from 1.
    Assigned(u16),
}

/// The slot of an attribute: the index of its state in the table. Contracts see it as a number.
#[derive(Clone, Copy)]
pub(crate) struct AttributeIndex {
    slot: usize,
}

impl Model for AttributeIndex {
    ghost Value = { ℕ };

    ghost view = { λ index. index.slot };

    ghost inverse = { λ slot. record { slot = slot } };
}

impl AttributeIndex {
    /// Returns the index of attribute `attr` of a symbol. If `attr` is below `MAX_ATTRIBUTES`, the
    /// methods `symbol` and `attr` of this index return the same two numbers.
    pub(crate) fn new(symbol: u16, attr: u16) -> AttributeIndex
        ensures slot { result ≡ slot_of symbol attr }
        ensures inverse { attr < max_attributes
            → (result / max_attributes ≡ symbol) × (result % max_attributes ≡ attr) }
    {
        AttributeIndex {
            slot: symbol as usize * MAX_ATTRIBUTES + attr as usize,
        }
    }

    /// Returns the number of the attribute's symbol.
    fn symbol(self) -> u16
        requires { self < 2 ^ 16 * max_attributes }
        ensures { result ≡ self / max_attributes }
    {
        (self.slot / MAX_ATTRIBUTES) as u16
    }

    /// Returns the number of the attribute in its symbol.
    fn attr(self) -> u16
        ensures { result ≡ self % max_attributes }
    {
        (self.slot % MAX_ATTRIBUTES) as u16
    }

    /// Returns the slot as an index of a list.
    pub(crate) fn as_usize(self) -> usize
        ensures { result ≡ self }
    {
        self.slot
    }
}

/// Returns the state of an attribute, `Absent` if the table has no such slot.
pub(crate) fn look_up(states: &[State], index: AttributeIndex) -> State
    ensures { result ≡ state_at states.now index }
{
    match states.get(index.slot) {
        Some(state) => *state,
        None => State::Absent,
    }
}

/// Returns whether a slot in this state has an attribute without a pass.
pub(crate) fn has_no_pass(state: State) -> bool
    ensures { result ≡ is_open state }
{
    match state {
        State::Absent => false,
        State::Open => true,
        State::Assigned(_) => false,
    }
}

/// Returns the initial state of the slot of attribute `attr`, from 0, of a symbol with `count`
/// attributes.
fn initial_state(attr: usize, count: usize) -> State
    ensures { result ≡ first_state count attr }
{
    if attr < count {
        State::Open
    } else {
        State::Absent
    }
}

/// Appends the `MAX_ATTRIBUTES` slots of a symbol, of which the first `count` have an attribute.
fn append_slots(states: &mut Vec<State>, count: usize) -> Result<(), NoMemory>
    ensures len { OnOk result (length states.new.items ≡ length states.old.items + max_attributes) }
    ensures kept { OnOk result ((k : ℕ) → k < length states.old.items
        → state_at states.new.items k ≡ state_at states.old.items k) }
    ensures put { OnOk result ((a : ℕ) → a < max_attributes
        → state_at states.new.items (length states.old.items + a) ≡ first_state count a) }
{
    for attr in 0..MAX_ATTRIBUTES {
        states.push(initial_state(attr, count))?;
    }
    Ok(())
}

/// Returns the table of all attributes, none of which has a pass.
pub(crate) fn open_table(alloc: Global, symbols: &[Symbol]) -> Result<Vec<State>, NoMemory>
    requires { Each (λ s. length (attribute_names s) ≤ max_attributes) symbols.now }
    ensures { IfOk result (λ states. IsFirstTable symbols.now states.items) }
{
    let mut states = Vec::new(alloc);
    for symbol in symbols {
        append_slots(&mut states, symbol.attribute_count())?;
    }
    Ok(states)
}

/// Returns the pass of an attribute, 0 if it has none.
fn pass_at(states: &[State], index: AttributeIndex) -> u16
    ensures { result ≡ unwrap_or (pass_of_state (state_at states.now index)) 0 }
{
    match look_up(states, index) {
        State::Assigned(pass) => pass,
        State::Open => 0,
        State::Absent => 0,
    }
}

/// Returns the passes of the first `count` attributes of a symbol, 0 for an attribute that has
/// none.
fn row(alloc: Global, states: &[State], symbol: u16, count: usize) -> Result<Vec<u16>, NoMemory>
    requires { count ≤ max_attributes }
    ensures len { IfOk result (λ row. length row.items ≡ count) }
    ensures passes { IfOk result (λ row. (a : ℕ) → a < count → slice_get row.items a
        ≡ Some (unwrap_or (pass_of_state (state_at states.now (slot_of symbol a))) 0)) }
{
    let mut row = Vec::new(alloc);
    for attr in 0..count {
        row.push(pass_at(states, AttributeIndex::new(symbol, attr as u16)))?;
    }
    Ok(row)
}

/// Returns a row for each symbol. The row has the passes of the symbol's attributes, and 0 for an
/// attribute that has none.
pub(crate) fn rows(
    alloc: Global,
    symbols: &[Symbol],
    states: &[State],
) -> Result<Vec<Vec<u16>>, NoMemory>
    requires count { length symbols.now ≤ max_symbols }
    requires attributes { Each (λ s. length (attribute_names s) ≤ max_attributes) symbols.now }
    ensures { IfOk result (λ rows. AreRowsOfTable symbols.now states.now (numbers_of rows.items)) }
{
    let mut rows = Vec::new(alloc);
    for (index, symbol) in symbols.iter().enumerate() {
        rows.push(row(alloc, states, index as u16, symbol.attribute_count())?)?;
    }
    Ok(rows)
}

/// Appends an attribute if `state`, its state, is `Open`. The attribute is appended as the number
/// of its symbol and its own number in the symbol.
fn append_open(
    found: &mut Vec<(u16, u16)>,
    state: State,
    index: AttributeIndex,
) -> Result<(), NoMemory>
    requires { index < 2 ^ 16 * max_attributes }
    ensures puts { OnOk result (is_open state ≡ true
        → found.new.items
        ≡ found.old.items ++ (index / max_attributes, index % max_attributes) ∷ []) }
    ensures other { OnOk result (is_open state ≡ false → found.new.items ≡ found.old.items) }
{
    if has_no_pass(state) {
        found.push((index.symbol(), index.attr()))?;
    }
    Ok(())
}

/// Returns the attributes that have no pass, each as the number of its symbol and its own number in
/// the symbol, in ascending order.
pub(crate) fn open_attributes(alloc: Global, states: &[State]) -> Result<Vec<(u16, u16)>, NoMemory>
    requires { length states.now ≤ max_slots }
    ensures all { IfOk result (λ found. (s a : ℕ)
        → Has found.items (s, a) ↔ (a < max_attributes) × (state_at states.now (slot_of s a) ≡ Open)) }
    ensures ordered { IfOk result (λ found. IsInDeclaredOrder found.items) }
{
    let mut found = Vec::new(alloc);
    for (slot, state) in states.iter().enumerate() {
        append_open(&mut found, *state, AttributeIndex { slot })?;
    }
    Ok(found)
}

/// Returns the state of an attribute after pass `pass`. `is_struck` says whether this pass strikes
/// the attribute.
fn after(state: State, pass: u16, is_struck: bool) -> State
    ensures { result ≡ after_pass pass state is_struck }
{
    match state {
        State::Absent => State::Absent,
        State::Open => if is_struck {
            State::Open
        } else {
            State::Assigned(pass)
        },
        State::Assigned(earlier) => State::Assigned(earlier),
    }
}

/// Returns whether an attribute is marked; false if `marks` ends before its slot.
fn has_mark(marks: &[bool], index: AttributeIndex) -> bool
    ensures { result ≡ is_marked marks.now index }
{
    index.slot < marks.len() && marks[index.slot]
}

/// Assigns pass `pass` to each attribute that has none and is not marked.
pub(crate) fn assign_passes(states: &mut Vec<State>, marks: &[bool], pass: u16)
    ensures len { length states.new.items ≡ length states.old.items }
    ensures after { (k : ℕ) → state_at states.new.items k
        ≡ after_pass pass (state_at states.old.items k) (is_marked marks.now k) }
{
    for slot in 0..states.len() {
        let state = after(states[slot], pass, has_mark(marks, AttributeIndex { slot }));
        states[slot] = state;
    }
}

/// Returns the number of attributes that have no pass.
pub(crate) fn count_open(states: &[State]) -> usize
    ensures { result ≡ count_by is_open states.now }
{
    states.iter().filter(|state| has_no_pass(**state)).count()
}
