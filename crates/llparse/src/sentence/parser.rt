//! The state of parsing a sentence, and its steps.
ghost use Rattle.std.specs.Prelude.{◌≡◌, ◌≤◌, ◌<◌, ◌+◌, ◌++◌, ◌∷◌, [], Bool, true, false, All};
ghost use Rattle.std.specs.Prelude.{drop, length, Some, None};
ghost use Rattle.std.specs.Prelude.{option_map, IfErr, IfOk, IfSome, IsErrOf, OnErr, OnOk};
ghost use Rattle.ag_value.specs.Well.{IsWell};
ghost use Rattle.ag_grammar.specs.declared.grammar.Item.TheVariants as item;
ghost use Rattle.ag_grammar.specs.grammars.AttributeGrammar.{Grammar as AGrammar};
ghost use Rattle.ag_grammar.specs.grammars.Tree.{IsTokenText, max_depth, max_nodes};
ghost use Rattle.ag_scan.specs.TokenReader.{reader_at, offset_at};
ghost use Rattle.treefile.specs.framing.Beginning.{AddsFrames};
ghost use Rattle.treefile.specs.devices.Device.{WhenHonest};
ghost use Rattle.treefile.specs.records.TreeFile.{version_two};
ghost use Rattle.llparse.specs.Ahead.{ahead_of};
ghost use Rattle.llparse.specs.sentence.Parsing.{leaf_frame, node_frame, right_side};
ghost use Rattle.llparse.specs.sentence.Refusals.{BreaksWriter, IsResourceFault};
ghost use Rattle.llparse.specs.sentence.Sentences.{words_of};
ghost use Rattle.llparse.specs.table.Tables.{choice_of};
ghost use Rattle.llparse.specs.sentence.Turns.{left_of, IsAtSymbol, IsAtItem, IsFull, Leads, Advances, IsBetween};
ghost use Rattle.llparse.specs.sentence.Turns.{FitsTables, FitsTokens, Refuses, Writes};

use crate::ahead::Ahead;
use crate::sentence::parse_fault::ParseFault;
use crate::sentence::tokens::{expect, next_of, unexpected};
use crate::table::lookup::Tables;
use ag_grammar::limits::{MAX_DEPTH, MAX_NODES};
use ag_grammar::{Grammar, Item, Terminal};
use ag_scan::{Sentence, Tokens};
use ag_value::{Text, Value};
use std::alloc::Global;
use treefile::{Device, Kind, Writer};

/// An open node: its production, the number of items of its right side that are passed, and the
/// number of token texts that the parser kept when the node was opened. The texts of its own tokens
/// come after those.
#[derive(Clone, Copy, PartialEq, Eq)]
pub(crate) struct OpenProduction {
    pub(crate) production: u16,
    pub(crate) passed: u16,
    pub(crate) base: usize,
}

/// Returns the next item of an open node, and moves the node past it. Returns `None` at the node's
/// end.
#[inline(always)]
pub(crate) fn next_item(grammar: &Grammar, node: &mut OpenProduction) -> Option<Item>
    requires { node.old.production < length grammar.now.productions }
    ensures { Advances (right_side grammar.now node.old.production) node.old result node.new }
{
    let production = &grammar.productions()[node.production as usize];
    let item = production
        .items
        .as_slice()
        .get(node.passed as usize)
        .copied()?;
    node.passed += 1;
    Some(item)
}

/// Returns an open node of a symbol with the production that a look-ahead predicts, and none of its
/// items passed; `None` if no production is predicted. `base` is the number of texts that the
/// parser has kept.
#[inline(always)]
pub(crate) fn node_at(
    tables: &Tables,
    symbol: u16,
    ahead: Ahead,
    base: usize,
) -> Option<OpenProduction>
    ensures begins { IfSome result (λ node. node.passed ≡ 0) }
    ensures base { IfSome result (λ node. node.base ≡ base) }
    ensures chosen { choice_of tables.now symbol ahead
        ≡ option_map (λ node. node.production) result }
{
    match tables.choice(symbol, ahead) {
        Some(production) => Some(OpenProduction {
            production,
            passed: 0,
            base,
        }),
        None => None,
    }
}

/// Returns an open node of a symbol with the production that the next token, or the end, predicts,
/// and none of its items passed. `base` is the number of texts that the parser has kept. Fails with
/// P1 if no production is predicted.
#[inline(always)]
pub(crate) fn new_node(
    tables: &Tables,
    tokens: &Tokens<'_>,
    symbol: u16,
    base: usize,
) -> Result<OpenProduction, ParseFault>
    ensures begins { IfOk result (λ node. node.passed ≡ 0) }
    ensures base { IfOk result (λ node. node.base ≡ base) }
    ensures chosen { IfOk result (λ node. choice_of tables.now symbol
        (ahead_of (drop tokens.now.taken (words_of tokens.now.list))) ≡ Some node.production) }
    ensures none { OnErr result (choice_of tables.now symbol
        (ahead_of (drop tokens.now.taken (words_of tokens.now.list))) ≡ None) }
    ensures offset { IfErr result (λ e.
        e ≡ ParseFault.Unexpected (offset_at tokens.now.list tokens.now.taken)) }
{
    match node_at(tables, symbol, next_of(tokens), base) {
        Some(node) => Ok(node),
        None => Err(unexpected(tokens)),
    }
}

/// A token of a class, which is a leaf of the tree: its class, and its text.
#[derive(Clone, Copy)]
struct Leaf<'t> {
    class: u16,
    lex: &'t str,
}

/// Appends the record of a leaf, and keeps its text after the others. Fails with D1 if the device
/// fails, and with NoMemory if memory is refused.
#[inline(always)]
fn put_leaf<D: Device>(
    alloc: Global,
    leaf: &Leaf<'_>,
    texts: &mut Vec<Value>,
    device: &mut D,
    writer: &mut Writer,
) -> Result<(), ParseFault>
    requires text { IsTokenText leaf.now.lex.now }
    requires room { writer.old.written < max_nodes }
    requires fine { writer.old.is_broken ≡ false }
    ensures frame { OnOk result (WhenHonest (D.is_honest device.new)
        (D.content device.new ≡ D.content device.old
        ++ leaf_frame leaf.now.class leaf.now.lex.now)) }
    ensures kept { OnOk result
        (texts.new.items ≡ texts.old.items ++ Value.Text leaf.now.lex.now ∷ []) }
    ensures counted { OnOk result
        (writer.new ≡ record writer.old { written = writer.old.written + 1 }) }
    ensures adds { WhenHonest (D.is_honest device.new)
        (AddsFrames (D.content device.old) (D.content device.new) result) }
    ensures refuses { IfErr result IsResourceFault }
    ensures device { BreaksWriter D.is_honest D.failures device.old device.new
        writer.new.is_broken (IsErrOf result ParseFault.Device) }
{
    let values = [Value::Text(Text::from_str(alloc, leaf.lex)?)];
    writer.put(device, Kind::Token, leaf.class, &values)?;
    let [text] = values;
    texts.push(text).map_err(|_| ParseFault::NoMemory)?;
    Ok(())
}

/// Appends the record of a symbol's node, with the texts of the tokens of a class among its
/// children. Fails as `put_leaf` does.
#[inline(always)]
pub(crate) fn put_node<D: Device>(
    production: u16,
    texts: &[Value],
    device: &mut D,
    writer: &mut Writer,
) -> Result<(), ParseFault>
    requires few { length texts.now ≤ version_two.max_values }
    requires well { All IsWell texts.now }
    requires room { writer.old.written < max_nodes }
    requires fine { writer.old.is_broken ≡ false }
    ensures frame { OnOk result (WhenHonest (D.is_honest device.new)
        (D.content device.new ≡ D.content device.old ++ node_frame production texts.now)) }
    ensures counted { OnOk result
        (writer.new ≡ record writer.old { written = writer.old.written + 1 }) }
    ensures adds { WhenHonest (D.is_honest device.new)
        (AddsFrames (D.content device.old) (D.content device.new) result) }
    ensures refuses { IfErr result IsResourceFault }
    ensures device { BreaksWriter D.is_honest D.failures device.old device.new
        writer.new.is_broken (IsErrOf result ParseFault.Device) }
{
    // Most nodes have no texts. `put` is inlined: for a list that is known to be empty, the
    // compiler drops the tests that `put` makes of the values.
    if texts.is_empty() {
        writer.put(device, Kind::Node, production, &[])?;
        return Ok(());
    }
    writer.put(device, Kind::Node, production, texts)?;
    Ok(())
}

/// The state of parsing a sentence. `waiting` has the open nodes around the innermost one, the
/// outermost first. `texts` has the texts of the tokens of a class among the children of open
/// nodes, those of the innermost node last. `tokens` is the position in the tokens. `count` is the
/// number of nodes opened so far; it includes leaves, and the root from the beginning. A waiting
/// node takes sixteen bytes.
#[derive(Drop)]
pub(crate) struct Parser<'t> {
    pub(crate) waiting: Vec<OpenProduction>,
    pub(crate) texts: Vec<Value>,
    pub(crate) tokens: Tokens<'t>,
    pub(crate) count: u32,
}

impl<'t> Parser<'t> {
    /// Makes a parser with no node open, which has taken no token. `count` already includes the
    /// root, which the caller opens.
    pub(crate) fn new(alloc: Global, sentence: &'t Sentence<'_>) -> Parser<'t>
        ensures waiting { result.waiting.items ≡ [] }
        ensures texts { result.texts.items ≡ [] }
        ensures tokens { result.tokens ≡ reader_at sentence.now 0 }
        ensures count { result.count ≡ 1 }
    {
        Parser {
            waiting: Vec::new(alloc),
            texts: Vec::new(alloc),
            tokens: sentence.tokens(),
            count: 1,
        }
    }

    /// Checks that one more node, below the waiting nodes and the innermost one, is within the
    /// limits. Fails with P2 if it would be too deep, and otherwise with P3 if it would be one node
    /// too many.
    #[inline(always)]
    pub(crate) fn has_room(&self) -> Result<(), ParseFault>
        ensures room { OnOk result ((length self.now.waiting.items + 1 < max_depth)
            × (self.now.count < max_nodes)) }
        ensures full { IfErr result (IsFull self.now) }
    {
        if self.waiting.len() + 1 >= MAX_DEPTH {
            return Err(ParseFault::TooDeep);
        }
        if self.count >= MAX_NODES {
            return Err(ParseFault::TooManyNodes);
        }
        Ok(())
    }

    /// Returns the kept texts after the first `base`.
    #[inline(always)]
    pub(crate) fn texts_from(&self, base: usize) -> &[Value]
        requires { base ≤ length self.now.texts.items }
        ensures { result.now ≡ drop base self.now.texts.items }
    {
        &self.texts[base..]
    }

    /// Opens a node of the symbol that `outer` has just passed. `outer` waits until this node ends.
    /// Fails with P1 if no production is predicted, with P2 or P3 if a limit is reached, and with
    /// NoMemory if memory is refused. Clause `steps`: the bound of the steps that remain falls, so
    /// that the parse ends. Clause `counted`: the number of waiting nodes and the count rise by the
    /// same number. Clause `calm`: the fault is never D1, since no device is called.
    #[inline(always)]
    pub(crate) fn open(
        &mut self,
        tables: &Tables,
        outer: OpenProduction,
        symbol: u16,
    ) -> Result<OpenProduction, ParseFault>
        ensures opens { IfOk result (λ node. Leads (FitsTables tables.now) self.old.tokens.list
            (λ k. IsAtSymbol k symbol outer self.old) (λ k. IsBetween k node self.new)) }
        ensures refuses { IfErr result (Refuses (FitsTables tables.now) self.old.tokens.list
            (λ k. IsAtSymbol k symbol outer self.old)) }
        ensures tokens { self.new.tokens ≡ self.old.tokens }
        ensures steps { IfOk result (λ node. (g : AGrammar)
            → left_of g node self.new < left_of g outer self.old) }
        ensures counted { OnOk result (length self.new.waiting.items + self.old.count
            ≡ length self.old.waiting.items + self.new.count) }
        ensures calm { IsErrOf result ParseFault.Device → ⊥ }
    {
        let node = new_node(tables, &self.tokens, symbol, self.texts.len())?;
        self.has_room()?;
        let Ok(()) = self.waiting.push(outer) else {
            return Err(ParseFault::NoMemory);
        };
        self.count += 1;
        Ok(node)
    }

    /// Takes the next token. If its terminal is a class, appends its record and keeps its text.
    /// Fails with P1 if there is no token, or if the token's terminal is not `terminal`. For a
    /// class, fails with P2 or P3 if a limit is reached, and as `put_leaf` does. Clause `written`:
    /// the nodes counted so far are those whose records are written, those that wait, and the
    /// innermost one.
    #[inline(always)]
    pub(crate) fn take<D: Device>(
        &mut self,
        alloc: Global,
        terminal: Terminal,
        device: &mut D,
        writer: &mut Writer,
    ) -> Result<(), ParseFault>
        requires fits { (g : AGrammar) × FitsTokens self.old.tokens.list g }
        requires written { writer.old.written + length self.old.waiting.items + 1
            ≡ self.old.count }
        requires fine { writer.old.is_broken ≡ false }
        // `honest` is the field of `Task`: whether the device is honest when the parse ends. A
        // device that is honest then is honest after this call too.
        ensures takes { OnOk result ((node : OpenProduction) (honest : Bool)
            → (honest ≡ true → D.is_honest device.new ≡ true)
            → Writes (FitsTokens self.old.tokens.list) self.old.tokens.list
            honest (D.content device.old) (D.content device.new)
            (λ k. IsAtItem k (item.Terminal terminal) node self.old)
            (λ k. IsBetween k node self.new)) }
        ensures refuses { (node : OpenProduction)
            → IfErr result (Refuses (FitsTokens self.old.tokens.list) self.old.tokens.list
            (λ k. IsAtItem k (item.Terminal terminal) node self.old)) }
        ensures list { OnOk result (self.new.tokens.list ≡ self.old.tokens.list) }
        ensures waiting { OnOk result (self.new.waiting.items ≡ self.old.waiting.items) }
        ensures count { OnOk result (self.old.count ≤ self.new.count) }
        ensures written { OnOk result
            (writer.new.written + length self.new.waiting.items + 1 ≡ self.new.count) }
        ensures fine { OnOk result (writer.new.is_broken ≡ false) }
        ensures adds { WhenHonest (D.is_honest device.new)
            (AddsFrames (D.content device.old) (D.content device.new) result) }
        ensures device { BreaksWriter D.is_honest D.failures device.old device.new
            writer.new.is_broken (IsErrOf result ParseFault.Device) }
    {
        let lex = expect(&self.tokens, terminal)?;
        if let Terminal::Class(class) = terminal {
            self.has_room()?;
            let leaf = Leaf { class, lex };
            put_leaf(alloc, &leaf, &mut self.texts, device, writer)?;
            self.count += 1;
        }
        self.tokens.advance();
        Ok(())
    }
}
