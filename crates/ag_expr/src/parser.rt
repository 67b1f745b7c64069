//! The recursive-descent parser of expressions.

ghost use Rattle.std.specs.Prelude.{◌≡◌, ◌∷◌, [], Some, IfOk};
ghost use Rattle.ag_expr.specs.language.Syntax as syntax;
ghost use Rattle.ag_expr.specs.language.Syntax.{closer};
ghost use Rattle.ag_expr.specs.language.State.{Reads, ReadsAs, input};
ghost use Rattle.ag_tokens.specs.Lexing.{token_of};
ghost use Rattle.ag_tokens.specs.Parsing.{next_token, further_from, sees, meaning_of, offset};
ghost use Rattle.ag_expr.specs.language.Chains as chains;
ghost use Rattle.ag_expr.specs.language.Reading as reading;
ghost use Rattle.ag_expr.specs.language.Reading.{atom_from, expr_in, other_from, ranked_from};
ghost use Rattle.ag_tokens.specs.GrammarToken as token;

use crate::fault::ExprFault;
use crate::names::{Call, call_of, is_reserved};
use crate::reader::Reader;
use ag_grammar::{Literal, Node, Operator};
use ag_tokens::{GrammarToken, Punctuation, unescaped};
use ag_value::{Boxed, Items, NoMemory};
use std::alloc::Global;

/// A precedence of operators. The variants are in order, from the weakest to the strongest. A chain
/// is a list of operands with operators of one precedence between them. Its operands are chains of
/// the next stronger precedence. The operands of a chain of the strongest precedence are atoms.
#[derive(Clone, Copy, PartialEq, Eq)]
enum Precedence {
    /// `==` and `<`; a chain has at most one of these.
    Comparison,
    /// `++`.
    Join,
    /// `+` and `-`, between terms.
    Sum,
    /// `*`, `div` and `mod`, between factors.
    Product,
}

/// Returns whether a chain of this precedence has at most one operator.
fn takes_one(precedence: Precedence) -> bool
    ensures { result ≡ syntax.takes_one precedence }
{
    precedence == Precedence::Comparison
}

/// Returns the operator with this punctuation and its precedence, or `None`.
fn marked_operator(mark: Punctuation) -> Option<(Precedence, Operator)>
    ensures { result ≡ syntax.marked_operator mark }
{
    match mark {
        Punctuation::EqualEqual => Some((Precedence::Comparison, Operator::Equal)),
        Punctuation::Less => Some((Precedence::Comparison, Operator::Less)),
        Punctuation::Join => Some((Precedence::Join, Operator::Join)),
        Punctuation::Plus => Some((Precedence::Sum, Operator::Add)),
        Punctuation::Minus => Some((Precedence::Sum, Operator::Subtract)),
        Punctuation::Times => Some((Precedence::Product, Operator::Multiply)),
        _ => None,
    }
}

/// Returns the operator with this reserved name and its precedence, or `None`.
fn named_operator(name: &str) -> Option<(Precedence, Operator)>
    ensures { result ≡ syntax.named_operator name.now }
{
    if name == "div" {
        Some((Precedence::Product, Operator::Divide))
    } else if name == "mod" {
        Some((Precedence::Product, Operator::Remainder))
    } else {
        None
    }
}

/// Returns the operator that a token spells and its precedence, or `None`.
fn binary_operator(token: GrammarToken<'_>) -> Option<(Precedence, Operator)>
    ensures { result ≡ syntax.binary_operator (token_of token.entry) }
{
    match token {
        GrammarToken::Punctuation(mark) => marked_operator(mark),
        GrammarToken::Name(name) => named_operator(name),
        _ => None,
    }
}

/// Returns the operator that a token spells, if it has this precedence.
fn operator_of(precedence: Precedence, token: GrammarToken<'_>) -> Option<Operator>
    ensures { result ≡ syntax.operator_of precedence (token_of token.entry) }
{
    match binary_operator(token) {
        Some((other, operator)) => {
            if precedence == other {
                return Some(operator);
            }
            None
        }
        None => None,
    }
}

/// Returns whether `other` is *closer*: whether it binds more strongly than `precedence`.
#[tactic(auto, using(crate::proofs::language::Chains::others_closer))]
fn is_closer(precedence: Precedence, other: Precedence) -> bool
    ensures { result ≡ chains.is_among (closer precedence) other }
{
    match precedence {
        Precedence::Comparison => other != Precedence::Comparison,
        Precedence::Join => other == Precedence::Sum || other == Precedence::Product,
        Precedence::Sum => other == Precedence::Product,
        Precedence::Product => false,
    }
}

/// Returns whether a token is an operator that binds more strongly than `precedence`.
#[tactic(auto, using(crate::proofs::language::Chains::operator_among, crate::proofs::language::Chains::no_operator))]
fn is_closer_operator(precedence: Precedence, token: GrammarToken<'_>) -> bool
    ensures { result ≡ chains.is_operator_among (closer precedence) (token_of token.entry) }
{
    match binary_operator(token) {
        Some((other, _)) => is_closer(precedence, other),
        None => false,
    }
}

/// Returns whether a token is an operator.
#[tactic(auto, using(crate::proofs::language::Chains::any_operator))]
fn is_operator(token: GrammarToken<'_>) -> bool
    ensures { result ≡ chains.is_operator_among syntax.precedences (token_of token.entry) }
{
    binary_operator(token).is_some()
}

/// The form of an atom, which is an operand that contains no operator outside of brackets and
/// parentheses.
#[derive(Clone, Copy, PartialEq, Eq)]
enum Atom {
    /// An expression in parentheses.
    Parenthesized,
    /// A list.
    List,
    /// An empty table, `{}`.
    Table,
    /// A call.
    Call,
    /// A number, a text, a bound name or an occurrence. Also the form for a token that begins no
    /// atom, at which `single_operand` then fails.
    Operand,
}

/// Returns the form of the atom that begins with this punctuation.
fn marked_atom(mark: Punctuation) -> Atom
    ensures { result ≡ reading.marked_atom mark }
{
    match mark {
        Punctuation::Open => Atom::Parenthesized,
        Punctuation::OpenList => Atom::List,
        Punctuation::OpenTable => Atom::Table,
        _ => Atom::Operand,
    }
}

/// Returns the form of the atom that begins with this token.
fn atom_of(token: GrammarToken<'_>) -> Atom
    ensures { result ≡ reading.atom_of (token_of token.entry) }
{
    match token {
        GrammarToken::Punctuation(mark) => marked_atom(mark),
        GrammarToken::Name(name) if call_of(name).is_some() => Atom::Call,
        _ => Atom::Operand,
    }
}

/// Returns the tree of a chain: the first operand itself if it is the only one. Fails with
/// `NoMemory` if memory runs out.
fn chain_of(alloc: Global, first: Node, others: Vec<(Operator, Node)>) -> Result<Node, NoMemory>
    ensures { IfOk result (λ e. e ≡ syntax.chain_of first others.items) }
{
    if others.is_empty() {
        return Ok(first);
    }
    Ok(Node::Chain(Boxed::new(alloc, first)?, Items::from_vec(others)))
}

/// Returns the node of a bound name. `number` is the index of its binding among the names in scope,
/// or `None` if it is not bound. Returns `None` if the name is reserved or not bound.
fn bound_node(name: &str, number: Option<usize>) -> Option<Node>
    ensures { result ≡ syntax.bound_operand name.now number }
{
    if is_reserved(name) {
        return None;
    }
    Some(Node::Bound(number?))
}

impl<'t> Reader<'t> {
    /// Returns the next token as an operator of this precedence, or `None` if it is not one.
    fn next_operator(&self, precedence: Precedence) -> Option<Operator>
        ensures { result ≡ meaning_of (λ _. syntax.operator_of precedence)
            (offset (input self.now)) (next_token (input self.now)) }
    {
        match self.peek() {
            Some(token) => operator_of(precedence, token),
            None => None,
        }
    }

    /// Returns whether the next token is an operator of this precedence.
    fn sees_operator_of(&self, precedence: Precedence) -> bool
        ensures { result ≡ sees (reading.is_operator_of precedence) (input self.now) }
    {
        self.next_operator(precedence).is_some()
    }

    /// Returns whether the next token is an operator that binds more strongly than `precedence`.
    fn sees_closer_operator(&self, precedence: Precedence) -> bool
        ensures { result ≡ sees (chains.is_operator_among (closer precedence)) (input self.now) }
    {
        match self.peek() {
            Some(token) => is_closer_operator(precedence, token),
            None => false,
        }
    }

    /// Returns whether the next token is an operator.
    fn sees_operator(&self) -> bool
        ensures { result ≡ sees (chains.is_operator_among syntax.precedences) (input self.now) }
    {
        match self.peek() {
            Some(token) => is_operator(token),
            None => false,
        }
    }

    /// Reads an operator of this precedence. Fails with `refusal` if the next token is not one.
    fn operator(&mut self, precedence: Precedence) -> Result<Operator, ExprFault>
        ensures { Reads (λ _ _. reading.token_as (syntax.operator_of precedence))
            self.old result self.new }
    {
        match self.next_operator(precedence) {
            Some(operator) => {
                self.bump();
                Ok(operator)
            }
            None => Err(self.refusal()),
        }
    }

    /// Returns the form of the atom that begins with the next token.
    fn next_atom(&self) -> Atom
        ensures { reading.BeginsAtom result (input self.now) }
    {
        match self.peek() {
            Some(token) => atom_of(token),
            None => Atom::Operand,
        }
    }

    /// Returns the call that the next token names, or `None`.
    fn next_call(&self) -> Option<Call>
        ensures { result ≡ meaning_of (λ _. syntax.call_in)
            (offset (input self.now)) (next_token (input self.now)) }
    {
        match self.peek() {
            Some(GrammarToken::Name(name)) => call_of(name),
            _ => None,
        }
    }

    /// Reads the name of a call. Fails with `refusal` if the next token is not one.
    fn call_name(&mut self) -> Result<Call, ExprFault>
        ensures { Reads (λ _ _. reading.token_as syntax.call_in) self.old result self.new }
    {
        match self.next_call() {
            Some(call) => {
                self.bump();
                Ok(call)
            }
            None => Err(self.refusal()),
        }
    }

    /// Parses an expression of at most `levels` levels. An expression contains others in
    /// parentheses, lists, calls, `let` and `if`. Its number of levels is one more than the
    /// greatest number of levels of these, and 1 if it contains none.
    ///
    /// Fails with `level_fault` where an expression would begin with no level left, with `refusal`
    /// at any other place where parsing can't continue, and with `NoMemory`. The other parsing
    /// functions of this file fail with `refusal` and `NoMemory`, and if an expression that they
    /// parse fails.
    #[cycle(parsing)]
    #[tactic(auto, using(crate::proofs::language::Parts::one_level), unfolding(crate::specs::language::Reading::expr_in, crate::specs::language::Reading::whole_from))]
    pub fn expression(&mut self, levels: usize) -> Result<Node, ExprFault>
        ensures { Reads (λ all. expr_in all levels) self.old result self.new }
    {
        if levels == 0 {
            return Err(self.level_fault());
        }
        if self.sees_word("let") {
            return self.binding(levels - 1);
        }
        if self.sees_word("if") {
            return self.conditional(levels - 1);
        }
        self.chain(levels - 1)
    }

    /// Parses an expression of at most `levels` levels, and boxes its tree.
    #[cycle(parsing)]
    fn boxed(&mut self, levels: usize) -> Result<Boxed<Node>, ExprFault>
        ensures { Reads (λ all. expr_in all levels) self.old result self.new }
    {
        let tree = self.expression(levels)?;
        Ok(Boxed::new(self.alloc(), tree)?)
    }

    /// Parses a `let` whose parts have at most `levels` levels.
    #[cycle(parsing)]
    #[tactic(auto, using(crate::proofs::Scopes::outer_end), unfolding(crate::specs::language::Reading::let_from))]
    fn binding(&mut self, levels: usize) -> Result<Node, ExprFault>
        ensures { Reads (λ all. reading.let_from (expr_in all levels)) self.old result self.new }
    {
        self.expect_word("let")?;
        let name = self.new_name()?;
        self.expect(Punctuation::Equal)?;
        let definition = self.boxed(levels)?;
        self.expect_word("in")?;
        self.bind(name)?;
        let body = self.boxed(levels)?;
        self.unbind();
        Ok(Node::Let(definition, body))
    }

    /// Parses an `if` whose parts have at most `levels` levels.
    #[cycle(parsing)]
    #[tactic(auto, unfolding(crate::specs::language::Reading::if_from))]
    fn conditional(&mut self, levels: usize) -> Result<Node, ExprFault>
        ensures { Reads (λ all. reading.if_from (expr_in all levels)) self.old result self.new }
    {
        self.expect_word("if")?;
        let test = self.boxed(levels)?;
        self.expect_word("then")?;
        let value = self.boxed(levels)?;
        self.expect_word("else")?;
        let other = self.boxed(levels)?;
        Ok(Node::If(test, value, other))
    }

    /// Parses a chain of any precedence; the parts of its atoms have at most `levels` levels.
    ///
    /// If no operator follows the first atom, the atom is the chain. `chain_after` would return it
    /// too: the test is here only for speed, and so is the similar one in `operand`.
    #[cycle(parsing)]
    #[tactic(auto, using(crate::proofs::language::Chains::atom_alone, crate::proofs::language::Chains::by_atom))]
    fn chain(&mut self, levels: usize) -> Result<Node, ExprFault>
        ensures { Reads (λ all names.
            ranked_from (atom_from (expr_in all levels) names all) syntax.precedences)
            self.old result self.new }
    {
        let first = self.atom(levels)?;
        if !self.sees_operator() {
            return Ok(first);
        }
        self.chain_after(levels, Precedence::Comparison, first)
    }

    /// Parses the rest of a chain of this precedence after its first atom; returns the tree of the
    /// whole chain.
    #[cycle(parsing)]
    #[tactic(auto, using(crate::proofs::language::Chains::operand_alone), unfolding(crate::specs::language::Chains::ranked_after, crate::specs::language::Chains::chain_after))]
    fn chain_after(
        &mut self,
        levels: usize,
        precedence: Precedence,
        atom: Node,
    ) -> Result<Node, ExprFault>
        ensures { Reads (λ all names. chains.ranked_after (atom_from (expr_in all levels) names all)
            (precedence ∷ closer precedence) atom) self.old result self.new }
    {
        let first = self.operand_after(levels, precedence, atom)?;
        if !self.sees_operator_of(precedence) {
            return Ok(first);
        }
        let others = self.others(levels, precedence)?;
        Ok(chain_of(self.alloc(), first, others)?)
    }

    /// Parses the rest of an operand of a chain of this precedence after its first atom; returns
    /// the tree of the whole operand.
    #[cycle(parsing)]
    #[tactic(auto, unfolding(crate::specs::language::Chains::ranked_after))]
    fn operand_after(
        &mut self,
        levels: usize,
        precedence: Precedence,
        atom: Node,
    ) -> Result<Node, ExprFault>
        ensures { Reads (λ all names. chains.ranked_after (atom_from (expr_in all levels) names all)
            (closer precedence) atom) self.old result self.new }
    {
        match precedence {
            Precedence::Comparison => self.chain_after(levels, Precedence::Join, atom),
            Precedence::Join => self.chain_after(levels, Precedence::Sum, atom),
            Precedence::Sum => self.chain_after(levels, Precedence::Product, atom),
            Precedence::Product => Ok(atom),
        }
    }

    /// Parses an operand of a chain of this precedence: a chain of the next stronger precedence or,
    /// for the strongest one, an atom.
    ///
    /// If no operator that binds more strongly follows the operand's first atom, the atom is the
    /// operand.
    #[cycle(parsing)]
    #[tactic(auto, using(crate::proofs::language::Chains::atom_alone, crate::proofs::language::Chains::by_atom))]
    fn operand(&mut self, levels: usize, precedence: Precedence) -> Result<Node, ExprFault>
        ensures { Reads (λ all names.
            ranked_from (atom_from (expr_in all levels) names all) (closer precedence))
            self.old result self.new }
    {
        let first = self.atom(levels)?;
        if !self.sees_closer_operator(precedence) {
            return Ok(first);
        }
        self.operand_after(levels, precedence, first)
    }

    /// Parses the operators of a chain after its first operand, each with the operand after it. Not
    /// inlined, for speed.
    #[cycle(parsing)]
    #[inline(never)]
    #[tactic(auto, using(crate::proofs::language::Parts::shorter, crate::proofs::language::Agree::other_shortens))]
    fn others(
        &mut self,
        levels: usize,
        precedence: Precedence,
    ) -> Result<Vec<(Operator, Node)>, ExprFault>
        ensures { ReadsAs (λ others. others.items) (λ all names. further_from
            (syntax.takes_one precedence) (reading.is_operator_of precedence)
            (other_from precedence
            (ranked_from (atom_from (expr_in all levels) names all) (closer precedence))) [])
            self.old result self.new }
    {
        let mut others = Vec::new(self.alloc());
        while self.sees_operator_of(precedence) {
            let other = self.other(levels, precedence)?;
            others.push(other)?;
            if takes_one(precedence) {
                return Ok(others);
            }
        }
        Ok(others)
    }

    /// Parses an operator and the operand after it.
    #[cycle(parsing)]
    #[tactic(auto, unfolding(crate::specs::language::Reading::other_from))]
    fn other(
        &mut self,
        levels: usize,
        precedence: Precedence,
    ) -> Result<(Operator, Node), ExprFault>
        ensures { Reads (λ all names. other_from precedence
            (ranked_from (atom_from (expr_in all levels) names all) (closer precedence)))
            self.old result self.new }
    {
        let operator = self.operator(precedence)?;
        let operand = self.operand(levels, precedence)?;
        Ok((operator, operand))
    }

    /// Parses an atom whose parts have at most `levels` levels. Handles numbers first, for speed.
    #[cycle(parsing)]
    #[tactic(auto, unfolding(crate::specs::language::Reading::atom_from))]
    fn atom(&mut self, levels: usize) -> Result<Node, ExprFault>
        ensures { Reads (λ all names. atom_from (expr_in all levels) names all)
            self.old result self.new }
    {
        if let Some(GrammarToken::Number(number)) = self.peek() {
            self.bump();
            return Ok(Node::Literal(Literal::number(number)));
        }
        match self.next_atom() {
            Atom::Parenthesized => self.parenthesized(levels),
            Atom::List => self.list(levels),
            Atom::Table => self.table(),
            Atom::Call => self.call(levels),
            Atom::Operand => self.single_operand(),
        }
    }

    /// Parses an operand of one token: a number, a text, a bound name or an occurrence. `atom`
    /// reads numbers itself, and never calls this function at a number, but the contract includes
    /// numbers.
    fn single_operand(&mut self) -> Result<Node, ExprFault>
        ensures { Reads (λ all names. reading.token_as (syntax.operand_of all names))
            self.old result self.new }
    {
        match self.peek() {
            Some(GrammarToken::Number(number)) => {
                self.bump();
                Ok(Node::Literal(Literal::number(number)))
            }
            Some(GrammarToken::Text(body)) => {
                let text = unescaped(self.alloc(), body)?;
                self.bump();
                Ok(Node::Literal(Literal::text(text)))
            }
            Some(GrammarToken::Name(name)) => self.bound_operand(name),
            Some(GrammarToken::Occurrence(place, attr)) => {
                Ok(Node::Occurrence(self.take_occurrence(place, attr)?))
            }
            _ => Err(self.refusal()),
        }
    }

    /// Reads the next token, which is this name, as a bound name. Fails with `refusal` if the name
    /// is reserved or not bound.
    fn bound_operand(&mut self, name: &'t str) -> Result<Node, ExprFault>
        requires { next_token (input self.old) ≡ Some (token.Name name.now) }
        ensures { Reads (λ all names. reading.token_as (syntax.operand_of all names))
            self.old result self.new }
    {
        match bound_node(name, self.binding_of(name)) {
            Some(node) => {
                self.bump();
                Ok(node)
            }
            None => Err(self.refusal()),
        }
    }

    /// Parses an expression in parentheses.
    #[cycle(parsing)]
    #[tactic(auto, unfolding(crate::specs::language::Reading::parenthesized_from))]
    fn parenthesized(&mut self, levels: usize) -> Result<Node, ExprFault>
        ensures { Reads (λ all. reading.parenthesized_from (expr_in all levels))
            self.old result self.new }
    {
        self.expect(Punctuation::Open)?;
        let inner = self.expression(levels)?;
        self.expect(Punctuation::Close)?;
        Ok(inner)
    }

    /// Parses an empty table.
    #[tactic(auto, unfolding(crate::specs::language::Reading::table_from))]
    fn table(&mut self) -> Result<Node, ExprFault>
        ensures { Reads (λ _ _. reading.table_from) self.old result self.new }
    {
        self.expect(Punctuation::OpenTable)?;
        self.expect(Punctuation::CloseTable)?;
        Ok(Node::EmptyTable)
    }

    /// Parses a list: no items, or items separated by commas.
    #[cycle(parsing)]
    #[tactic(auto, unfolding(crate::specs::language::Reading::list_from, crate::specs::language::Reading::none_from, crate::specs::language::Reading::some_from,))]
    fn list(&mut self, levels: usize) -> Result<Node, ExprFault>
        ensures { Reads (λ all. reading.list_from (expr_in all levels)) self.old result self.new }
    {
        self.expect(Punctuation::OpenList)?;
        if self.sees(Punctuation::CloseList) {
            self.expect(Punctuation::CloseList)?;
            return Ok(Node::List(Items::from_vec(Vec::new(self.alloc()))));
        }
        let first = self.expression(levels)?;
        let items = self.items(levels, first)?;
        self.expect(Punctuation::CloseList)?;
        Ok(Node::List(Items::from_vec(items)))
    }

    /// Parses the items of a list after the first; returns all of them, the first included.
    #[cycle(parsing)]
    #[tactic(auto, using(crate::proofs::language::Parts::shorter, crate::proofs::language::Agree::next_shortens), unfolding(crate::specs::language::Reading::items_from))]
    fn items(&mut self, levels: usize, first: Node) -> Result<Vec<Node>, ExprFault>
        ensures { ReadsAs (λ items. items.items)
            (λ all names. reading.items_from (expr_in all levels) names first)
            self.old result self.new }
    {
        let mut items = Vec::new(self.alloc());
        items.push(first)?;
        while self.sees(Punctuation::Comma) {
            let item = self.next(levels)?;
            items.push(item)?;
        }
        Ok(items)
    }

    /// Parses a comma and the expression after it.
    #[cycle(parsing)]
    #[tactic(auto, unfolding(crate::specs::language::Reading::next_from))]
    fn next(&mut self, levels: usize) -> Result<Node, ExprFault>
        ensures { Reads (λ all. reading.next_from (expr_in all levels)) self.old result self.new }
    {
        self.expect(Punctuation::Comma)?;
        self.expression(levels)
    }

    /// Parses a comma and the argument after it, and boxes its tree.
    #[cycle(parsing)]
    fn argument(&mut self, levels: usize) -> Result<Boxed<Node>, ExprFault>
        ensures { Reads (λ all. reading.next_from (expr_in all levels)) self.old result self.new }
    {
        let tree = self.next(levels)?;
        Ok(Boxed::new(self.alloc(), tree)?)
    }

    /// Parses a call: its name, the opening parenthesis, the right number of arguments, and the
    /// closing parenthesis.
    #[cycle(parsing)]
    #[tactic(auto, unfolding(crate::specs::language::Reading::call_from, crate::specs::language::Reading::unary_from, crate::specs::language::Reading::binary_from, crate::specs::language::Reading::put_from))]
    fn call(&mut self, levels: usize) -> Result<Node, ExprFault>
        ensures { Reads (λ all. reading.call_from (expr_in all levels)) self.old result self.new }
    {
        let call = self.call_name()?;
        self.expect(Punctuation::Open)?;
        let first = self.boxed(levels)?;
        match call {
            Call::Unary(call) => {
                self.expect(Punctuation::Close)?;
                Ok(Node::Unary(call, first))
            }
            Call::Binary(call) => {
                let second = self.argument(levels)?;
                self.expect(Punctuation::Close)?;
                Ok(Node::Binary(call, first, second))
            }
            Call::Put => {
                let key = self.argument(levels)?;
                let value = self.argument(levels)?;
                self.expect(Punctuation::Close)?;
                Ok(Node::Put(first, key, value))
            }
        }
    }
}
