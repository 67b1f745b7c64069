//! The reader that the parser uses: a cursor over the tokens of an expression, the occurrences read
//! so far, and the names in scope at the cursor.

ghost use Rattle.std.specs.Prelude.{◌≡◌, ◌++◌, ◌∷◌, [], Some, true, IfOk, OnOk, is_some, option_map};
ghost use Rattle.ag_tokens.specs.Lexing.{token_of};
ghost use Rattle.ag_tokens.specs.Parsing.{next_token, is_end, is_sign, next, sees};
ghost use Rattle.ag_tokens.specs.GrammarToken as tokens;
ghost use Rattle.ag_tokens.specs.declared.token.Punctuation.TheVariants as punctuation;
ghost use Rattle.ag_expr.specs.language.Names as names_spec;
ghost use Rattle.ag_expr.specs.language.Reading as reading;
ghost use Rattle.ag_expr.specs.language.State as state;
ghost use Rattle.ag_expr.specs.language.State.{HasIndex, KeepsContext, NextIsOther, Reads, ReadsAs};
ghost use Rattle.ag_expr.specs.language.State.{ChangesOnlyScope, input};
ghost use Rattle.ag_expr.specs.language.Syntax as syntax;
ghost use Rattle.ag_grammar.specs.expressions.Occurrences.{AreDifferent};

use crate::fault::ExprFault;
use crate::names::{Scope, call_of, is_reserved};
use crate::occurrence_table::OccurrenceTable;
use ag_grammar::Occ;
use ag_tokens::{Cursor, GrammarToken, Punctuation, TokenFault, is_mark, is_word};
use ag_value::NoMemory;
use smallvec::SmallVec;
use std::alloc::Global;
use std::marker::Model;

/// A reader of the tokens of an expression. These are all tokens of the reader's cursor or, for a
/// *statement* (an expression followed by a `;`), those before the first `;`.
///
/// The methods of a reader that read a given kind of token fail with `refusal` if the next token is
/// of another kind or missing.
#[derive(Drop)]
pub struct Reader<'t> {
    alloc: Global,
    cursor: Cursor<'t>,
    occurrences: OccurrenceTable<'t>,
    scope: Scope<'t>,
    is_statement: bool,
}

impl<'t> Model for Reader<'t> {
    ghost use Rattle.ag_expr.specs.language.State.{State};

    ghost Value = { State };

    ghost view = { λ r. record {
      listed = r.occurrences;
      scope = r.scope;
      is_statement = r.is_statement;
      tokens = r.cursor;
    } };
}

/// Returns the fault for a cursor at an offset where parsing can't continue. The fault is X1 if no
/// token begins with the character there, and X3 if the number or the place of the token there is
/// above its limit. It is X2 at any other token, and at the end of the text.
#[tactic(auto, using(crate::proofs::language::States::reported_is))]
pub fn refusal(cursor: &Cursor<'_>) -> ExprFault
    ensures { result ≡ reading.refusal cursor.now }
{
    let at = cursor.offset();
    match cursor.fault() {
        Some(TokenFault::Nothing) => ExprFault::NoToken(at),
        Some(TokenFault::TooLarge) => ExprFault::NumberTooLarge(at),
        None => ExprFault::Unexpected(at),
    }
}

/// Returns the next token of a statement: `next_token`, or `None` if `next_token` is a `;`, which
/// ends the tokens of a statement.
fn before_semicolon(next_token: Option<GrammarToken<'_>>) -> Option<GrammarToken<'_>>
    ensures { option_map token_of result ≡ state.before_end true (option_map token_of next_token.entry) }
{
    match next_token {
        Some(token) if is_mark(Punctuation::Semicolon, token) => None,
        _ => next_token,
    }
}

/// Returns whether an expression can begin with the name: `let`, `if`, the name of a call, or a
/// name in scope.
fn begins_with(scope: &Scope<'_>, name: &str) -> bool
    ensures { result ≡ state.begins_here scope.now (tokens.Name name.now) }
{
    name == "let"
        || name == "if"
        || call_of(name).is_some()
        || !is_reserved(name) && scope.binding_of(name).is_some()
}

/// Returns whether an expression can begin with the token, with these names in scope.
fn begins_expression(scope: &Scope<'_>, token: GrammarToken<'_>) -> bool
    ensures { result ≡ state.begins_here scope.now (token_of token.entry) }
{
    match token {
        GrammarToken::Number(_) | GrammarToken::Text(_) | GrammarToken::Occurrence(_, _) => true,
        GrammarToken::Name(name) => begins_with(scope, name),
        GrammarToken::Punctuation(mark) => matches!(
            mark,
            Punctuation::Open | Punctuation::OpenList | Punctuation::OpenTable
        ),
    }
}

impl<'t> Reader<'t> {
    /// Returns a reader of all tokens of a cursor, or, for a statement, of those before the first
    /// `;`.
    pub fn new(alloc: Global, cursor: Cursor<'t>, is_statement: bool) -> Reader<'t>
        ensures { result ≡ state.start is_statement cursor.entry }
    {
        Reader {
            alloc,
            cursor,
            occurrences: OccurrenceTable::new(alloc),
            scope: Scope::new(alloc),
            is_statement,
        }
    }

    /// Returns the allocator for everything that the parser builds.
    pub fn alloc(&self) -> Global {
        self.alloc
    }

    /// Returns the next token, or `None` at the end of the tokens and where no token can be read.
    #[tactic(auto, using(crate::proofs::language::States::prefix_is))]
    pub fn peek(&self) -> Option<GrammarToken<'t>>
        ensures { option_map token_of result ≡ next_token (input self.now) }
    {
        let next_token = self.cursor.peek();
        if self.is_statement {
            return before_semicolon(next_token);
        }
        next_token
    }

    /// Returns the fault for the case that the next token cannot be accepted: that of `refusal` for
    /// the cursor. At a `;` that ends the tokens this is X2 at its offset, as at the end of a text.
    #[tactic(auto, using(crate::proofs::language::States::refusal_is))]
    pub fn refusal(&self) -> ExprFault
        ensures { result ≡ reading.refusal (input self.now) }
    {
        refusal(&self.cursor)
    }

    /// Returns the fault for an expression that would begin here with no level left: X4 if the next
    /// token can begin an expression, else `refusal`.
    #[tactic(auto, using(crate::proofs::language::States::too_deep, crate::proofs::language::States::not_begun, crate::proofs::language::States::none_begun))]
    pub fn level_fault(&self) -> ExprFault
        ensures { result ≡ state.level_fault self.now }
    {
        match self.peek() {
            Some(token) if begins_expression(&self.scope, token) => ExprFault::TooDeep(
                self.cursor.offset(),
            ),
            _ => self.refusal(),
        }
    }

    /// Advances past the next token, which must be there. Does not add it to the occurrences, even
    /// if it is one: `take_occurrence` does that.
    pub fn bump(&mut self)
        requires { is_some (next_token (input self.old)) ≡ true }
        ensures exact { self.new ≡ state.after_token self.old }
        ensures tokens { input self.new ≡ next (input self.old) }
        ensures keeps { NextIsOther self.old → KeepsContext self.old self.new }
    {
        self.cursor.bump();
    }

    /// Reads the next token, which is this occurrence, and returns its index among the distinct
    /// occurrences. Takes memory only for the first occurrence of a place and a name. Fails with
    /// `NoMemory`.
    #[tactic(auto, using(crate::proofs::language::States::taken_number))]
    pub fn take_occurrence(&mut self, place: u16, attr: &'t str) -> Result<usize, NoMemory>
        requires { next_token (input self.old) ≡ Some (tokens.Occurrence place attr.now) }
        ensures number { IfOk result (λ k. HasIndex self.old place attr.now k) }
        ensures tokens { OnOk result (input self.new ≡ next (input self.old)) }
        ensures keeps { OnOk result (KeepsContext self.old self.new) }
    {
        let at = self.cursor.offset();
        let number = self.occurrences.intern(self.alloc, place, attr, at)?;
        self.cursor.bump();
        Ok(number)
    }

    /// Binds a name as the innermost one. Fails with `NoMemory` if the scope cannot grow.
    #[tactic(auto, unfolding(crate::specs::language::State::complete_list, crate::specs::language::State::input,))]
    pub fn bind(&mut self, name: &'t str) -> Result<(), NoMemory>
        ensures names { OnOk result (self.new.scope ≡ self.old.scope ++ name.now ∷ []) }
        ensures others { OnOk result (ChangesOnlyScope self.old self.new) }
    {
        self.scope.bind(name)
    }

    /// Removes the innermost name, if there is one.
    #[tactic(auto, unfolding(crate::specs::language::State::complete_list, crate::specs::language::State::input,))]
    pub fn unbind(&mut self)
        ensures names { self.new.scope ≡ names_spec.without_innermost self.old.scope }
        ensures others { ChangesOnlyScope self.old self.new }
    {
        self.scope.unbind();
    }

    /// Returns the index of the innermost binding of a name, or `None` if it is not bound.
    pub fn binding_of(&self, name: &str) -> Option<usize>
        ensures { result ≡ names_spec.binding_in self.now.scope name.now }
    {
        self.scope.binding_of(name)
    }

    /// Returns whether the tokens end here: at the end of the text, or, in a statement, at a `;`.
    #[tactic(auto, using(crate::proofs::language::States::ends_is))]
    pub fn is_at_end(&self) -> bool
        ensures { result ≡ is_end (input self.now).ending (input self.now).left }
    {
        match self.cursor.peek() {
            Some(token) => self.is_statement && is_mark(Punctuation::Semicolon, token),
            None => self.cursor.is_at_end(),
        }
    }

    /// Returns whether the next token of the text is a `;`, at which `peek` returns `None` in a
    /// statement.
    pub fn sees_semicolon(&self) -> bool
        ensures { result
            ≡ sees (is_sign (tokens.mark punctuation.Semicolon)) self.now.tokens }
    {
        match self.cursor.peek() {
            Some(token) => is_mark(Punctuation::Semicolon, token),
            None => false,
        }
    }

    /// Returns the distinct occurrences that were read, and the cursor.
    pub fn into_parts(self) -> (SmallVec<Occ, 4>, Cursor<'t>)
        ensures listed { result.0.items ≡ self.entry.listed }
        ensures distinct_occurrences { AreDifferent result.0.items }
        ensures tokens { result.1 ≡ self.entry.tokens }
    {
        (self.occurrences.into_list(), self.cursor)
    }

    /// Returns whether the next token is this punctuation.
    pub fn sees(&self, mark: Punctuation) -> bool
        ensures { result ≡ sees (is_sign (tokens.mark mark)) (input self.now) }
    {
        match self.peek() {
            Some(token) => is_mark(mark, token),
            None => false,
        }
    }

    /// Returns whether the next token is this name.
    pub fn sees_word(&self, name: &str) -> bool
        ensures { result ≡ sees (is_sign (tokens.word name.now)) (input self.now) }
    {
        match self.peek() {
            Some(token) => is_word(name, token),
            None => false,
        }
    }

    /// Reads this punctuation. Fails only if it is not the next token, with `refusal`.
    pub fn expect(&mut self, mark: Punctuation) -> Result<(), ExprFault>
        ensures { Reads (λ _ _. reading.expect (tokens.mark mark)) self.old result self.new }
    {
        match self.peek() {
            Some(token) if is_mark(mark, token) => {
                self.bump();
                Ok(())
            }
            _ => Err(self.refusal()),
        }
    }

    /// Reads this name. Fails only if it is not the next token, with `refusal`.
    pub fn expect_word(&mut self, name: &str) -> Result<(), ExprFault>
        ensures { Reads (λ _ _. reading.expect (tokens.word name.now)) self.old result self.new }
    {
        match self.peek() {
            Some(token) if is_word(name, token) => {
                self.bump();
                Ok(())
            }
            _ => Err(self.refusal()),
        }
    }

    /// Reads a name that is not reserved in expressions. Fails only if the next token is not such a
    /// name, with `refusal`.
    pub fn new_name(&mut self) -> Result<&'t str, ExprFault>
        ensures { ReadsAs (λ name. name.now) (λ _ _. reading.token_as syntax.new_name)
            self.old result self.new }
    {
        match self.peek() {
            Some(GrammarToken::Name(name)) if !is_reserved(name) => {
                self.bump();
                Ok(name)
            }
            _ => Err(self.refusal()),
        }
    }
}
