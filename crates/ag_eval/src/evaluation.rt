//! The value of an expression. A function that returns a `Result` with `NoMemory` fails only if
//! memory is refused, or if a shared value has 2^64 - 1 owners.

ghost use Rattle.std.specs.Prelude.{◌≡◌, ◌+◌, ◌-◌, ◌^◌, ◌<◌, ◌≤◌, length, map, true, IfOk};
ghost use Rattle.std.specs.Prelude.{IfSome, IsTrue, MatchResult, OnOk, List, [], ◌∷◌, ◌++◌};
ghost use Rattle.std.specs.Prelude.{cond};
ghost use Rattle.ag_value.specs.Well.{IsWell};
ghost use Rattle.ag_value.specs.declared.value.Value.{Value as AttributeValue};
ghost use Rattle.ag_value.specs.declared.value.Value.TheVariants as value;
ghost use Rattle.ag_grammar.specs.expressions.Evaluation.{AreWell, chain_value, item_values, value_in};
ghost use Rattle.ag_grammar.specs.expressions.Evaluation.{value_of};
ghost use Rattle.ag_eval.specs.Conditions.{decision};
ghost use Rattle.ag_eval.specs.declared.operand.Held.{Held as HeldValue};
ghost use Rattle.ag_eval.specs.Operands.{IsIn, each_within, held_value, operand_value, ref_value, scalar_value};
ghost use Rattle.ag_grammar.specs.expressions.Trees.{all_below, is_within};
ghost use Rattle.ag_grammar.specs.values.Calls.{binary_call_result, choice_of, put};
ghost use Rattle.ag_value.specs.operations.Lists.{listed};

use crate::available::{copied, literal_value};
use crate::bindings::Bindings;
use crate::calls::{apply, call_binary, call_put, call_unary, fault};
use crate::environment::{ByValue, Env, Lender, Loan};
use crate::list_builder::ListBuilder;
use crate::measured::Measured;
use crate::meter::Meter;
use crate::operand::{Held, Operand};
use crate::scalar::Scalar;
use crate::value_ref::ValueRef;
use ag_carried::Carried;
use ag_grammar::{BinaryCall, Expr, Node, Operator};
use ag_value::{ErrorCode, Items, NoMemory, Value};
use std::alloc::Global;

/// The evaluation of an expression, in an environment that lends a well value for each of its
/// occurrences.
pub struct Evaluation<'e, V: Lender> {
    alloc: Global,
    expr: &'e Expr,
    env: &'e V,
    ghost lends: { length expr.now.occurrences ≤ V.count env.now },
    // `∥ P ∥₁` states P
    ghost well: { ∥ AreWell (length expr.now.occurrences) (V.lent env.now) ∥₁ },
}

impl<'e, V: Lender> Drop for Evaluation<'e, V> {
    fn drop(self) {
        let Self {
            alloc: _,
            expr: _,
            env: _,
        } = self;
    }
}

impl<'e, V: Lender> Evaluation<'e, V> {
    /// Makes the evaluation of an expression in an environment.
    pub fn new(alloc: Global, expr: &'e Expr, env: &'e V) -> Evaluation<'e, V>
        requires lends { length expr.now.occurrences ≤ V.count env.now }
        requires well { AreWell (length expr.now.occurrences) (V.lent env.now) }
        ensures expr { result.expr ≡ expr.entry }
        ensures env { result.env ≡ env.entry }
    {
        Evaluation { alloc, expr, env }
    }

    /// Lends the tree of the expression.
    pub fn tree(&self) -> &'e Node
        ensures value { result.now ≡ self.now.expr.now.tree }
        ensures below { is_within (length self.now.expr.now.occurrences) result.now 0 ≡ true }
    {
        self.expr.tree()
    }

    /// Lends the value of the occurrence with this number, if it is stored as a `Value`.
    #[inline(always)]
    pub fn occurrence(&self, k: usize) -> Option<&'e Value>
        requires { k < length self.now.expr.now.occurrences }
        ensures value { IfSome result (λ v. v.now ≡ V.lent self.now.env.now k) }
        ensures well { IfSome result (λ v. IsWell v.now) }
    {
        match self.env.loan(k) {
            Loan::Value(value) => Some(value),
            Loan::Carried(carried) => Some(carried.as_value()?),
        }
    }

    /// Returns the value of the occurrence with this number as a scalar, if it is one.
    #[inline(always)]
    pub fn scalar_occurrence(&self, k: usize) -> Option<Scalar>
        requires { k < length self.now.expr.now.occurrences }
        ensures { IfSome result (λ s. scalar_value s ≡ V.lent self.now.env.now k) }
    {
        self.env.loan(k).scalar()
    }

    /// Returns the value of the occurrence with this number. A shared text is shared, a number or
    /// an error that is not stored as a `Value` is copied, and every other value is lent.
    #[inline(always)]
    fn held_occurrence(&self, k: usize) -> Result<Held<'e>, NoMemory>
        requires { k < length self.now.expr.now.occurrences }
        ensures { IfOk result (λ h. held_value h ≡ V.lent self.now.env.now k) }
    {
        match self.env.loan(k) {
            Loan::Value(value) => Ok(Held::from_lent(value)),
            Loan::Carried(carried) => Held::from_carried(self.alloc, carried),
        }
    }

    /// Evaluates a part of the expression, with these bindings around it. After a success the
    /// bindings are unchanged. After a failure no caller uses them any more, so the contract claims
    /// nothing of them. Fails with `NoMemory` if memory is refused.
    #[cycle(evaluating)]
    #[tactic(auto, using(ag_grammar::proofs::expressions::Trees::parts))]
    fn operand_of(
        &self,
        node: &'e Node,
        bindings: &mut Bindings<'e>,
    ) -> Result<Operand<'e>, NoMemory>
        requires below { is_within (length self.now.expr.now.occurrences) node.now (length bindings.old) ≡ true }
        ensures value { OnOk result (IfOk result (λ o. operand_value bindings.new o
            ≡ value_in node.now (V.lent self.now.env.now) bindings.old)) }
        ensures within { IfOk result (λ o. IsIn bindings.new o) }
        ensures unchanged { OnOk result (bindings.new ≡ bindings.old) }
    {
        match node {
            Node::Literal(literal) => Ok(Operand::Held(literal_value(literal))),
            Node::Occurrence(k) => Ok(Operand::Held(self.held_occurrence(*k)?)),
            Node::Bound(k) => Ok(Operand::Bound(*k)),
            Node::Chain(first, others) => {
                let value = self.operand_of(first.get(), bindings)?;
                self.chain_of(value, others.as_slice(), bindings)
            }
            Node::Let(definition, body) => {
                let definition = self.operand_of(definition.get(), bindings)?;
                self.body_of(definition, body.get(), bindings)
            }
            Node::If(condition, one, other) => {
                let condition = self.operand_of(condition.get(), bindings)?;
                match decide(condition, &*bindings) {
                    Ok(true) => self.operand_of(one.get(), bindings),
                    Ok(false) => self.operand_of(other.get(), bindings),
                    Err(code) => Ok(fault(code)),
                }
            }
            Node::Unary(call, argument) => {
                let argument = self.operand_of(argument.get(), bindings)?;
                call_unary(self.alloc, *call, argument, &*bindings)
            }
            Node::Binary(call, first, second) => {
                let first = self.operand_of(first.get(), bindings)?;
                self.binary_of(*call, first, second.get(), bindings)
            }
            Node::Put(table, key, item) => {
                let table = self.operand_of(table.get(), bindings)?;
                let key = self.operand_of(key.get(), bindings)?;
                self.put_of(table, key, item.get(), bindings)
            }
            Node::List(items) => self.list_of(items.as_slice(), bindings),
            Node::EmptyTable => Ok(empty_table(self.alloc)),
        }
    }

    /// Evaluates the body of a `let`, given the value of the definition.
    #[cycle(evaluating)]
    fn body_of(
        &self,
        definition: Operand<'e>,
        body: &'e Node,
        bindings: &mut Bindings<'e>,
    ) -> Result<Operand<'e>, NoMemory>
        requires definition { IsIn bindings.old definition }
        requires below { is_within (length self.now.expr.now.occurrences) body.now
            (length (bindings.old ++ operand_value bindings.old definition ∷ [])) ≡ true }
        ensures value { OnOk result (IfOk result (λ o. operand_value bindings.new o
            ≡ value_in body.now (V.lent self.now.env.now)
            (bindings.old ++ operand_value bindings.old definition.entry ∷ []))) }
        ensures within { IfOk result (λ o. IsIn bindings.new o) }
        ensures unchanged { OnOk result (bindings.new ≡ bindings.old) }
    {
        let held = definition.into_held(self.alloc, &*bindings)?;
        bindings.bind(held)?;
        let operand = self.operand_of(body, bindings)?;
        Ok(bindings.unbind(operand))
    }

    /// Evaluates a call of two arguments, given the value of the first.
    #[cycle(evaluating)]
    fn binary_of(
        &self,
        call: BinaryCall,
        first: Operand<'e>,
        second: &'e Node,
        bindings: &mut Bindings<'e>,
    ) -> Result<Operand<'e>, NoMemory>
        requires first { IsIn bindings.old first }
        requires below { is_within (length self.now.expr.now.occurrences) second.now (length bindings.old) ≡ true }
        ensures value { OnOk result (IfOk result (λ o. operand_value bindings.new o
            ≡ binary_call_result call (operand_value bindings.old first.entry)
            (value_in second.now (V.lent self.now.env.now) bindings.old))) }
        ensures within { IfOk result (λ o. IsIn bindings.new o) }
        ensures unchanged { OnOk result (bindings.new ≡ bindings.old) }
    {
        if is_first_result(call, &first, &*bindings) {
            return Ok(first);
        }
        let second = self.operand_of(second, bindings)?;
        call_binary(self.alloc, call, first, second, &*bindings)
    }

    /// Evaluates a `put`, given the values of the table and the key.
    #[cycle(evaluating)]
    fn put_of(
        &self,
        table: Operand<'e>,
        key: Operand<'e>,
        item: &'e Node,
        bindings: &mut Bindings<'e>,
    ) -> Result<Operand<'e>, NoMemory>
        requires table { IsIn bindings.old table }
        requires key { IsIn bindings.old key }
        requires below { is_within (length self.now.expr.now.occurrences) item.now (length bindings.old) ≡ true }
        ensures value { OnOk result (IfOk result (λ o. operand_value bindings.new o
            ≡ put (operand_value bindings.old table.entry) (operand_value bindings.old key.entry)
            (value_in item.now (V.lent self.now.env.now) bindings.old))) }
        ensures within { IfOk result (λ o. IsIn bindings.new o) }
        ensures unchanged { OnOk result (bindings.new ≡ bindings.old) }
    {
        let item = self.operand_of(item, bindings)?;
        call_put(self.alloc, table, &key, item, &*bindings)
    }

    /// Evaluates the rest of a chain from the left. `so_far` is the value of the chain before this
    /// rest.
    #[cycle(evaluating)]
    fn chain_of(
        &self,
        so_far: Operand<'e>,
        others: &'e [(Operator, Node)],
        bindings: &mut Bindings<'e>,
    ) -> Result<Operand<'e>, NoMemory>
        requires first { IsIn bindings.old so_far }
        requires below { all_below (length self.now.expr.now.occurrences) (length bindings.old) others.now ≡ true }
        ensures value { OnOk result (IfOk result (λ o. operand_value bindings.new o
            ≡ chain_value (V.lent self.now.env.now) bindings.old (operand_value bindings.old so_far.entry)
            (map (λ p. (p.0, value_in p.1)) others.now))) }
        ensures within { IfOk result (λ o. IsIn bindings.new o) }
        ensures unchanged { OnOk result (bindings.new ≡ bindings.old) }
    {
        let mut value = so_far;
        for other in others {
            if let Some(next) = self.next_scalar(&value, other, &*bindings) {
                value = value.replaced(next);
            } else {
                let right = self.operand_of(&other.1, bindings)?;
                value = apply(self.alloc, other.0, value, right, &*bindings)?;
            }
        }
        Ok(value)
    }

    /// Evaluates `[a, ..]`: the list of the items, or the leftmost error among them.
    #[cycle(evaluating)]
    #[tactic(auto, unfolding(ag_value::specs::operations::Arguments::leftmost))]
    fn list_of(
        &self,
        items: &'e [Node],
        bindings: &mut Bindings<'e>,
    ) -> Result<Operand<'e>, NoMemory>
        requires below { each_within (length self.now.expr.now.occurrences) (length bindings.old) items.now ≡ true }
        ensures value { OnOk result (IfOk result (λ o. operand_value bindings.new o
            ≡ listed (item_values (V.lent self.now.env.now) bindings.old (map value_in items.now)))) }
        ensures within { IfOk result (λ o. IsIn bindings.new o) }
        ensures unchanged { OnOk result (bindings.new ≡ bindings.old) }
    {
        let mut list = ListBuilder::new(self.alloc);
        for item in items {
            let item = self.operand_of(item, bindings)?;
            if let Some(code) = item.fault(&*bindings) {
                return Ok(fault(code));
            }
            list.push(item.into_owned(self.alloc, &*bindings)?)?;
        }
        Ok(Operand::owned(list.into_list()))
    }

    /// Evaluates the expression. First tries two ways that need no `Operand`, since most rules are
    /// flat expressions: the expression is one occurrence or literal, or `scalar` computes its
    /// value.
    #[inline(never)]
    fn value(&self) -> Result<Value, NoMemory>
        ensures value { IfOk result (λ v. v
            ≡ value_of self.now.expr.now.tree (V.lent self.now.env.now)) }
        ensures well { IfOk result (λ v. IsWell v) }
    {
        if let Some(value) = self.lent_value() {
            return copied(self.alloc, value);
        }
        let mut bindings = Bindings::new(self.alloc);
        if let Some(scalar) = self.scalar(self.tree(), &bindings) {
            return Ok(scalar.into_value());
        }
        let operand = self.operand_of(self.tree(), &mut bindings)?;
        Ok(operand.into_owned(self.alloc, &bindings)?.into_value())
    }

    /// Returns the value of the expression as a carried one. The value of an occurrence is shared,
    /// except a number or an error.
    #[inline(never)]
    pub fn carried(&self) -> Result<Carried, NoMemory>
        ensures value { IfOk result (λ v. v
            ≡ value_of self.now.expr.now.tree (V.lent self.now.env.now)) }
        ensures well { IfOk result (λ v. IsWell v) }
    {
        let mut bindings = Bindings::new(self.alloc);
        if let Some(scalar) = self.scalar(self.tree(), &bindings) {
            return Carried::new(self.alloc, scalar.into_value());
        }
        let operand = self.operand_of(self.tree(), &mut bindings)?;
        operand.into_carried(self.alloc, &bindings)
    }
}

/// Returns true only if the value of a call is that of its first argument, whatever the second one
/// is. The caller then doesn't evaluate the second one. Returns true for `orelse` if the first
/// argument is not an error, and false otherwise.
fn is_first_result(call: BinaryCall, first: &Operand<'_>, bindings: &Bindings<'_>) -> bool
    requires { IsIn bindings.now first.now }
    ensures { IsTrue result → (second : AttributeValue)
        → binary_call_result call (operand_value bindings.now first.now) second
        ≡ operand_value bindings.now first.now }
{
    if call != BinaryCall::OrElse {
        return false;
    }
    first.fault(bindings).is_none()
}

/// Returns the empty table. Takes no memory.
fn empty_table<'e>(alloc: Global) -> Operand<'e>
    ensures { result ≡ Operand.Held (HeldValue.Owned (value.Table [])) }
{
    Operand::owned(Measured::new(Value::Table(Items::from_vec(Vec::new(alloc)))))
}

/// Returns whether a condition holds: whether its number is not 0. If the condition is an error,
/// fails with that error. If it is a text, a list or a table, fails with the error `kind`. In the
/// contract, e and f are any values of the two branches of the `if`.
#[tactic(auto, using(crate::proofs::Decided::chooses))]
fn decide(condition: Operand<'_>, bindings: &Bindings<'_>) -> Result<bool, ErrorCode>
    requires { IsIn bindings.now condition }
    ensures { (e f : AttributeValue) → MatchResult result
        (λ holds. choice_of (operand_value bindings.now condition.entry) e f ≡ cond holds e f)
        (λ code. choice_of (operand_value bindings.now condition.entry) e f ≡ value.Fault code) }
{
    decided(condition.get(bindings))
}

/// Returns whether a value holds as a condition. Fails as `decide` does.
fn decided(condition: ValueRef<'_>) -> Result<bool, ErrorCode>
    ensures { result ≡ decision (ref_value condition.entry) }
{
    match condition {
        ValueRef::Plain(Value::Num(number)) => Ok(*number != 0),
        ValueRef::Plain(Value::Fault(code)) => Err(*code),
        _ => Err(ErrorCode::Kind),
    }
}

/// Computes the value of an expression. `env` lends the values of its occurrences. Raises the meter
/// by one evaluation, also if memory is refused. Fails with `NoMemory` if memory is refused.
/// Requires that `env` lends a well value for each occurrence of the expression, and that the meter
/// is not full.
///
/// Takes memory for values that it makes, and for copies. It copies:
///
/// - a value that the environment or the expression lends, if it is the result;
/// - a value that is lent or bound, if it becomes an item of a list or table, or is extended;
/// - a list that is lent or bound, if a short list is extended by it (`++`);
/// - the part that `nth` or `get` takes of a value that the expression made;
/// - a value that the expression made and bound, if another name is bound to it too.
///
/// A text of more than 256 bytes that `++` makes shares the bytes of operands that are shared
/// texts; other operands become shared texts, and are copied for that if they are lent or bound. A
/// table of more than 16 pairs that `put` gets becomes a tree, and a list of more than 16 items
/// that `append` or `++` makes is a tree. Trees share nodes. Such a text or tree is copied if it is
/// the result or an item of a list or table, and by some operators and calls (README.md, "How large
/// values are evaluated").
#[inline(always)]
pub fn eval<V: Env>(
    alloc: Global,
    expr: &Expr,
    env: &V,
    meter: &mut Meter,
) -> Result<Value, NoMemory>
    requires lends { length expr.now.occurrences ≤ V.count env.now }
    requires well { AreWell (length expr.now.occurrences) (V.lent env.now) }
    requires not_full { meter.old < 2 ^ 64 - 1 }
    ensures value { IfOk result (λ v. v ≡ value_of expr.now.tree (V.lent env.now)) }
    ensures well { IfOk result (λ v. IsWell v) }
    ensures counted { meter.new ≡ meter.old + 1 }
{
    meter.count_one();
    let lender = ByValue { env };
    let evaluation = Evaluation::new(alloc, expr, &lender);
    if let Some(scalar) = evaluation.flat_scalar() {
        return Ok(scalar.into_value());
    }
    evaluation.value()
}
