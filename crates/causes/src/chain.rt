//! The chain of rules that passed an error on.

ghost use Rattle.std.specs.Prelude.{◌≡◌, ◌*◌, ◌++◌, ◌∷◌, ◌⊎◌, [], IfErr, IfNone, IfOk, IfSome, IsErrOf, IsTrue, OnOk, false};
ghost use Rattle.ag_grammar.specs.declared.limits.TheConstants.{MAX_NODES};
ghost use Rattle.causes.specs.Chains.{Follows, GoesTo, IsCause, in_content, places_of};
ghost use Rattle.causes.specs.Indexed.{GoesNowhere, HasNoChildAt, HasNoRecord, IsCauseIn, IsChainFault};
ghost use Rattle.causes.specs.Indexed.{IsNodeOf, IsNumberAt, IsSymbolAt, IsWithoutError, IsWithoutRecord};
ghost use Rattle.causes.specs.Indexed.{Leads, LeadsNowhere, Stops, StopsAfter, in_file};
ghost use Rattle.causes.specs.Rules.{ComputesNoErrorIn};
ghost use Rattle.causes.specs.declared.chain.Step.TheVariants as to;
ghost use Rattle.treefile.specs.devices.Device.{LeavesContent, Persists, WhenHonest};

use crate::next_rule::{Next, next_at};
use ag_grammar::limits::MAX_NODES;
use ag_grammar::{Grammar, Item, Target};
use ag_value::NoMemory;
use origins::{DecodeFault, LastRecord, record_of};
use std::alloc::Global;
use tree_index::{NodeKind, TreeFault, TreeIndex, body_before};
use treefile::Device;

/// The greatest number of rules of a chain that are followed: 16 for each of `MAX_NODES` nodes,
/// since a symbol has at most 16 attributes. In the solution of a tree with at most `MAX_NODES`
/// nodes no chain is that long, since no attribute of a node comes twice in a chain.
const MAX_STEPS: u32 = 16 * MAX_NODES;

/// The cause of an error.
#[derive(Drop)]
pub struct Cause {
    /// The number, in the index, of the node in whose rule the error arises.
    pub node: u32,
    /// The places of children, from 1, that lead from the root to that node.
    pub places: Vec<u16>,
    /// The number of the rule, from 0, in the production of that node.
    pub rule: u16,
    /// The number of rules that passed the error on.
    pub steps: u32,
}

/// Where a chain begins: the places from the root to a node, and the target of a rule there.
#[derive(Clone, Copy)]
pub struct ChainStart<'a> {
    /// The places of children, from 1.
    pub places: &'a [u16],
    /// The target.
    pub target: Target,
}

/// A node below the root, and its place at its parent, from 1.
#[derive(Clone, Copy)]
pub(crate) struct PathNode {
    node: u32,
    place: u16,
}

/// What following one rule leads to.
#[derive(Clone, Copy)]
pub(crate) enum Step {
    /// The next rule of the chain: the one for this target, at the node at which the chain now is.
    To(Target),
    /// The error arises in the rule of this number, at the node at which the chain is.
    Arises(u16),
    /// The chain stops without a cause. The target has no rule, the rule's value is not an error,
    /// or the argument that passes its error on has no rule. Or the index leads to no record of a
    /// production: the node is a token, its production is not one of the grammar, or the index
    /// lacks the node or the end of its record.
    Nothing,
}

/// A chain of rules, as far as it was followed. It *is at* the node of the rule that is followed
/// next.
#[derive(Drop)]
struct Chain<'a> {
    grammar: &'a Grammar,
    index: &'a TreeIndex,
    /// The nodes on the way from the root, without the root, to the node at which the chain is.
    /// Empty if the chain is at the root.
    nodes: Vec<PathNode>,
}

impl<'a> Chain<'a> {
    /// Reads the record of the node at which the chain is, and returns what the rule for a target
    /// does there. Returns `None` if `record` returns `None`, if the node has no such rule, or if
    /// the rule's value is not an error. Fails with R1 if no frame ends where the record should end
    /// (`?` makes R1 of B2), or if the frame's body is not a record of the node's symbol. Fails
    /// with D1 if a call of the device fails, and with NoMemory if memory is refused.
    fn read_next<D: Device>(
        &self,
        alloc: Global,
        target: Target,
        device: &mut D,
    ) -> Result<Option<Next>, TreeFault>
        requires leads { Leads self.now.grammar.now self.now.index.now self.now.nodes.items }
        ensures next { IfOk result (λ next. IfSome next (λ does. WhenHonest (D.is_honest device.new)
            (in_file self.now.grammar.now self.now.index.now (D.content device.old)
            (places_of self.now.nodes.items) target does))) }
        ensures none { IfOk result (λ next. IfNone next (WhenHonest (D.is_honest device.new)
            (IsWithoutRecord self.now.grammar.now self.now.index.now (places_of self.now.nodes.items)
            ⊎ IsWithoutError self.now.grammar.now self.now.index.now (D.content device.old)
            (places_of self.now.nodes.items) target))) }
        ensures fault { IfErr result (λ fault. WhenHonest (D.is_honest device.new) (IsChainFault
            self.now.grammar.now self.now.index.now (D.content device.old) fault)) }
        ensures content { LeavesContent (D.is_honest device.new)
            (D.content device.old) (D.content device.new) }
        ensures persists { Persists (D.is_honest device.old) (D.is_honest device.new)
            (D.failures device.old) (D.failures device.new) (IsErrOf result TreeFault.Device) }
    {
        let Some((end, symbol)) = self.record() else {
            return Ok(None);
        };
        let body = body_before(alloc, device, end)?;
        match record_of(alloc, self.grammar, Item::Symbol(symbol), body.as_slice()) {
            Ok(LastRecord::Node(number, values)) => {
                Ok(next_at(alloc, self.grammar, number, values.as_slice(), target)?)
            }
            Ok(LastRecord::Token) => Err(TreeFault::Damaged(end)),
            Err(DecodeFault::Damaged) => Err(TreeFault::Damaged(end)),
            Err(DecodeFault::NoMemory) => Err(TreeFault::NoMemory),
        }
    }

    /// Returns the number of the node at which the chain is.
    fn node(&self) -> u32
        requires leads { Leads self.now.grammar.now self.now.index.now self.now.nodes.items }
        ensures { IsNumberAt self.now.grammar.now self.now.index.now
            (places_of self.now.nodes.items) result }
    {
        match self.nodes.last() {
            Some(last) => last.node,
            None => 0,
        }
    }

    /// Returns the offset at which the record of the chain's node ends, and the node's symbol.
    /// Returns `None` if the node is a token, if its production is not one of the grammar, or if
    /// the index lacks the node or the end of its record.
    fn record(&self) -> Option<(u64, u16)>
        requires leads { Leads self.now.grammar.now self.now.index.now self.now.nodes.items }
        ensures end { IfSome result (λ parts. IsSymbolAt self.now.grammar.now self.now.index.now
            (places_of self.now.nodes.items) parts.0 parts.1) }
        ensures none { IfNone result (IsWithoutRecord self.now.grammar.now self.now.index.now
            (places_of self.now.nodes.items)) }
    {
        let node = self.node();
        let Some(left) = self.left_of(node) else {
            return None;
        };
        match self.index.end(node) {
            Some(end) => Some((end, left)),
            None => None,
        }
    }

    /// Returns the left side of the production of a node. Returns `None` for a token, for a node
    /// that the index does not have, and for a production that the grammar does not have.
    fn left_of(&self, node: u32) -> Option<u16>
        ensures left { IfSome result (IsNodeOf self.now.grammar.now self.now.index.now node) }
        ensures none { IfNone result (HasNoRecord self.now.grammar.now self.now.index.now node) }
    {
        let Some(NodeKind::Node(number)) = self.index.kind(node) else {
            return None;
        };
        let productions = self.grammar.productions();
        if productions.len() <= usize::from(number) {
            return None;
        }
        Some(productions[usize::from(number)].left)
    }

    /// Goes to the child at a place. Returns whether there is one; if not, stays at the node. Fails
    /// if memory is refused.
    fn go_to_child(&mut self, place: u16) -> Result<bool, NoMemory>
        requires leads { Leads self.old.grammar.now self.old.index.now self.old.nodes.items }
        ensures places { IfOk result (λ found. IsTrue found → places_of self.new.nodes.items
            ≡ places_of self.old.nodes.items ++ place ∷ []) }
        ensures none { IfOk result (λ found. found ≡ false → HasNoChildAt self.old.grammar.now
            self.old.index.now (places_of self.old.nodes.items) place) }
        ensures leads { OnOk result (Leads self.new.grammar.now self.new.index.now self.new.nodes.items) }
        ensures index { self.new.index ≡ self.old.index }
        ensures grammar { self.new.grammar ≡ self.old.grammar }
    {
        let Some(node) = self.index.child(self.grammar, self.node(), place) else {
            return Ok(false);
        };
        self.nodes.push(PathNode { node, place })?;
        Ok(true)
    }

    /// Goes from the root to the node at the end of some places. Returns whether there is such a
    /// node; if not, stops at the last node on the way. Fails if memory is refused.
    fn go_down(&mut self, places: &[u16]) -> Result<bool, NoMemory>
        requires root { self.old.nodes.items ≡ [] }
        ensures places { IfOk result (λ found. IsTrue found
            → places_of self.new.nodes.items ≡ places.now) }
        ensures none { IfOk result (λ found. found ≡ false → LeadsNowhere self.old.grammar.now
            self.old.index.now places.now) }
        ensures leads { OnOk result (Leads self.new.grammar.now self.new.index.now self.new.nodes.items) }
        ensures index { self.new.index ≡ self.old.index }
        ensures grammar { self.new.grammar ≡ self.old.grammar }
    {
        for place in places {
            if !self.go_to_child(*place)? {
                return Ok(false);
            }
        }
        Ok(true)
    }

    /// Goes to the node of the rule for an argument, and returns the target of that rule. Returns
    /// `None` if the argument is an attribute of the root itself, or of a child that the index does
    /// not have. Fails if memory is refused.
    fn go_to(&mut self, argument: Target) -> Result<Option<Target>, NoMemory>
        requires leads { Leads self.old.grammar.now self.old.index.now self.old.nodes.items }
        ensures goes { IfOk result (λ target. IfSome target (GoesTo
            (places_of self.old.nodes.items) argument (places_of self.new.nodes.items))) }
        ensures none { IfOk result (λ target. IfNone target (GoesNowhere self.old.grammar.now
            self.old.index.now (places_of self.old.nodes.items) argument)) }
        ensures leads { OnOk result (Leads self.new.grammar.now self.new.index.now self.new.nodes.items) }
        ensures index { self.new.index ≡ self.old.index }
        ensures grammar { self.new.grammar ≡ self.old.grammar }
    {
        let attr = argument.attr;
        if argument.place == 0 {
            return Ok(self.go_up(attr));
        }
        if !self.go_to_child(argument.place)? {
            return Ok(None);
        }
        Ok(Some(Target { place: 0, attr }))
    }

    /// Goes from the node to its parent. Returns the target, at the parent, of the rule for
    /// attribute number `attr` of the node that was left. Returns `None` at the root.
    fn go_up(&mut self, attr: u16) -> Option<Target>
        requires leads { Leads self.old.grammar.now self.old.index.now self.old.nodes.items }
        ensures goes { IfSome result (λ target. (target.attr ≡ attr) × (places_of self.old.nodes.items
            ≡ places_of self.new.nodes.items ++ target.place ∷ [])) }
        ensures none { IfNone result (places_of self.old.nodes.items ≡ []) }
        ensures leads { Leads self.new.grammar.now self.new.index.now self.new.nodes.items }
        ensures index { self.new.index ≡ self.old.index }
        ensures grammar { self.new.grammar ≡ self.old.grammar }
    {
        let left = self.nodes.pop()?;
        Some(Target {
            place: left.place,
            attr,
        })
    }

    /// Follows the rule for a target, at the node at which the chain is, to the next rule. Fails as
    /// `read_next` does.
    fn step<D: Device>(
        &mut self,
        alloc: Global,
        target: Target,
        device: &mut D,
    ) -> Result<Step, TreeFault>
        requires leads { Leads self.old.grammar.now self.old.index.now self.old.nodes.items }
        ensures step { IfOk result (λ step. WhenHonest (D.is_honest device.new) (Follows
            (in_file self.old.grammar.now self.old.index.now (D.content device.old))
            (places_of self.old.nodes.items) target (places_of self.new.nodes.items) step)) }
        ensures fault { IfErr result (λ fault. WhenHonest (D.is_honest device.new) (IsChainFault
            self.old.grammar.now self.old.index.now (D.content device.old) fault)) }
        ensures stops { IfOk result (λ step. step ≡ to.Nothing → WhenHonest (D.is_honest device.new) (Stops
            self.old.grammar.now self.old.index.now (D.content device.old)
            (places_of self.old.nodes.items) target)) }
        ensures leads { OnOk result (Leads self.new.grammar.now self.new.index.now self.new.nodes.items) }
        ensures index { self.new.index ≡ self.old.index }
        ensures grammar { self.new.grammar ≡ self.old.grammar }
        ensures content { LeavesContent (D.is_honest device.new)
            (D.content device.old) (D.content device.new) }
        ensures persists { Persists (D.is_honest device.old) (D.is_honest device.new)
            (D.failures device.old) (D.failures device.new) (IsErrOf result TreeFault.Device) }
    {
        match self.read_next(alloc, target, device)? {
            Some(Next::Passes(argument)) => match self.go_to(argument)? {
                Some(next) => Ok(Step::To(next)),
                None => Ok(Step::Nothing),
            },
            Some(Next::Arises(rule)) => Ok(Step::Arises(rule)),
            None => Ok(Step::Nothing),
        }
    }

    /// Returns the places from the root to the node at which the chain is. Fails if memory is
    /// refused.
    fn places(&self, alloc: Global) -> Result<Vec<u16>, NoMemory>
        ensures places { IfOk result (λ places. places.items ≡ places_of self.now.nodes.items) }
    {
        let mut places = Vec::new(alloc);
        for node in self.nodes.as_slice() {
            places.push(node.place)?;
        }
        Ok(places)
    }
}

/// Finds the cause of an error that the rule for a target computes: follows the rules that passed
/// the error on. `device` contains the file of the last pass, and `index` is the index of this
/// file.
///
/// Returns `None` if the places lead to no node, the target has no rule there, or the rule's value
/// is not an error. Also returns `None` in two other cases: the chain stops later without a cause,
/// or 16,777,216 rules (`MAX_STEPS`) passed the error on. These two cases do not occur if the index
/// is that of the file, the grammar is accepted, and the file is that of a tree of at most
/// `MAX_NODES` nodes whose values are a solution.
///
/// Fails with R1 if the record of a node of the chain is damaged: if no frame ends where the index
/// says, or its body is not a record of the node's symbol. The offset in bytes is the one at which
/// this record should end. Fails with D1 if a call of the device fails, and with NoMemory if memory
/// is refused. Reads a record for each rule in the chain.
pub fn find_cause<D: Device>(
    alloc: Global,
    grammar: &Grammar,
    index: &TreeIndex,
    start: &ChainStart<'_>,
    device: &mut D,
) -> Result<Option<Cause>, TreeFault>
    // The error arises in the rule, and `steps` rules passed it on, each from one of its arguments
    ensures found { IfOk result (λ cause. IfSome cause (λ cause. WhenHonest (D.is_honest device.new)
        (IsCause (in_content grammar.now (D.content device.old)) start.now.places.now
        start.now.target cause.places.items cause.rule cause.steps))) }
    // Let the index be that of the content. Then in each tree of the file, each rule of the chain
    // is a rule of the production at its node, and does the same with the tree's values. So the
    // error of the attribute that the first rule computes has a cause
    ensures in_tree { IfOk result (λ cause. IfSome cause (λ cause. WhenHonest (D.is_honest device.new)
        (IsCauseIn grammar.now index.now (D.content device.old) start.now.places.now
        start.now.target cause.places.items cause.rule cause.steps))) }
    ensures node { IfOk result (λ cause. IfSome cause (λ cause.
        IsNumberAt grammar.now index.now cause.places.items cause.node)) }
    // If no cause is found, the places lead to no node, the chain stops without a rule in which the
    // error arises, or 16 * MAX_NODES rules passed the error on
    ensures none { IfOk result (λ cause. IfNone cause (WhenHonest (D.is_honest device.new)
        (LeadsNowhere grammar.now index.now start.now.places.now ⊎ StopsAfter grammar.now index.now
        (D.content device.old) start.now.places.now start.now.target (16 * MAX_NODES)))) }
    // So if the grammar is accepted, the index is that of the content, and the content is the file
    // of a tree of at most MAX_NODES nodes with values that are a solution, the rule for the target
    // at the given places, if there is one, computes no error
    ensures complete { IfOk result (λ cause. IfNone cause (WhenHonest (D.is_honest device.new)
        (ComputesNoErrorIn grammar.now index.now (D.content device.old) start.now.places.now
        start.now.target))) }
    // R1 is at the end of the record of a node. If the index is that of the content, it comes only if
    // the content is the file of no tree
    ensures fault { IfErr result (λ fault. WhenHonest (D.is_honest device.new)
        (IsChainFault grammar.now index.now (D.content device.old) fault)) }
    ensures content { LeavesContent (D.is_honest device.new)
        (D.content device.old) (D.content device.new) }
    ensures persists { Persists (D.is_honest device.old) (D.is_honest device.new)
        (D.failures device.old) (D.failures device.new) (IsErrOf result TreeFault.Device) }
{
    let mut chain = Chain {
        grammar,
        index,
        nodes: Vec::new(alloc),
    };
    if !chain.go_down(start.places)? {
        return Ok(None);
    }
    let mut target = start.target;
    for steps in 0..MAX_STEPS {
        match chain.step(alloc, target, device)? {
            Step::To(next) => target = next,
            Step::Arises(rule) => {
                let places = chain.places(alloc)?;
                return Ok(Some(Cause {
                    node: chain.node(),
                    places,
                    rule,
                    steps,
                }));
            }
            Step::Nothing => return Ok(None),
        }
    }
    Ok(None)
}
