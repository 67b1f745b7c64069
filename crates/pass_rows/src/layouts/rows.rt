//! The rows of values of nodes: which attributes have a value in a row, and at which index. A list
//! of passes represents attributes: it has the pass of each, in the order of their numbers.

ghost use Rattle.std.specs.Prelude.{◌≡◌, ◌≤◌, IfOk, Some, length};
ghost use Rattle.ag_grammar.specs.grammars.Accepted.{max_attributes};
ghost use Rattle.ag_grammar.specs.grammars.Passes.{item_passes};
ghost use Rattle.passassign.specs.Rows.{passes_of};
ghost use Rattle.pass_rows.specs.Settings.{pass_setting};
ghost use Rattle.pass_rows.specs.Places.{copied_passes, row_passes};
ghost use Rattle.pass_rows.specs.layouts.Slots.{copied_width, known_width, rank};
ghost use Rattle.pass_rows.specs.layouts.Starts.{AreSmall};
ghost use Rattle.treefile.specs.records.Listed.{count_up_to};
ghost use Rattle.treefile.specs.records.Records.{synthesized_passes};

use crate::setting::Setting;
use ag_grammar::{Grammar, Item, Production, Terminal};
use ag_value::{Items, NoMemory};
use planchecker::Plan;
use std::alloc::Global;

/// Returns the passes of a symbol's attributes; empty if the plan does not have the symbol. (The
/// method `rows` returns these passes by symbol, not rows of values.)
pub fn passes_at(plan: &Plan, symbol: u16) -> &[u16]
    ensures { result.now ≡ passes_of plan.now.assignment symbol }
{
    let rows = plan.assignment().rows();
    if (symbol as usize) < rows.len() {
        rows[symbol as usize].as_slice()
    } else {
        &[]
    }
}

/// Returns the passes of a symbol's synthesized attributes, which come before its inherited ones;
/// empty if the grammar or the plan does not have the symbol.
pub fn synthesized_at<'a>(grammar: &Grammar, plan: &'a Plan, symbol: u16) -> &'a [u16]
    ensures { result.now ≡ synthesized_passes grammar.now (passes_of plan.now.assignment) symbol }
{
    let passes = passes_at(plan, symbol);
    let symbols = grammar.symbols();
    if symbol as usize >= symbols.len() {
        return &[];
    }
    let count = symbols[symbol as usize].syn.as_slice().len();
    &passes[..count.min(passes.len())]
}

/// Returns the number of values that attributes with these passes have in a row of pass k: the
/// number of attributes whose pass is at most k.
pub fn row_length(passes: &[u16], k: u16) -> usize
    ensures length { result ≡ count_up_to k passes.now }
    ensures room { result ≤ length passes.now }
{
    match passes {
        [] => 0,
        [pass, others @ ..] => {
            let rest = row_length(others, k);
            if *pass <= k {
                return rest + 1;
            }
            rest
        }
    }
}

/// Returns the index of the value of attribute `attr` among the values that attributes with these
/// passes have in a row of pass k: the number of values of the attributes before `attr`.
#[tactic(auto, using(crate::proofs::places::Ranks::rank_counted, crate::proofs::places::Ranks::rank_passed))]
fn rank(passes: &[u16], k: u16, attr: u16) -> u16
    requires few { length passes.now ≤ max_attributes }
    ensures rank { result ≡ rank k passes.now attr }
    ensures room { result ≤ length passes.now }
{
    match passes {
        [] => 0,
        [pass, others @ ..] => {
            if attr == 0 {
                return 0;
            }
            let rest = rank(others, k, attr - 1);
            if *pass <= k {
                return rest + 1;
            }
            rest
        }
    }
}

/// Returns the passes of the values at an item that are copied to the parent's row: those of a
/// symbol's synthesized attributes, or pass 0 for a token's text. Includes passes after that of the
/// setting. A literal has no copies.
pub fn copied_passes<'r>(setting: &'r Setting<'_>, item: Item) -> &'r [u16]
    ensures { result.now ≡ copied_passes (pass_setting setting.now) item }
{
    match item {
        Item::Symbol(symbol) => synthesized_at(setting.grammar, setting.plan, symbol),
        Item::Terminal(Terminal::Class(_)) => &[0],
        Item::Terminal(Terminal::Literal(_)) => &[],
    }
}

/// Returns the passes of the values in the row of a production's node, including values of later
/// passes: first those of its own attributes, then those of the copies at its items. Fails with
/// `NoMemory` if memory cannot be allocated.
pub fn row_passes(
    alloc: Global,
    setting: &Setting<'_>,
    production: &Production,
) -> Result<Items<u16>, NoMemory>
    ensures { IfOk result (λ passes. passes
        ≡ row_passes (pass_setting setting.now) production.now) }
{
    let mut passes = passes_at(setting.plan, production.left).to_vec(alloc)?;
    for item in production.items.as_slice() {
        passes.extend_from_slice(copied_passes(setting, *item))?;
    }
    Ok(Items::from_vec(passes))
}

/// Returns the number of copies that the parent's row has of the values at an item, in the
/// setting's pass.
pub fn copied_width(setting: &Setting<'_>, item: Item) -> usize
    ensures width { result ≡ copied_width (pass_setting setting.now) item }
    ensures room { AreSmall (passes_of setting.now.plan.now.assignment) → result ≤ max_attributes }
{
    row_length(copied_passes(setting, item), setting.pass)
}

/// Returns the number of known copies that the parent's row has of the values at an item. The file
/// of the previous pass has these values.
pub fn known_width(setting: &Setting<'_>, item: Item) -> usize
    requires { 1 ≤ setting.now.pass }
    ensures width { result ≡ known_width (pass_setting setting.now) item }
    ensures room { AreSmall (passes_of setting.now.plan.now.assignment) → result ≤ max_attributes }
{
    row_length(copied_passes(setting, item), setting.pass - 1)
}

/// Returns the index of an attribute's value in the row of an item's node or token, in the
/// setting's pass.
pub fn rank_of(setting: &Setting<'_>, item: Item, attr: u16) -> u16
    requires small { AreSmall (passes_of setting.now.plan.now.assignment) }
    ensures rank { result ≡ rank setting.now.pass
        (item_passes (passes_of setting.now.plan.now.assignment) (Some item)) attr }
    ensures room { result ≤ max_attributes }
{
    match item {
        Item::Symbol(symbol) => rank(passes_at(setting.plan, symbol), setting.pass, attr),
        // the same as `rank(&[0], ..)`: a token has one attribute, its text, of pass 0
        Item::Terminal(Terminal::Class(_)) => if attr == 0 { 0 } else { 1 },
        Item::Terminal(Terminal::Literal(_)) => 0,
    }
}
