//! Moving parts of a raw grammar into the numbered one.
ghost use Rattle.std.specs.Prelude.{◌≡◌, map, IfOk};
ghost use Rattle.ag_grammar.specs.grammars.Raw.{texts_of};
ghost use Rattle.normalform.specs.numbers.Numbers.{symbol_of};

use ag_grammar::{Named, RawSymbol, Symbol};
use ag_value::{Items, NoMemory, Text};
use std::alloc::Global;

/// Moves names, without their offsets.
fn move_names(alloc: Global, names: Items<Named>) -> Result<Items<Text>, NoMemory>
    ensures { IfOk result (λ texts. texts ≡ texts_of names) }
{
    let mut texts = Vec::new(alloc);
    for named in names.into_vec() {
        texts.push(named.name)?;
    }
    Ok(Items::from_vec(texts))
}

/// Moves symbols, without their offsets.
pub fn move_symbols(alloc: Global, symbols: Items<RawSymbol>) -> Result<Items<Symbol>, NoMemory>
    ensures { IfOk result (λ moved. moved ≡ map symbol_of symbols) }
{
    let mut moved = Vec::new(alloc);
    for symbol in symbols.into_vec() {
        let RawSymbol { name, syn, inh } = symbol;
        let syn = move_names(alloc, syn)?;
        let inh = move_names(alloc, inh)?;
        moved.push(Symbol {
            name: name.name,
            syn,
            inh,
        })?;
    }
    Ok(Items::from_vec(moved))
}
