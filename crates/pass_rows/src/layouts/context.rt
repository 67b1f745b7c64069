//! The context of a pass: what the pass needs to run, and the layout of each production.

ghost use Rattle.std.specs.Prelude.{◌≡◌, ◌<◌, ◌≤◌, ◌+◌, ◌-◌, ◌^◌, Some, length, slice_get};
ghost use Rattle.ag_grammar.specs.declared.grammar.Production.{Production};
ghost use Rattle.ag_grammar.specs.grammars.AttributeGrammar.{IsProduction};
ghost use Rattle.pass_rows.specs.layouts.Contexts.{CanRun, setting};
ghost use Rattle.pass_rows.specs.layouts.Layouts.{IsRowAt};
ghost use Rattle.pass_rows.specs.layouts.BuiltLayouts.{place_rows};
ghost use Rattle.pass_rows.specs.Places.{copied_passes};
ghost use Rattle.pass_rows.specs.layouts.Slots.{stored_width};
ghost use Rattle.passcode.specs.Settings.{list_at};

use crate::layouts::building::{PlaceRow, ProductionRow};
use crate::layouts::hints::Hints;
use crate::layouts::rows::copied_passes;
use crate::open_node::OpenNode;
use crate::setting::Setting;
use ag_grammar::Item;
use passcode::Instr;
use std::alloc::Global;

/// The context of a pass: the allocator, the setting, the layout of each production by its number
/// (`rows`), and hints for reading.
#[derive(Clone, Copy)]
pub struct PassContext<'a> {
    pub alloc: Global,
    pub setting: Setting<'a>,
    pub rows: &'a [ProductionRow],
    pub hints: &'a Hints,
}

impl PassContext<'_> {
    /// Returns the number of the previous pass, whose file is read.
    pub fn file_pass(&self) -> u16
        requires { 1 ≤ self.now.setting.pass }
        ensures { result ≡ self.now.setting.pass - 1 }
    {
        self.setting.pass - 1
    }

    /// Returns the layout of a production.
    pub fn row(&self, production: u16) -> &ProductionRow
        requires context { CanRun self.now }
        requires there { production < length self.now.setting.grammar.now.productions }
        ensures { IsRowAt (setting self.now) production result.now }
    {
        &self.rows[production as usize]
    }

    /// Returns the instructions of the pass for an open node. `layout` is that of its production.
    fn list<'r>(&self, layout: &'r ProductionRow, node: OpenNode) -> &'r [Instr]
        requires layout { IsRowAt (setting self.now) node.production layout.now }
        requires there { node.production < length self.now.setting.grammar.now.productions }
        ensures { result.now ≡ list_at (setting self.now) node.production }
    {
        layout.list.as_slice()
    }

    /// Returns the next instruction of an open node. `layout` is that of its production.
    pub fn instruction(&self, layout: &ProductionRow, node: OpenNode) -> Instr
        requires layout { IsRowAt (setting self.now) node.production layout.now }
        requires there { node.production < length self.now.setting.grammar.now.productions }
        requires next { node.at < length (list_at (setting self.now) node.production) }
        ensures there { slice_get (list_at (setting self.now) node.production) node.at
            ≡ Some result }
        ensures room { node.at + 1 < 2 ^ 64 }
    {
        self.list(layout, node)[node.at]
    }

    /// Returns the item at a place of an open node and the range of its copies. `layout` is that of
    /// the node's production.
    pub fn place(&self, layout: &ProductionRow, node: OpenNode, place: u16) -> PlaceRow
        requires layout { IsRowAt (setting self.now) node.production layout.now }
        requires there { place < length layout.now.places }
        ensures { (q : Production) → IsProduction self.now.setting.grammar.now node.production q →
            Some result ≡ slice_get (place_rows (setting self.now) q) place }
    {
        layout.places.as_slice()[place as usize]
    }

    /// Returns the number of values in the row of a production's node.
    pub fn width(&self, production: u16) -> usize
        requires context { CanRun self.now }
        requires there { production < length self.now.setting.grammar.now.productions }
        ensures { (q : Production) → IsProduction self.now.setting.grammar.now production q →
            result ≡ stored_width (setting self.now) q }
    {
        self.row(production).width as usize
    }

    /// Returns the passes of the values at an item that are copied to the parent's row, including
    /// passes after that of the setting, whose values have no copies yet.
    pub fn copied_passes(&self, item: Item) -> &[u16]
        ensures { result.now ≡ copied_passes (setting self.now) item }
    {
        copied_passes(&self.setting, item)
    }
}
