//! A node as a JSON object.

use crate::names::{ItemName, ProductionText};
use crate::printing::{ShownNode, TreeText};
use ag_carried::Carried;
use ag_grammar::Item;
use ag_grammar::limits::MAX_ATTRIBUTES;
use ag_value::{ErrorCode, NoMemory, Text, Value};
use std::alloc::Global;
use tree_index::NodePath;

/// 2^53 - 1. Readers of JSON that store numbers as 64-bit floats read the integers from
/// `-MAX_EXACT` to `MAX_EXACT` exactly.
const MAX_EXACT: i64 = 9_007_199_254_740_991;

/// A member of an object: the name of an attribute, and its value.
#[derive(Clone, Copy)]
struct Member<'s> {
    name: &'s str,
    value: &'s Carried,
}

impl TreeText<'_> {
    /// Writes a node as an object in one line: its path, its level below the walk's first node, the
    /// number of nodes of its subtree (itself included), its symbol and production or its class,
    /// and the values of those selected attributes that the file has.
    pub(crate) fn write_object(
        &self,
        alloc: Global,
        out: &mut String,
        path: &NodePath,
        shown: &ShownNode,
    ) -> Result<(), NoMemory> {
        let level = shown.level;
        let nodes = self.index.size(shown.node).unwrap_or(1);
        write!(
            out,
            "{{\"path\": \"{path}\", \"level\": {level}, \"nodes\": {nodes}, "
        )?;
        self.write_kind_fields(alloc, out, shown)?;
        out.push_str(", \"values\": {")?;
        let mut separator = "";
        for attr in 0..MAX_ATTRIBUTES as u16 {
            if let Some(member) = self.member(shown, attr) {
                out.push_str(separator)?;
                member.write(alloc, out)?;
                separator = ", ";
            }
        }
        Ok(out.push_str("}}\n")?)
    }

    /// Writes the members that say what a node is: for a symbol's node the symbol, the number of
    /// the production and the production; for a token its class.
    fn write_kind_fields(
        &self,
        alloc: Global,
        out: &mut String,
        shown: &ShownNode,
    ) -> Result<(), NoMemory> {
        let grammar = self.format.grammar;
        let item = shown.item;
        let name = format!(in alloc; "{}", ItemName { grammar, item })?;
        match (item, self.format.production(shown.record.number)) {
            (Item::Symbol(_), Some(production)) => {
                let text = format!(in alloc;
                    "{}",
                    ProductionText {
                        grammar,
                        production
                    }
                )?;
                out.push_str("\"symbol\": ")?;
                write_string(out, name.as_str())?;
                write!(
                    out,
                    ", \"number\": {}, \"production\": ",
                    shown.record.number
                )?;
                write_string(out, text.as_str())
            }
            _ => {
                out.push_str("\"class\": ")?;
                write_string(out, name.as_str())
            }
        }
    }

    /// Returns the member with the value of an attribute. Returns `None` if the attribute is not
    /// selected, or the file does not have its value.
    fn member<'s>(&'s self, shown: &'s ShownNode, attr: u16) -> Option<Member<'s>> {
        if !self.is_selected(shown.item, attr) {
            return None;
        }
        Some(Member {
            name: self.format.attribute_name(shown.item, attr)?,
            value: self.format.own_value(&shown.record, shown.item, attr)?,
        })
    }
}

impl Member<'_> {
    /// Writes the member.
    fn write(self, alloc: Global, out: &mut String) -> Result<(), NoMemory> {
        write_string(out, self.name)?;
        out.push_str(": ")?;
        write_carried(alloc, out, self.value)
    }
}

/// Writes a value as JSON.
fn write_carried(alloc: Global, out: &mut String, value: &Carried) -> Result<(), NoMemory> {
    match (value.as_number(), value.as_value()) {
        (Some(number), _) => write_number(out, number),
        (None, Some(value)) => write_json(out, value),
        // an error, or a text, table or list that is stored in another form (a rope or a tree)
        (None, None) => write_json(out, &value.to_value(alloc)?),
    }
}

/// Writes a value as JSON: a text as a string, a list as an array, a table as an object with an
/// array of its entries, and an error as an object with its name. Writes a number as `write_number`
/// does.
#[cycle(json)]
fn write_json(out: &mut String, value: &Value) -> Result<(), NoMemory> {
    match value {
        Value::Num(number) => write_number(out, *number),
        Value::Text(text) => write_string(out, text.as_str()),
        Value::List(items) => write_array(out, items.as_slice()),
        Value::Table(pairs) => write_entries(out, pairs.as_slice()),
        Value::Fault(code) => Ok(write!(out, "{{\"error\": \"{}\"}}", error_name(*code))?),
    }
}

/// Writes a list as an array.
#[cycle(json)]
fn write_array(out: &mut String, items: &[Value]) -> Result<(), NoMemory> {
    out.push_str("[")?;
    write_items(out, items)?;
    Ok(out.push_str("]")?)
}

/// Writes the items of a list, with a comma and a space between.
#[cycle(json)]
fn write_items(out: &mut String, items: &[Value]) -> Result<(), NoMemory> {
    let [first, rest @ ..] = items else {
        return Ok(());
    };
    write_json(out, first)?;
    for item in rest {
        out.push_str(", ")?;
        write_json(out, item)?;
    }
    Ok(())
}

/// Writes a table as an object with an array of its entries.
#[cycle(json)]
fn write_entries(out: &mut String, pairs: &[(Text, Value)]) -> Result<(), NoMemory> {
    out.push_str("{\"table\": [")?;
    write_pairs(out, pairs)?;
    Ok(out.push_str("]}")?)
}

/// Writes the entries of a table, each an array of a key and its value, with a comma and a space
/// between.
#[cycle(json)]
fn write_pairs(out: &mut String, pairs: &[(Text, Value)]) -> Result<(), NoMemory> {
    let [first, rest @ ..] = pairs else {
        return Ok(());
    };
    out.push_str("[")?;
    write_key(out, first.0.as_str())?;
    write_json(out, &first.1)?;
    for pair in rest {
        out.push_str("], [")?;
        write_key(out, pair.0.as_str())?;
        write_json(out, &pair.1)?;
    }
    Ok(out.push_str("]")?)
}

/// Writes the key of an entry, and the comma and the space after it.
fn write_key(out: &mut String, key: &str) -> Result<(), NoMemory> {
    write_string(out, key)?;
    Ok(out.push_str(", ")?)
}

/// Writes a number as a JSON number. If a reader may round the number, writes an object instead,
/// which has the number in decimal as a string.
fn write_number(out: &mut String, number: i64) -> Result<(), NoMemory> {
    if -MAX_EXACT <= number && number <= MAX_EXACT {
        return Ok(write!(out, "{number}")?);
    }
    Ok(write!(out, "{{\"number\": \"{number}\"}}")?)
}

/// Writes a text as a JSON string, in quotes.
fn write_string(out: &mut String, text: &str) -> Result<(), NoMemory> {
    out.push_str("\"")?;
    for character in text.chars() {
        write_character(out, character)?;
    }
    Ok(out.push_str("\"")?)
}

/// Writes a character of a string. Quotes, backslashes and control characters are escaped.
fn write_character(out: &mut String, character: char) -> Result<(), NoMemory> {
    match character {
        '"' => out.push_str("\\\"")?,
        '\\' => out.push_str("\\\\")?,
        '\n' => out.push_str("\\n")?,
        '\r' => out.push_str("\\r")?,
        '\t' => out.push_str("\\t")?,
        _ if character.is_control() => write!(out, "\\u{:04x}", character as u32)?,
        _ => out.push(character)?,
    }
    Ok(())
}

/// Returns the name of an error.
fn error_name(code: ErrorCode) -> &'static str {
    match code {
        ErrorCode::Overflow => "overflow",
        ErrorCode::Divide => "divide",
        ErrorCode::Kind => "kind",
        ErrorCode::Index => "index",
        ErrorCode::Key => "key",
        ErrorCode::Number => "number",
        ErrorCode::Big => "big",
        ErrorCode::Deep => "deep",
    }
}
