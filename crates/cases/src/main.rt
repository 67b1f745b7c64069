//! Runs the rows about the libraries, from values to the text of the root. `tests/README.md` lists
//! the verbs.
//!
//! `Mistake`, of the crate `rows`, is the reason why a question has no answer. `Misspelt`: a word
//! of the row is unknown, missing, or not the number or the bytes that it has to be. `Unfit`: a
//! text is not what the verb needs, or a call did not end as the row assumes. `NoMemory`: memory
//! was refused. (If a library's call fails because memory was refused, some functions return
//! `Unfit`.) A function also fails with the mistakes of the functions that it calls. Its comment
//! names only those that it finds itself.
#![tactic(auto)]

mod carried;
mod contents;
mod expressions;
mod grammars;
mod least;
mod passes;
mod plans;
mod questions;
mod raw_grammars;
mod roots;
mod sentences;
mod stuck;
mod value_questions;
mod values;

use ag_value::Value;
use questions::CurrentValue;
use rows::sheet::try_rows;
use std::io;

fn main(rt: HostRuntime) -> io::Result<()> {
    let mut current = CurrentValue {
        value: Value::Num(0),
    };
    try_rows(&rt, rt.alloc(), &mut current)
}
