//! The options of the commands that print tree files: `show` and `explain`. Each constant that is a
//! text is the name of an option or of an argument, as in `commands`.

use crate::argument::{Argument, Form, PLAIN};

/// The name of the option that limits the levels that are printed.
pub const DEPTH: &str = "depth";

/// The name of the option for the path of a node.
pub const NODE: &str = "node";

/// The name of the option for an attribute to print, without the others.
pub const ONLY: &str = "only";

/// The name of the option that limits the number of characters of each value that is not a number.
pub const WIDTH: &str = "width";

/// The name of the option that prints nodes as JSON.
pub const JSON: &str = "json";

/// The name of the option that lists the rules in which errors arise.
pub const ERRORS: &str = "errors";

/// The name of the option for the sentence's file.
pub const OF_SENTENCE: &str = "sentence";

/// The name of the option for a place in the sentence.
pub const AT: &str = "at";

/// The name of the argument for attributes of a node.
pub const ATTRIBUTES: &str = "ATTRIBUTE";

/// The option that limits the levels that are printed.
pub const DEPTH_LIMIT: Argument = Argument {
    name: DEPTH,
    form: Form::Value("N"),
    help: "Prints only N levels; a node whose children are left out gets the number of nodes below it",
    ..PLAIN
};

/// The option that names a node by its path.
pub const NODE_PATH: Argument = Argument {
    name: NODE,
    form: Form::Value("PATH"),
    help: "The node at this path: `/2/1` is the first child of the root's second child, `/1*9` nine times the first",
    ..PLAIN
};

/// The option that names an attribute to print, without the others. It can be repeated.
pub const ONLY_ATTRIBUTE: Argument = Argument {
    name: ONLY,
    form: Form::Values("SYMBOL.attribute"),
    help: "Prints only this attribute, and only nodes that have it; can be repeated",
    ..PLAIN
};

/// The option that limits the number of characters of each value that is not a number.
pub const WIDTH_LIMIT: Argument = Argument {
    name: WIDTH,
    form: Form::Value("N"),
    help: "Prints at most N characters of a value, 60 without it; 0 prints whole values. Numbers are printed whole",
    ..PLAIN
};

/// The option that prints nodes as JSON.
pub const AS_JSON: Argument = Argument {
    name: JSON,
    form: Form::Flag,
    help: "Prints each node as a JSON object in one line, with whole values",
    ..PLAIN
};

/// The option that lists the rules in which errors arise.
pub const ERROR_RULES: Argument = Argument {
    name: ERRORS,
    form: Form::Flag,
    help: "Prints the rules of the whole tree in which errors arise, and their number",
    ..PLAIN
};

/// The option that names the sentence of a tree.
pub const PLACE_SENTENCE: Argument = Argument {
    name: OF_SENTENCE,
    form: Form::Value("S"),
    help: "The file with the sentence of the tree, `-` for standard input",
    needs: &[AT],
    ..PLAIN
};

/// The option that names a node by a place in the sentence.
pub const PLACE: Argument = Argument {
    name: AT,
    form: Form::Value("LINE:COLUMN"),
    help: "The innermost node of a symbol (not of a token) at this place of the sentence, counted from 1",
    needs: &[OF_SENTENCE],
    conflicts: &[NODE, ERRORS],
    ..PLAIN
};

/// The names of attributes of a node, which may be left out.
pub const NODE_ATTRIBUTES: Argument = Argument {
    name: ATTRIBUTES,
    form: Form::OptionalWords,
    help: "Explains only these attributes of the node, such as `out`",
    ..PLAIN
};
