//! The commands of the program and their arguments, with the texts that help prints. Each public
//! constant is the name of an argument or of an option, by which clap finds its value. An option's
//! name is also its word on the command line, after `--`.

use crate::argument::{Argument, Form, PLAIN, args_of};
use crate::tree_options::{
    AS_JSON, DEPTH_LIMIT, ERROR_RULES, JSON, NODE_ATTRIBUTES, NODE_PATH, ONLY_ATTRIBUTE, PLACE,
    PLACE_SENTENCE, WIDTH_LIMIT,
};
use clap::error::ErrorKind;
use clap::{Command, Error};
use std::alloc::{AllocError, Global};

/// The name of the argument for the grammar's file.
pub const GRAMMAR: &str = "G";

/// The name of the argument for the sentence's file.
pub const SENTENCE: &str = "S";

/// The name of the argument for the tree file.
pub const TREE: &str = "TREE";

/// The name of the argument for the tree file of version 1.
pub const OLD: &str = "OLD";

/// The name of the argument that is an expression.
pub const EXPRESSION: &str = "EXPR";

/// The name of the argument for an attribute.
pub const ATTRIBUTE: &str = "SYMBOL.attribute";

/// The name of the option for the folder of the tree files.
pub const WORK: &str = "work";

/// The name of the option for the file of the translation.
pub const OUTPUT: &str = "output";

/// The name of the option for the folder of translations.
pub const OUT_DIR: &str = "out-dir";

/// The name of the option that lists all faults of a grammar.
pub const ALL: &str = "all";

/// The name of the option that limits the number of faults that are listed.
pub const MOST: &str = "most";

/// The name of the option that says when messages are marked with colour.
pub const COLOR: &str = "color";

/// The name of the option that hides the progress and the messages of refusals.
pub const QUIET: &str = "quiet";

/// The values of the option that says when messages are marked with colour.
const COLORS: &[&str] = &["auto", "always", "never"];

/// The name of the grammar's file.
const GRAMMAR_FILE: Argument = Argument {
    name: GRAMMAR,
    help: "The file with the grammar, `-` for standard input",
    ..PLAIN
};

/// The name of the sentence's file.
const SENTENCE_FILE: Argument = Argument {
    name: SENTENCE,
    help: "The file with the sentence, `-` for standard input",
    ..PLAIN
};

/// The names of the files of one or more sentences.
const SENTENCE_FILES: Argument = Argument {
    name: SENTENCE,
    form: Form::Words,
    help: "The file with the sentence, `-` for standard input; several with --out-dir",
    ..PLAIN
};

/// The name of a tree file of pass 0 that is only read.
const EVALUATED_TREE: Argument = Argument {
    name: TREE,
    help: "The tree file, which is only read, `-` for standard input",
    ..PLAIN
};

/// The name of a tree file of any pass that is only read.
const SHOWN_TREE: Argument = Argument {
    name: TREE,
    help: "The tree file of any pass, such as b.agt of `run --work`, which is only read",
    ..PLAIN
};

/// The name of a tree file of any pass that is only read, or of a folder with a.agt and b.agt.
const EXPLAINED_TREE: Argument = Argument {
    name: TREE,
    help: "The tree file of any pass, or the folder of `run --work` with two, which are only read",
    ..PLAIN
};

/// The name of a tree file of version 1.
const OLD_TREE: Argument = Argument {
    name: OLD,
    help: "The tree file of version 1, which begins with `AGT1` and is only read",
    ..PLAIN
};

/// The name of a tree file that is written.
const NEW_TREE: Argument = Argument {
    name: TREE,
    help: "The tree file to write; if it exists, its content is replaced",
    ..PLAIN
};

/// The text of an expression. A word that begins with a hyphen, and is no option of `value`, is an
/// expression: `-1` is then refused with X2, whose message says how to write it.
const EXPRESSION_WORD: Argument = Argument {
    name: EXPRESSION,
    form: Form::HyphenWord,
    help: "The expression, as one argument; attributes such as $1.s have no value here",
    ..PLAIN
};

/// The name of an attribute, which may be left out.
const ATTRIBUTE_NAME: Argument = Argument {
    name: ATTRIBUTE,
    form: Form::OptionalWord,
    help: "Explains the pass of this attribute alone, such as L.total",
    ..PLAIN
};

/// The option that names the file for the translation.
const OUTPUT_FILE: Argument = Argument {
    name: OUTPUT,
    short: Some('o'),
    form: Form::Value("FILE"),
    help: "Writes the translation to FILE, and only a whole one; `-` is standard output",
    ..PLAIN
};

/// The option that names the folder for translations.
const OUTPUT_FOLDER: Argument = Argument {
    name: OUT_DIR,
    form: Form::Value("DIR"),
    help: "Writes the translation of each PATH/NAME to NAME.out in the existing folder DIR",
    conflicts: &[OUTPUT],
    ..PLAIN
};

/// The option that names the folder for the tree files.
const WORK_FOLDER: Argument = Argument {
    name: WORK,
    form: Form::Value("DIR"),
    help: "Writes the tree files a.agt and b.agt to the existing folder DIR, and keeps them",
    ..PLAIN
};

/// The option that lists all faults of a grammar.
const ALL_FAULTS: Argument = Argument {
    name: ALL,
    form: Form::Flag,
    help: "Lists all faults of the grammar, not only the first",
    ..PLAIN
};

/// The option that limits the number of faults that are listed.
const FAULT_LIMIT: Argument = Argument {
    name: MOST,
    form: Form::Value("N"),
    help: "Lists at most N faults, 100 without it",
    needs: &[ALL],
    ..PLAIN
};

/// The option that prints the faults of a grammar as JSON.
const FAULTS_AS_JSON: Argument = Argument {
    name: JSON,
    form: Form::Flag,
    help: "Prints each fault as a JSON object in one line, on standard output",
    needs: &[ALL],
    ..PLAIN
};

/// The options that all commands have: when messages are marked with colour, and whether the
/// progress and the messages of refusals are hidden.
const GLOBAL_OPTIONS: &[Argument] = &[
    Argument {
        name: COLOR,
        form: Form::Choice("WHEN", COLORS),
        help: "Marks the number and the place in messages; without it, on a terminal only",
        is_global: true,
        ..PLAIN
    },
    Argument {
        name: QUIET,
        short: Some('q'),
        form: Form::Flag,
        help: "Shows no progress, and prints no refusal but those of the command line",
        is_global: true,
        ..PLAIN
    },
];

/// The commands, in the order in which help lists them.
const COMMANDS: &[Entry] = &[
    Entry {
        name: "run",
        about: "Translates a sentence by a grammar, and prints the translation with no newline added",
        arguments: &[
            GRAMMAR_FILE,
            SENTENCE_FILES,
            OUTPUT_FILE,
            OUTPUT_FOLDER,
            WORK_FOLDER,
        ],
        example: "Example:\n  $ aggen run examples/words.ag examples/words.txt\n  iffy",
    },
    Entry {
        name: "eval",
        about: "Translates the tree in a tree file that `parse` wrote, and prints the translation",
        arguments: &[GRAMMAR_FILE, EVALUATED_TREE, OUTPUT_FILE, WORK_FOLDER],
        example: "Example:\n  $ aggen eval examples/words.ag words.tree\n  iffy",
    },
    Entry {
        name: "value",
        about: "Computes an expression, and prints its value",
        arguments: &[EXPRESSION_WORD],
        example: "Example:\n  $ aggen value '2 + 3 * 4'\n  14",
    },
    Entry {
        name: "check",
        about: "Checks a grammar, and prints the number of its symbols and of its productions",
        arguments: &[GRAMMAR_FILE, ALL_FAULTS, FAULT_LIMIT, FAULTS_AS_JSON],
        example: "Example:\n  $ aggen check examples/percentages.ag\n  2 symbols, 3 productions",
    },
    Entry {
        name: "plan",
        about: "Prints the passes that a grammar needs, and the attributes that each of them computes",
        arguments: &[GRAMMAR_FILE, ALL_FAULTS, FAULT_LIMIT, FAULTS_AS_JSON],
        example: "Example:\n  $ aggen plan examples/percentages.ag\n  pass 1 right-to-left: L.sum\n  pass 2 left-to-right: S.out L.out L.total",
    },
    Entry {
        name: "why",
        about: "Prints why a grammar needs each of its passes, rule by rule",
        arguments: &[GRAMMAR_FILE, ATTRIBUTE_NAME],
        example: "Example:\n  $ aggen why examples/percentages.ag L.total\n  pass 2 computes L.total\n\n  pass 1 (right-to-left) can't compute L.total:\n    L.total: `$1.total` (examples/percentages.ag:4:26) uses `$1.sum` (L.sum), which pass 1 computes only during its visit of $1",
    },
    Entry {
        name: "code",
        about: "Prints the instructions that each pass executes at a node of each production",
        arguments: &[GRAMMAR_FILE],
        example: "Example:\n  $ aggen code examples/words.ag\n  0 pass 1: get 1, put 1, def out rule 0, end",
    },
    Entry {
        name: "parse",
        about: "Parses a sentence, writes its tree to a tree file, and prints the number of nodes",
        arguments: &[GRAMMAR_FILE, SENTENCE_FILE, NEW_TREE],
        example: "Example:\n  $ aggen parse examples/words.ag examples/words.txt words.tree\n  2 nodes",
    },
    Entry {
        name: "show",
        about: "Prints the tree in a tree file, a line for each node with its production and its values",
        arguments: &[
            GRAMMAR_FILE,
            SHOWN_TREE,
            DEPTH_LIMIT,
            NODE_PATH,
            ONLY_ATTRIBUTE,
            WIDTH_LIMIT,
            AS_JSON,
        ],
        example: "Example:\n  $ aggen show examples/words.ag words.tree\n  /  S = NAME \"if\"\n    /1  NAME  lex=\"iffy\"",
    },
    Entry {
        name: "explain",
        about: "Prints which rule computed each value of a node in a tree file, and what the rule used",
        arguments: &[
            GRAMMAR_FILE,
            EXPLAINED_TREE,
            NODE_ATTRIBUTES,
            NODE_PATH,
            WIDTH_LIMIT,
            PLACE_SENTENCE,
            PLACE,
            ERROR_RULES,
        ],
        example: "Example:\n  $ aggen explain examples/percentages.ag trees/a.agt --node /1/2 sum\n  /1/2  L = NUMBER L\n  sum=170\n    $0.sum = number($1.lex) + $2.sum (examples/percentages.ag:5:16)\n      $1.lex=\"50\"  /1/2/1\n      $2.sum=120  /1/2/2",
    },
    Entry {
        name: "upgrade",
        about: "Converts a tree file of version 1 to version 2, and prints the number of nodes",
        arguments: &[GRAMMAR_FILE, OLD_TREE, NEW_TREE],
        example: "Example:\n  $ aggen upgrade examples/words.ag old.tree new.tree\n  2 nodes",
    },
];

/// Returns `COMMANDS`. The prover checks the whole table wherever the constant is named, so only
/// this function names it.
fn entries() -> &'static [Entry] {
    COMMANDS
}

/// A command, as help describes it: its name, what it does, its arguments in their order, and an
/// example, which comes last in the help.
#[derive(Clone, Copy)]
struct Entry {
    name: &'static str,
    about: &'static str,
    arguments: &'static [Argument],
    example: &'static str,
}

impl Entry {
    /// Returns the command with its arguments. Fails if memory is refused.
    fn to_command<'a>(self, alloc: Global) -> Result<Command<'a>, AllocError> {
        let args = args_of(alloc, self.arguments)?;
        Command::new(alloc, self.name)
            .about(self.about)
            .after_help(self.example)
            .args(args)
    }

    /// Returns the command with its arguments, and with the program's name in its usage. Fails if
    /// memory is refused.
    fn to_invoked_command<'a>(self, alloc: Global) -> Result<Command<'a>, AllocError> {
        let name = self.name;
        let bin_name = format!(in alloc; "aggen {name}")?;
        self.to_command(alloc)?.bin_name(bin_name.as_str())
    }
}

/// Returns the program's command with all its subcommands. Fails if memory is refused.
pub fn program<'a>(alloc: Global) -> Result<Command<'a>, AllocError> {
    let commands = commands(alloc)?;
    root_command(alloc)?.subcommands(commands)
}

/// Returns the commands in their order. Fails if memory is refused.
fn commands<'a>(alloc: Global) -> Result<Vec<Command<'a>>, AllocError> {
    let mut commands = Vec::new(alloc);
    for entry in entries() {
        commands.push(entry.to_command(alloc)?)?;
    }
    Ok(commands)
}

/// Returns the program's command without subcommands. Fails if memory is refused.
fn root_command<'a>(alloc: Global) -> Result<Command<'a>, AllocError> {
    let options = args_of(alloc, GLOBAL_OPTIONS)?;
    Command::new(alloc, "aggen")
        .version("1.0.0")
        .about("Makes translators from attribute grammars")
        .after_help(
            "Without a command, aggen translates a job from standard input: a grammar, a line `%%`, and a sentence.\n\nExample:\n  $ aggen run examples/words.ag examples/words.txt\n  iffy",
        )
        .args(options)?
        .bin_name("aggen")
}

/// Returns an error that clap prints with `message` and the usage of the command `name`: for words
/// that are wrong although clap accepts them. If memory for this error is refused, returns the
/// error of refused memory.
pub fn misuse_of(alloc: Global, name: &str, message: &str) -> Error {
    match usage_error(alloc, name, message) {
        Ok(error) => error,
        Err(refused) => Error::from(refused),
    }
}

/// Returns an error with `message` and the usage of the command `name`. Fails if memory is refused.
fn usage_error(alloc: Global, name: &str, message: &str) -> Result<Error, AllocError> {
    command_named(alloc, name)?.error(ErrorKind::ArgumentConflict, message)
}

/// Returns the command `name`, or that of the program if it has no such command. Fails if memory is
/// refused.
fn command_named<'a>(alloc: Global, name: &str) -> Result<Command<'a>, AllocError> {
    match entries().iter().find(|entry| entry.name == name) {
        Some(entry) => entry.to_invoked_command(alloc),
        None => root_command(alloc),
    }
}
