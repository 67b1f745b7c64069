//! Where an input is read from.

ghost use Rattle.std.specs.Prelude.{◌≡◌, ◌≢◌, codes};
ghost use Rattle.command_line.specs.Inputs.{name_of};

/// The word `-`. As an input it is standard input, and as an output standard output.
pub const STANDARD: &str = "-";

/// Where an input is read from.
#[derive(Clone, Copy, PartialEq, Eq)]
pub enum InputPath<'a> {
    /// Standard input, whose name is `-`.
    Standard,
    /// The file at this path.
    File(&'a str),
}

impl<'a> InputPath<'a> {
    /// Returns the input that a word names: standard input for `-`, and for any other word the file
    /// at this path.
    pub fn of(word: &'a str) -> InputPath<'a>
        ensures name { name_of result ≡ word.now }
        ensures standard { word.now ≡ codes "-" → result ≡ InputPath.Standard }
        ensures file { word.now ≢ codes "-" → result ≢ InputPath.Standard }
    {
        if word == STANDARD {
            InputPath::Standard
        } else {
            InputPath::File(word)
        }
    }

    /// Returns the name of the input as it was given.
    pub fn name(self) -> &'a str
        ensures { result.now ≡ name_of self.entry }
    {
        match self {
            InputPath::Standard => STANDARD,
            InputPath::File(path) => path,
        }
    }
}
