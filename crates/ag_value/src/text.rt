//! A string; contracts see the list of its bytes.
ghost use Rattle.std.specs.Prelude.{◌≡◌, string_bytes, IfOk};

use crate::fault::NoMemory;
use arrayvec::ArrayString;
use std::alloc::Global;
use std::marker::Model;

/// The storage of a text: up to 16 bytes in the `Storage` itself, or a `String` of any length. Most
/// names and tokens have at most 16 bytes, and so take no memory.
#[derive(Debug, Drop)]
enum Storage {
    Short(ArrayString<16>),
    Long(String),
}

/// A string; contracts see the list of its bytes. `from_str` takes no memory for a text of up to 16
/// bytes.
#[derive(Debug, Drop)]
pub struct Text {
    held: Storage,
}

impl Model for Text {
    ghost use Rattle.std.specs.Prelude.{List, ℕ};
    ghost use Rattle.ag_value.specs.Storage.{storage_bytes};

    ghost Value = { List ℕ };

    ghost view = { λ t. storage_bytes t.held };
}

impl Text {
    /// Makes a text of a string. Takes no memory.
    pub fn from_string(string: String) -> Text
        ensures { result ≡ string_bytes string }
    {
        Text {
            held: Storage::Long(string),
        }
    }

    /// Copies a text. Takes memory if the text has more than 16 bytes. Fails with NoMemory.
    pub fn from_str(alloc: Global, text: &str) -> Result<Text, NoMemory>
        ensures { IfOk result (λ copied. copied ≡ text.now) }
    {
        if let Ok(short) = ArrayString::from(text) {
            return Ok(Text {
                held: Storage::Short(short),
            });
        }
        let string = String::from_str(alloc, text)?;
        Ok(Text {
            held: Storage::Long(string),
        })
    }

    /// Lends the text.
    pub fn as_str(&self) -> &str
        ensures { result.now ≡ self.now }
    {
        match &self.held {
            Storage::Short(short) => short.as_str(),
            Storage::Long(string) => string.as_str(),
        }
    }

    /// Returns the text as a string. Takes memory if the text is stored without a `String`. Fails
    /// with NoMemory.
    pub fn into_string(self, alloc: Global) -> Result<String, NoMemory>
        ensures { IfOk result (λ string. string_bytes string ≡ self) }
    {
        let Text { held } = self;
        match held {
            Storage::Short(short) => Ok(String::from_str(alloc, short.as_str())?),
            Storage::Long(string) => Ok(string),
        }
    }
}
