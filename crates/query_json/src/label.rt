//! Names in the text of a file.
ghost use Rattle.std.specs.Prelude.{◌≡◌, IfOk};

use dpe_base::Name;
use std::alloc::{AllocError, Global};
use std::marker::Model;

/// A name as a part of the file's text, which contracts see as its bytes.
#[derive(Debug, Drop)]
pub struct Label<'a> {
    text: &'a str,
}

impl<'a> Model for Label<'a> {
    ghost use Rattle.std.specs.Prelude.{List, ℕ};

    ghost Value = { List ℕ };

    ghost view = { λ l. l.text.now };
}

/// A name with a copy of the text.
pub fn copied(alloc: Global, text: &str) -> Result<Name, AllocError>
    ensures { IfOk result (λ n. n ≡ text.now) }
{
    Ok(Name::of(String::from_str(alloc, text)?))
}

impl<'a> Label<'a> {
    /// Any text is a name.
    pub fn of(text: &'a str) -> Label<'a>
        ensures { result ≡ text.entry.now }
    {
        Label { text }
    }

    /// The text that the name is.
    pub fn text(&self) -> &'a str
        ensures { result.now ≡ self.now }
    {
        self.text
    }

    /// The name with a text of its own, which outlives the file's.
    pub fn to_name(&self, alloc: Global) -> Result<Name, AllocError>
        ensures { IfOk result (λ n. n ≡ self.now) }
    {
        copied(alloc, self.text)
    }
}
