//! The text that is written, token by token.
ghost use Rattle.std.specs.Prelude.{◌≡◌, ◌∷◌, [], ◌++◌, IfOk, OnOk, decimal};
ghost use Rattle.json.specs.Print.{print};
ghost use Rattle.json.specs.Token.{begin_array, begin_object, end_array, end_object, key, number, string};

use json::Writer;
use std::alloc::{AllocError, Global};
use std::marker::Model;

/// A text of JSON that grows, which contracts see as the list of its tokens.
#[derive(Drop)]
pub struct Text {
    out: Writer,
}

impl Model for Text {
    ghost use Rattle.std.specs.Prelude.{◌≡◌, [], List};
    ghost use Rattle.json.specs.Token.{Token, tokens_code};

    ghost Value = { List Token };

    ghost coded = { tokens_code };

    ghost view = { λ t. t.out.tokens };

    ghost invariant = { λ t. t.out.before ≡ [] };
}

impl Text {
    /// No token yet, and room for so many bytes.
    pub fn with_capacity(alloc: Global, bytes: usize) -> Result<Text, AllocError>
        ensures { IfOk result (λ t. t ≡ []) }
    {
        let out = Vec::with_capacity(alloc, bytes)?;
        Ok(Text {
            out: Writer::new(out),
        })
    }

    /// The bytes of the text.
    pub fn into_bytes(self) -> Vec<u8>
        ensures { result.items ≡ print self }
    {
        let Text { out } = self;
        out.into_inner()
    }

    /// Opens an object.
    pub fn begin_object(&mut self) -> Result<(), AllocError>
        ensures { OnOk result (self.new ≡ self.old ++ begin_object ∷ []) }
    {
        self.out.begin_object()
    }

    /// Closes an object.
    pub fn end_object(&mut self) -> Result<(), AllocError>
        ensures { OnOk result (self.new ≡ self.old ++ end_object ∷ []) }
    {
        self.out.end_object()
    }

    /// Opens an array.
    pub fn begin_array(&mut self) -> Result<(), AllocError>
        ensures { OnOk result (self.new ≡ self.old ++ begin_array ∷ []) }
    {
        self.out.begin_array()
    }

    /// Closes an array.
    pub fn end_array(&mut self) -> Result<(), AllocError>
        ensures { OnOk result (self.new ≡ self.old ++ end_array ∷ []) }
    {
        self.out.end_array()
    }

    /// The name of a member.
    pub fn key(&mut self, name: &str) -> Result<(), AllocError>
        ensures { OnOk result (self.new ≡ self.old ++ key name.now ∷ []) }
    {
        self.out.key(name)
    }

    /// A string.
    pub fn string(&mut self, text: &str) -> Result<(), AllocError>
        ensures { OnOk result (self.new ≡ self.old ++ string text.now ∷ []) }
    {
        self.out.string(text)
    }

    /// A whole number.
    pub fn number(&mut self, count: u64) -> Result<(), AllocError>
        ensures { OnOk result (self.new ≡ self.old ++ number (decimal count) ∷ []) }
    {
        self.out.u64(count)
    }
}
