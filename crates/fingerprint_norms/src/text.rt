//! Texts.

ghost use Rattle.std.specs.Prelude.{◌≡◌};

use case_order::{NoMemory, Share};
use std::marker::Model;

/// A text: a list of bytes, which contracts see.
#[derive(Debug, Drop)]
pub struct Text {
    bytes: Vec<u8>,
}

impl Model for Text {
    ghost use Rattle.std.specs.Prelude.{List, ℕ};

    ghost Value = { List ℕ };

    ghost view = { λ t. t.bytes.items };
}

impl Text {
    /// The text with the bytes of the vector; takes no memory.
    pub fn from_vec(bytes: Vec<u8>) -> Text
        ensures { result ≡ bytes.items }
    {
        Text { bytes }
    }

    /// The bytes.
    pub fn as_slice(&self) -> &[u8]
        ensures { result.now ≡ self.now }
    {
        self.bytes.as_slice()
    }
}

impl Share for Text {
    fn share(&self) -> Result<Text, NoMemory> {
        let bytes = Vec::from_slice(*self.bytes.allocator(), self.as_slice())?;
        Ok(Text { bytes })
    }
}
