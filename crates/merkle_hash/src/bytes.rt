//! Byte strings.

ghost use Rattle.std.specs.Prelude.{◌≡◌, IfOk, IfErr};

use case_order::{NoMemory, Share, Shared};
use std::alloc::Global;
use std::marker::Model;

/// A byte string with several owners, in any threads. Contracts see the bytes.
#[derive(Debug, Drop)]
pub struct Bytes {
    items: Shared<Vec<u8>>,
}

impl Model for Bytes {
    ghost use Rattle.std.specs.Prelude.{List, ℕ};

    ghost Value = { List ℕ };

    ghost view = { λ b. b.items.items };
}

impl Bytes {
    /// The bytes of the vector.
    ///
    /// Where memory is wanting the vector is handed back.
    pub fn from_vec(alloc: Global, items: Vec<u8>) -> Result<Bytes, (Vec<u8>, NoMemory)>
        ensures ok { IfOk result (λ bytes. bytes ≡ items.items) }
        ensures err { IfErr result (λ refused. refused.0 ≡ items) }
    {
        let items = Shared::new(alloc, items)?;
        Ok(Bytes { items })
    }

    /// The bytes.
    pub fn as_slice(&self) -> &[u8]
        ensures { result.now ≡ self.now }
    {
        self.items.get().as_slice()
    }
}

impl Share for Bytes {
    fn share(&self) -> Result<Bytes, NoMemory> {
        let items = self.items.share()?;
        Ok(Bytes { items })
    }
}
