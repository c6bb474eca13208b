//! The one carrier of shared values.

ghost use Rattle.std.specs.Prelude.{◌≡◌, IfOk, IfErr};

use crate::share::{NoMemory, Share};
use std::alloc::Global;
use std::marker::Model;
use std::sync::Arc;

/// A value with several owners, in any threads, that contracts see as the value.
#[derive(Debug, Drop)]
pub struct Shared<T> {
    inner: Arc<T, Global>,
}

impl<T> Model for Shared<T> {
    ghost Value = { T };

    ghost coded = { T.code };

    ghost view = { λ s. s.inner.value };
}

impl<T> Shared<T> {
    /// The value with its first owner.
    ///
    /// Where memory is wanting the value is handed back.
    pub fn new(alloc: Global, value: T) -> Result<Shared<T>, (T, NoMemory)>
        ensures ok { IfOk result (λ shared. shared ≡ value) }
        ensures err { IfErr result (λ refused. refused.0 ≡ value) }
    {
        match Arc::new(alloc, value) {
            Ok(inner) => Ok(Shared { inner }),
            Err(refused) => Err((refused.value, NoMemory)),
        }
    }

    /// The value.
    pub fn get(&self) -> &T
        ensures { result.now ≡ self.now }
    {
        &self.inner
    }
}

impl<T> Share for Shared<T> {
    fn share(&self) -> Result<Shared<T>, NoMemory> {
        match Arc::try_clone(&self.inner) {
            Ok(inner) => Ok(Shared { inner }),
            Err(_) => Err(NoMemory),
        }
    }
}
