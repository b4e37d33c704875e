//! What copies share.

ghost use Rattle.std.specs.Prelude.{◌≡◌, IfOk, MatchResult};

use std::alloc::Global;
use std::marker::Model;
use std::sync::Arc;
use sw_base::{Duplicate, NoMemory};

/// What its copies share, which contracts see as if each had it alone.
#[derive(Debug, Drop)]
pub struct Shared<T> {
    inner: Arc<T>,
}

impl<T> Model for Shared<T> {
    ghost Value = { T };

    ghost coded = { T.code };

    ghost view = { λ s. s.inner.value };
}

impl<T> Shared<T> {
    /// What is shared.
    pub fn get(&self) -> &T
        ensures { result.now ≡ self.now }
    {
        &self.inner
    }
}

impl<T: Drop> Shared<T> {
    /// Keeps this, to be shared. The only error is want of memory.
    pub fn new(alloc: Global, inner: T) -> Result<Shared<T>, NoMemory>
        ensures { IfOk result (λ s. s ≡ inner) }
    {
        Ok(Shared {
            inner: Arc::new(alloc, inner)?,
        })
    }

    /// Takes out what is shared where nobody else shares it; else gives back the share of it.
    pub fn into_sole(self) -> Result<T, Shared<T>>
        ensures { MatchResult result (λ inner. inner ≡ self) (λ shared. shared ≡ self) }
    {
        let Shared { inner } = self;
        match Arc::try_unwrap(inner) {
            Ok(inner) => Ok(inner),
            Err(inner) => Err(Shared { inner }),
        }
    }
}

impl<T: Drop> Duplicate for Shared<T> {
    fn copy(&self) -> Result<Shared<T>, NoMemory> {
        Ok(Shared {
            inner: Arc::try_clone(&self.inner)?,
        })
    }
}
