//! A value that is kept once, however many hold it.

ghost use Rattle.std.specs.Prelude.{◌≡◌, IfOk};

use std::alloc::{AllocError, Global};
use std::marker::Model;
use std::sync::Arc;

/// A value that is kept once, however many hold it. Contracts see the value.
pub struct Shared<T> {
    value: Arc<T, Global>,
}

// Written here, so that the crates above prove nothing of how what is shared is dropped.
impl<T: Drop> Drop for Shared<T> {
    fn drop(self) {
        let Self { value: _ } = self;
    }
}

impl<T> Model for Shared<T> {
    ghost Value = { T };

    ghost view = { λ shared. shared.value.value };
}

impl<T: Drop> Shared<T> {
    /// A value that is kept here alone so far. Refused for want of memory.
    pub fn new(alloc: Global, value: T) -> Result<Shared<T>, AllocError>
        ensures { IfOk result (λ shared. shared ≡ value) }
    {
        let value = Arc::new(alloc, value).or(Err(AllocError))?;
        Ok(Shared { value })
    }

    /// The same value once more. Refused where so many hold it that they cannot be counted.
    pub fn share(&self) -> Result<Shared<T>, AllocError>
        ensures { IfOk result (λ shared. shared ≡ self.now) }
    {
        Ok(Shared {
            value: Arc::try_clone(&self.value)?,
        })
    }

    /// The value.
    pub fn get(&self) -> &T
        ensures { result.now ≡ self.now }
    {
        &*self.value
    }
}

impl<T: PartialEq> PartialEq for Shared<T> {
    ghost eq = { T.eq };

    ghost laws = { T.laws };

    fn eq(&self, other: &Self) -> bool {
        *self.value == *other.value
    }
}

impl<T: Eq> Eq for Shared<T> {
    ghost laws = { T.Eq.laws };
}
