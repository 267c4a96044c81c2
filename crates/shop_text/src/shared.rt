use crate::Memory;
use std::alloc::Global;
use std::marker::Model;
use std::sync::Arc;

/// A value that several owners share. A contract sees the value, also as a field or inside a list.
#[derive(Debug, Drop)]
pub struct Shared<T> {
    value: Arc<T, Global>,
}

impl<T> Model for Shared<T> {
    ghost use Rattle.std.specs.Arc.{arc_value};

    ghost Value = { T };

    ghost view = { λ s. arc_value s.value };
}

impl<T> Shared<T> {
    ghost use Rattle.std.specs.Prelude.{◌≡◌, IfOk};

    /// The value, with one owner; a refusal drops it.
    pub fn new(alloc: Global, value: T) -> Result<Shared<T>, Memory>
    where
        T: Drop,
        ensures { IfOk result (λ shared. shared ≡ value) }
    {
        Ok(Shared {
            value: Arc::new(alloc, value)?,
        })
    }

    pub fn get(&self) -> &T
        ensures { result.now ≡ self.now }
    {
        &self.value
    }

    /// One more owner; takes no memory.
    pub fn share(&self) -> Result<Shared<T>, Memory>
        ensures { IfOk result (λ shared. shared ≡ self.now) }
    {
        Ok(Shared {
            value: Arc::try_clone(&self.value)?,
        })
    }
}
