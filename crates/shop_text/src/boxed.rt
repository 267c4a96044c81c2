use crate::Memory;
use std::alloc::Global;
use std::boxed::Box;
use std::marker::Model;

/// A value behind a pointer, so that what holds it stays small. A contract sees the value, also as a field
/// or inside a list.
#[derive(Debug, Drop)]
pub struct Boxed<T> {
    value: Box<T, Global>,
}

impl<T> Model for Boxed<T> {
    ghost Value = { T };

    ghost view = { λ b. b.value.value };
}

impl<T> Boxed<T> {
    ghost use Rattle.std.specs.Prelude.{◌≡◌, IfOk};

    /// A refusal drops the value.
    pub fn new(alloc: Global, value: T) -> Result<Boxed<T>, Memory>
    where
        T: Drop,
        ensures { IfOk result (λ boxed. boxed ≡ value) }
    {
        Ok(Boxed {
            value: Box::new(alloc, value)?,
        })
    }

    pub fn get(&self) -> &T
        ensures { result.now ≡ self.now }
    {
        &self.value
    }

    pub fn into_inner(self) -> T
        ensures { result ≡ self }
    {
        let Boxed { value } = self;
        Box::into_inner(value)
    }
}
