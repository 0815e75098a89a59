ghost use Rattle.std.specs.Prelude.{◌≡◌, IfOk};

use std::alloc::{AllocError, Global};
use std::marker::Model;

/// A value in a block of memory of its own: the large part of an enum, which would be as large in each of its variants
/// and is moved whenever the enum is handed on. Contracts see it as the value.
#[derive(Debug, Drop)]
pub struct Boxed<T> {
    content: Box<T>,
}

impl<T> Model for Boxed<T> {
    ghost Value = { T };

    ghost view = { λ boxed. boxed.content.value };
}

impl<T: Drop> Boxed<T> {
    /// This value. Takes memory once.
    pub fn of(alloc: Global, value: T) -> Result<Boxed<T>, AllocError>
        ensures { IfOk result (λ boxed. boxed ≡ value) }
    {
        match Box::new(alloc, value) {
            Ok(content) => Ok(Boxed { content }),
            Err(failed) => Err(AllocError::from(failed)),
        }
    }

    /// The value.
    pub fn get(&self) -> &T
        ensures { result.now ≡ self.now }
    {
        &self.content
    }
}
