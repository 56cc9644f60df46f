//! A box that contracts see as its value.

ghost use Rattle.std.specs.Prelude.{◌≡◌, IfOk};

use gql_tree::{NoMemory, TryCopy};
use std::alloc::Global;
use std::marker::Model;

/// A box that contracts see as its value, so that where it lies in memory is in no fact.
#[derive(Debug, Drop)]
pub struct Boxed<T> {
    held: Box<T>,
}

impl<T> Model for Boxed<T> {
    ghost Value = { T };

    ghost coded = { T.code };

    ghost view = { λ it. it.held.value };
}

impl<T> Boxed<T> {
    pub fn get(&self) -> &T
        ensures { result.now ≡ self.now }
    {
        &self.held
    }

    /// The value itself; takes no memory.
    pub fn into_inner(self) -> T
        ensures { result ≡ self }
    {
        let Boxed { held } = self;
        Box::into_inner(held)
    }
}

impl<T: Drop> Boxed<T> {
    pub fn new(alloc: Global, value: T) -> Result<Self, NoMemory>
        ensures { IfOk result (λ it. it ≡ value) }
    {
        Ok(Boxed {
            held: Box::new(alloc, value)?,
        })
    }

    /// A box of another value, with the allocator of this one.
    pub fn new_like(&self, value: T) -> Result<Self, NoMemory>
        ensures { IfOk result (λ it. it ≡ value) }
    {
        Boxed::new(*Box::allocator(&self.held), value)
    }
}

impl<T: TryCopy> TryCopy for Boxed<T> {
    fn copy(&self) -> Result<Self, NoMemory> {
        self.new_like(self.get().copy()?)
    }
}
