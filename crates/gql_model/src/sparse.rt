//! A list that is mostly empty.

ghost use Rattle.std.specs.Prelude.{◌≡◌, ◌↔◌, [], length, IfOk, IsTrue};

use crate::Boxed;
use gql_tree::{Listed, NoMemory, TryCopy};
use std::alloc::Global;
use std::marker::Model;

/// A list that is mostly empty, and that contracts see as the list of its items, in order.
///
/// It takes less room than a `Listed`, and no memory beside that where it is empty.
#[derive(Debug, Drop)]
pub struct Sparse<T> {
    held: Option<Boxed<Listed<T>>>,
}

impl<T> Model for Sparse<T> {
    ghost use Rattle.std.specs.Prelude.{List, []};
    ghost use Rattle.std.specs.Coded.{coded_list};
    ghost use Rattle.std.specs.Option.{unwrap_or};

    ghost Value = { List T };

    ghost coded = { coded_list T.code };

    ghost view = { λ it. unwrap_or it.held [] };
}

impl<T> Sparse<T> {
    /// The empty list; takes no memory.
    pub fn new() -> Self
        ensures { result ≡ [] }
    {
        Sparse { held: None }
    }

    pub fn as_slice(&self) -> &[T]
        ensures { result.now ≡ self.now }
    {
        match &self.held {
            Some(items) => items.get().as_slice(),
            None => &[],
        }
    }

    pub fn len(&self) -> usize
        ensures { result ≡ length self.now }
    {
        self.as_slice().len()
    }

    pub fn is_empty(&self) -> bool
        ensures { IsTrue result ↔ (self.now ≡ []) }
    {
        self.as_slice().is_empty()
    }
}

impl<T: Drop> Sparse<T> {
    /// The list of the same items; takes no memory where there are none.
    pub fn from_listed(alloc: Global, items: Listed<T>) -> Result<Self, NoMemory>
        ensures { IfOk result (λ it. it ≡ items) }
    {
        if items.is_empty() {
            return Ok(Sparse::new());
        }
        Ok(Sparse {
            held: Some(Boxed::new(alloc, items)?),
        })
    }
}

impl<T: TryCopy> TryCopy for Sparse<T> {
    fn copy(&self) -> Result<Self, NoMemory> {
        Ok(Sparse {
            held: self.held.copy()?,
        })
    }
}
