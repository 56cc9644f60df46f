//! Named values, no name twice.

ghost use Rattle.std.specs.Prelude.{◌≡◌, ◌↔◌, [], ◌∷◌, ◌++◌, false, position, IsTrue, OnOk, OnErr};
ghost use Rattle.std.specs.Option.{option_copied};
ghost use Rattle.std.specs.Str.{bytes_eq};
ghost use Rattle.gql_tree.specs.Names.{has_name, apart, named, put_named};

use crate::{Listed, NoMemory, Text};
use std::alloc::Global;
use std::marker::Model;

/// A value with its name, as a member of a JSON object.
#[derive(Debug, Drop)]
pub struct Named<T> {
    pub name: Text,
    pub value: T,
}

/// Named values in their order, no name twice: the members of an object.
///
/// Contracts see the list of the members, and that their names are apart is a fact of the type.
#[derive(Debug, Drop)]
pub struct Fields<T> {
    items: Vec<Named<T>>,
}

impl<T> Model for Fields<T> {
    ghost use Rattle.std.specs.Prelude.{List, IsTrue};
    ghost use Rattle.std.specs.Coded.{codes};
    ghost use Rattle.gql_tree.specs.declared.fields.Named.{Named};
    ghost use Rattle.gql_tree.specs.Names.{apart};

    ghost Value = { List (Named T) };

    ghost view = { λ a. a.items.items };

    ghost invariant = { λ a. IsTrue (apart a.items.items) };
}

impl<T> Fields<T> {
    pub fn new(alloc: Global) -> Self
        ensures { result ≡ [] }
    {
        Fields {
            items: Vec::new(alloc),
        }
    }

    /// No members, with the allocator of this object.
    pub fn empty_like(&self) -> Self
        ensures { result ≡ [] }
    {
        Fields {
            items: Vec::new(*self.items.allocator()),
        }
    }

    /// No members yet, as a list, with the allocator of this object.
    pub(crate) fn no_entries(&self) -> Listed<Named<T>>
        ensures { result ≡ [] }
    {
        Listed::from_vec(Vec::new(*self.items.allocator()))
    }

    pub(crate) fn from_entries(entries: Listed<Named<T>>) -> Self
        requires { IsTrue (apart entries) }
        ensures { result ≡ entries }
    {
        Fields {
            items: entries.into_vec(),
        }
    }

    pub(crate) fn into_entries(self) -> Listed<Named<T>>
        ensures now { result ≡ self }
        ensures apart { IsTrue (apart self) }
    {
        let Fields { items } = self;
        Listed::from_vec(items)
    }

    pub fn as_slice(&self) -> &[Named<T>]
        ensures now { result.now ≡ self.now }
        ensures apart { IsTrue (apart self.now) }
    {
        self.items.as_slice()
    }

    /// The value of this name.
    pub fn get(&self, name: &str) -> Option<&T>
        ensures { option_copied result ≡ named name.now self.now }
    {
        for member in self.items.as_slice() {
            if member.name.as_str() == name {
                return Some(&member.value);
            }
        }
        None
    }
}

impl<T> Fields<T> {
    pub(crate) fn has(&self, name: &str) -> bool
        ensures { result ≡ has_name name.now self.now }
    {
        self.get(name).is_some()
    }
}

impl<T: Drop> Fields<T> {
    /// Adds a member whose name is none of the object's.
    pub fn push(&mut self, name: Text, value: T) -> Result<(), NoMemory>
        requires { has_name name self.old ≡ false }
        ensures ok { OnOk result (self.new ≡ self.old ++ record { name = name; value = value } ∷ []) }
        ensures err { OnErr result (self.new ≡ self.old) }
    {
        self.items.push(Named { name, value })?;
        Ok(())
    }
    /// Puts a value under a name: in place of the one that has it, else at the end.
    pub fn insert(&mut self, name: Text, value: T) -> Result<(), NoMemory>
        ensures ok { OnOk result (self.new ≡ put_named name value self.old) }
        ensures err { OnErr result (self.new ≡ self.old) }
    {
        match position_of(self.items.as_slice(), name.as_str()) {
            Some(at) => {
                drop(name);
                self.items[at].value = value;
                Ok(())
            }
            None => self.push(name, value),
        }
    }
}

/// The index of the member of a name.
pub(crate) fn position_of<T>(members: &[Named<T>], name: &str) -> Option<usize>
    ensures { result ≡ position (λ member. bytes_eq member.name name.now) members.now }
{
    members
        .iter()
        .position(|member| member.name.as_str() == name)
}
