//! Putting a value at a path of another.

ghost use Rattle.std.specs.Prelude.{◌≡◌, Some, IsSome};
ghost use Rattle.gql_tree.specs.Flat.{find};
ghost use Rattle.gql_tree.specs.inner.Place.{put_at, change_item, change_named, find_item, find_named};

use crate::fields::position_of;
use crate::{Fields, Key, Listed, Named, Text, Value};
use std::mem;

impl Value {
    /// Puts a value at a path, and gives the one that stood there.
    #[cycle(replace)]
    pub(crate) fn replace_at(&mut self, path: &[Key], value: Value) -> Value
        requires { IsSome (find self.old path.now) }
        ensures was { find self.old path.now ≡ Some result }
        ensures now { self.new ≡ put_at path.now value self.old }
    {
        match path.split_first() {
            None => mem::replace(self, value),
            Some((key, rest)) => match key {
                Key::Index(index) => match mem::replace(self, Value::Null) {
                    Value::List(items) => {
                        let mut held = items.into_vec();
                        let was = replace_item(&mut held, *index as usize, rest, value);
                        *self = Value::List(Listed::from_vec(held));
                        was
                    }
                    other => {
                        *self = other;
                        value
                    }
                },
                Key::Name(name) => match mem::replace(self, Value::Null) {
                    Value::Object(members) => {
                        let mut held = members.into_entries().into_vec();
                        let was = replace_member(&mut held, name, rest, value);
                        *self = Value::Object(Fields::from_entries(Listed::from_vec(held)));
                        was
                    }
                    other => {
                        *self = other;
                        value
                    }
                },
            },
        }
    }
}

#[cycle(replace)]
fn replace_item(items: &mut Vec<Value>, at: usize, rest: &[Key], value: Value) -> Value
    requires { IsSome (find_item rest.now at items.old.items) }
    ensures was { find_item rest.now at items.old.items ≡ Some result }
    ensures now { items.new.items ≡ change_item at (put_at rest.now value) items.old.items }
{
    items[at].replace_at(rest, value)
}

#[cycle(replace)]
fn replace_member(members: &mut Vec<Named<Value>>, name: &Text, rest: &[Key], value: Value) -> Value
    requires { IsSome (find_named rest.now name.now members.old.items) }
    ensures was { find_named rest.now name.now members.old.items ≡ Some result }
    ensures now { members.new.items ≡ change_named name.now (put_at rest.now value) members.old.items }
{
    match position_of(members.as_slice(), name.as_str()) {
        Some(at) => {
            let member = &mut members[at];
            member.value.replace_at(rest, value)
        }
        None => value,
    }
}
