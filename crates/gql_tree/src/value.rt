ghost use Rattle.std.specs.Prelude.{◌≡◌, ◌↔◌, IsTrue, IfOk};
ghost use Rattle.std.specs.Option.{option_copied};
ghost use Rattle.gql_tree.specs.Names.{named, apart};
ghost use Rattle.gql_tree.specs.Flat.{find, below, members_of};
ghost use Rattle.gql_tree.specs.Same.{SameFlat, SameItems};
ghost use Rattle.gql_tree.specs.inner.SameLayer.{SameLayer, FoundIn, NamedIn};
ghost use Rattle.gql_tree.specs.declared.value.Value.{out-Value};

use crate::{Fields, Key, Listed, Named, NoMemory, Text, TryCopy};

/// A response value: what a JSON text can hold whose numbers are integers of 64 signed bits.
#[derive(Debug, Drop)]
pub enum Value {
    Null,
    Bool(bool),
    Int(i64),
    Text(Text),
    List(Listed<Value>),
    Object(Fields<Value>),
}

/// A member of an object.
pub type Member = Named<Value>;

impl Value {
    /// The value at the path, and `None` exactly where there is none. Takes no memory.
    pub fn at(&self, path: &[Key]) -> Option<&Value>
        ensures { option_copied result ≡ find self.now path.now }
    {
        let mut here = self;
        for key in path {
            here = here.below(key)?;
        }
        Some(here)
    }

    fn below(&self, key: &Key) -> Option<&Value>
        ensures { option_copied result ≡ below (out-Value self.now) key.now }
    {
        match self {
            Value::List(items) => match key {
                Key::Index(index) => items.get(*index as usize),
                Key::Name(_) => None,
            },
            Value::Object(members) => match key {
                Key::Name(name) => members.get(name.as_str()),
                Key::Index(_) => None,
            },
            _ => None,
        }
    }

    /// A copy that equals its source.
    fn copied(&self) -> Result<Value, NoMemory>
        ensures { IfOk result (λ copy. copy ≡ self.now) }
    {
        match self {
            Value::Null => Ok(Value::Null),
            Value::Bool(truth) => Ok(Value::Bool(*truth)),
            Value::Int(number) => Ok(Value::Int(*number)),
            Value::Text(text) => Ok(Value::Text(text.copy()?)),
            Value::List(items) => {
                let mut copied = items.empty_like();
                for item in items.as_slice() {
                    copied.push(item.copied()?)?;
                }
                Ok(Value::List(copied))
            }
            Value::Object(members) => {
                let mut copied = members.empty_like();
                for member in members.as_slice() {
                    copied.push(member.name.copy()?, member.value.copied()?)?;
                }
                Ok(Value::Object(copied))
            }
        }
    }
}

impl TryCopy for Value {
    fn copy(&self) -> Result<Self, NoMemory> {
        self.copied()
    }
}

impl Value {
    /// Whether the two are equal up to the order of members. Takes no memory.
    #[cycle(same)]
    pub fn same(&self, other: &Value) -> bool
        ensures { IsTrue result ↔ SameFlat self.now other.now }
    {
        self.same_layer(other)
    }

    #[cycle(same)]
    fn same_layer(&self, other: &Value) -> bool
        ensures apart { IsTrue (apart (members_of (out-Value self.now))) }
        ensures same { IsTrue result ↔ SameLayer (out-Value self.now) (out-Value other.now) }
    {
        match self {
            Value::List(items) => match other {
                Value::List(second) => same_items(items.as_slice(), second.as_slice()),
                _ => false,
            },
            Value::Object(members) => {
                let entries = members.as_slice();
                match other {
                    Value::Object(second) => {
                        found_in(members, second) && named_in(second.as_slice(), members)
                    }
                    _ => false,
                }
            }
            _ => self.same_mark(other),
        }
    }
}

#[cycle(same)]
fn same_items(first: &[Value], second: &[Value]) -> bool
    ensures { IsTrue result ↔ SameItems first.now second.now }
{
    if first.len() != second.len() {
        return false;
    }
    for i in 0..first.len() {
        if !first[i].same(&second[i]) {
            return false;
        }
    }
    true
}

/// Whether each member has its name and an equal value among the others.
#[cycle(same)]
fn found_in(members: &Fields<Value>, others: &Fields<Value>) -> bool
    ensures { IsTrue result ↔ FoundIn others.now members.now }
{
    for member in members.as_slice() {
        match others.get(member.name.as_str()) {
            Some(other) => {
                if !member.value.same(other) {
                    return false;
                }
            }
            None => return false,
        }
    }
    true
}

/// Whether each name is one of the others.
fn named_in(members: &[Member], others: &Fields<Value>) -> bool
    ensures { IsTrue result ↔ NamedIn others.now members.now }
{
    for member in members {
        if others.get(member.name.as_str()).is_none() {
            return false;
        }
    }
    true
}
