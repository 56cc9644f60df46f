//! The union of two values' marks, as a value.

ghost use Rattle.std.specs.Prelude.{◌≡◌, ◌↔◌, ◌++◌, List, length, Some, Err, IsTrue, IfOk, OnOk};
ghost use Rattle.std.specs.Option.{option_copied};
ghost use Rattle.gql_tree.specs.declared.fields.Named.{Named};
ghost use Rattle.gql_tree.specs.declared.unite.Unlike.TheVariants.{Clash};
ghost use Rattle.gql_tree.specs.declared.value.Value.{out-Value};
ghost use Rattle.gql_tree.specs.declared.value.Value.TheVariants as Value;
ghost use Rattle.gql_tree.specs.Names.{apart};
ghost use Rattle.gql_tree.specs.Flat.{mark_of, items_of, members_of};
ghost use Rattle.gql_tree.specs.inner.United.{Unites, Conflict, UnitesMaybe, UnitesItems, AllJoin, others as others_of, ItemsClash, ConflictMaybe, MembersClash};

use crate::{Fields, Listed, Named, NoMemory, TryCopy, Value};

/// Why two values have no union.
#[derive(Debug, Drop)]
pub(crate) enum Unlike {
    /// One path has two different marks.
    Clash,
    NoMemory,
}

impl From<NoMemory> for Unlike {
    ghost use Rattle.gql_tree.specs.declared.unite.Unlike.TheVariants.{NoMemory};

    ghost from_gives = { λ _ unlike. unlike ≡ NoMemory };

    fn from(_: NoMemory) -> Self {
        Unlike::NoMemory
    }
}

impl Value {
    /// The value whose marks are those of the two.
    #[cycle(unite)]
    pub(crate) fn united(&self, other: &Value) -> Result<Value, Unlike>
        ensures ok { IfOk result (λ whole. Unites whole self.now other.now) }
        ensures clash { result ≡ Err Clash → Conflict self.now other.now }
    {
        if !self.same_mark(other) {
            return Err(Unlike::Clash);
        }
        match self {
            Value::List(items) => united_items(items, other.items()),
            Value::Object(members) => match other {
                Value::Object(second) => united_members(members, second),
                _ => Err(Unlike::Clash),
            },
            _ => Ok(self.copy()?),
        }
    }

    /// Whether a client sees the same of the two, but for what is below.
    pub(crate) fn same_mark(&self, other: &Value) -> bool
        ensures { IsTrue result ↔ (mark_of (out-Value self.now) ≡ mark_of (out-Value other.now)) }
    {
        match self {
            Value::Null => match other {
                Value::Null => true,
                _ => false,
            },
            Value::Bool(truth) => match other {
                Value::Bool(second) => *truth == *second,
                _ => false,
            },
            Value::Int(number) => match other {
                Value::Int(second) => *number == *second,
                _ => false,
            },
            Value::Text(text) => match other {
                Value::Text(second) => text.as_str() == second.as_str(),
                _ => false,
            },
            Value::List(items) => match other {
                Value::List(second) => items.len() == second.len(),
                _ => false,
            },
            Value::Object(_) => match other {
                Value::Object(_) => true,
                _ => false,
            },
        }
    }

    fn items(&self) -> &[Value]
        ensures { result.now ≡ items_of (out-Value self.now) }
    {
        match self {
            Value::List(items) => items.as_slice(),
            _ => &[],
        }
    }
}

#[cycle(unite)]
fn united_items(items: &Listed<Value>, others: &[Value]) -> Result<Value, Unlike>
    requires { length items.now ≡ length others.now }
    ensures ok { IfOk result (λ v. (rs : List Value.the_data) × (v ≡ Value.List rs) × UnitesItems rs items.now others.now) }
    ensures clash { result ≡ Err Clash → ItemsClash items.now others.now }
{
    let mut united = items.empty_like();
    let firsts = items.as_slice();
    for i in 0..firsts.len() {
        united.push(firsts[i].united(&others[i])?)?;
    }
    Ok(Value::List(united))
}

#[cycle(unite)]
fn united_members(members: &Fields<Value>, others: &Fields<Value>) -> Result<Value, Unlike>
    ensures ok { IfOk result (λ v. (rs : List (Named Value.the_data)) × (v ≡ Value.Object (rs ++ others_of members.now others.now)) × AllJoin others.now rs members.now) }
    ensures clash { result ≡ Err Clash → MembersClash members.now others.now }
{
    let mut united = members.no_entries();
    for member in members.as_slice() {
        let value = united_maybe(&member.value, others.get(member.name.as_str()))?;
        let name = member.name.copy()?;
        united.push(Named { name, value })?;
    }
    push_others(&mut united, members, others.as_slice())?;
    Ok(Value::Object(Fields::from_entries(united)))
}

/// The value with the other united in, where there is one.
#[cycle(unite)]
fn united_maybe(value: &Value, other: Option<&Value>) -> Result<Value, Unlike>
    ensures ok { IfOk result (λ whole. UnitesMaybe (Some whole) (Some value.now) (option_copied other.entry)) }
    ensures clash { result ≡ Err Clash → ConflictMaybe value.now (option_copied other.entry) }
{
    match other {
        Some(other) => value.united(other),
        None => Ok(value.copy()?),
    }
}

/// Copies the members whose names are new to the end of the list.
fn push_others(
    united: &mut Listed<Named<Value>>,
    members: &Fields<Value>,
    others: &[Named<Value>],
) -> Result<(), NoMemory>
    ensures { OnOk result (united.new ≡ united.old ++ others_of members.now others.now) }
{
    for other in others {
        if !members.has(other.name.as_str()) {
            let name = other.name.copy()?;
            let value = other.value.copy()?;
            united.push(Named { name, value })?;
        }
    }
    Ok(())
}
