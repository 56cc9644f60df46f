//! Uniting fields into the object at a path, and appending items to the list at a path.

ghost use Rattle.std.specs.Prelude.{◌≡◌, ◌≢◌, ◌↔◌, ◌++◌, IsTrue, Some, None, Err, OnOk, OnErr};
ghost use Rattle.gql_tree.specs.declared.graft.GraftRefusal.TheVariants.{NoSuchPlace, Clash, NotAList};
ghost use Rattle.gql_tree.specs.declared.value.Value.{out-Value};
ghost use Rattle.gql_tree.specs.declared.value.Value.TheVariants as Value;
ghost use Rattle.gql_tree.specs.Flat.{flat, items_of, object};
ghost use Rattle.gql_tree.specs.Union.{IsUnion, Clashes, moved};
ghost use Rattle.gql_tree.specs.Extended.{IsLonger, IsOther};
ghost use Rattle.gql_tree.specs.inner.Place.{IsObject, IsList};

use crate::unite::Unlike;
use crate::{Key, Listed, NoMemory, Value};
use std::mem;
use thiserror::Error;

/// Why something was not joined to what stands at a path.
#[derive(Debug, Drop, Error)]
pub enum GraftRefusal {
    /// Nothing of the wanted kind stands at the path.
    #[error("nothing of the wanted kind stands at the path")]
    NoSuchPlace,
    /// One path has two different marks.
    #[error("another value stands there already")]
    Clash,
    /// Another value than a list stands at the path.
    #[error("no list stands at the path")]
    NotAList,
    #[error("no memory left")]
    NoMemory,
}

impl From<NoMemory> for GraftRefusal {
    ghost use Rattle.gql_tree.specs.declared.graft.GraftRefusal.TheVariants.{NoMemory};

    ghost from_gives = { λ _ refusal. refusal ≡ NoMemory };

    fn from(_: NoMemory) -> Self {
        GraftRefusal::NoMemory
    }
}

impl From<Unlike> for GraftRefusal {
    ghost use Rattle.gql_tree.specs.declared.unite.Unlike.TheVariants as Unlike;
    ghost use Rattle.gql_tree.specs.declared.graft.GraftRefusal.TheVariants.{NoMemory, Clash};

    ghost from_gives = { λ unlike refusal. elim unlike [ Unlike.Clash ↦ refusal ≡ Clash | Unlike.NoMemory ↦ refusal ≡ NoMemory ] };

    fn from(unlike: Unlike) -> Self {
        match unlike {
            Unlike::Clash => GraftRefusal::Clash,
            Unlike::NoMemory => GraftRefusal::NoMemory,
        }
    }
}

impl Value {
    /// Unites the fields into the object at the path: what then has a mark is what had one, and each
    /// path of the fields behind this path. `NoSuchPlace` exactly where no object stands there, else
    /// `Clash` exactly where some path has two different marks; fields that are no object always clash.
    pub fn graft(&mut self, path: &[Key], fields: Value) -> Result<(), GraftRefusal>
        ensures united { OnOk result (IsUnion (flat self.new) (flat self.old) (moved path.now (flat fields))) }
        ensures agreed { OnOk result (Clashes (flat self.old) (moved path.now (flat fields)) → ⊥) }
        ensures place { (result ≡ Err NoSuchPlace) ↔ (flat self.old path.now ≢ Some object) }
        ensures clash { result ≡ Err Clash → Clashes (flat self.old) (moved path.now (flat fields)) }
        ensures kind { result ≢ Err NotAList }
        ensures kept { OnErr result (self.new ≡ self.old) }
    {
        let place = match self.at(path) {
            None => return Err(GraftRefusal::NoSuchPlace),
            Some(place) => place,
        };
        if !place.is_object() {
            return Err(GraftRefusal::NoSuchPlace);
        }
        let whole = place.united(&fields)?;
        drop(self.replace_at(path, whole));
        Ok(())
    }

    /// Appends the items to the list at the path. `NoSuchPlace` exactly where nothing stands there,
    /// else `NotAList` exactly where something other than a list does.
    pub fn extend(&mut self, path: &[Key], items: Listed<Value>) -> Result<(), GraftRefusal>
        ensures longer { OnOk result (IsLonger (flat self.new) (flat self.old) path.now items) }
        ensures place { (result ≡ Err NoSuchPlace) ↔ (flat self.old path.now ≡ None) }
        ensures kind { (result ≡ Err NotAList) ↔ IsOther (flat self.old path.now) }
        ensures clash { result ≢ Err Clash }
        ensures kept { OnErr result (self.new ≡ self.old) }
    {
        match self.at(path) {
            None => return Err(GraftRefusal::NoSuchPlace),
            Some(place) => {
                if !place.is_list() {
                    return Err(GraftRefusal::NotAList);
                }
            }
        }
        let mut place = self.replace_at(path, Value::Null);
        let grown = place.append(items);
        drop(self.replace_at(path, place));
        grown?;
        Ok(())
    }

    fn is_object(&self) -> bool
        ensures { IsTrue result ↔ IsObject (out-Value self.now) }
    {
        match self {
            Value::Object(_) => true,
            _ => false,
        }
    }

    fn is_list(&self) -> bool
        ensures { IsTrue result ↔ IsList (out-Value self.now) }
    {
        match self {
            Value::List(_) => true,
            _ => false,
        }
    }

    /// Appends to a list.
    fn append(&mut self, items: Listed<Value>) -> Result<(), NoMemory>
        requires { IsList (out-Value self.old) }
        ensures ok { OnOk result (self.new ≡ Value.List (items_of (out-Value self.old) ++ items)) }
        ensures err { OnErr result (self.new ≡ self.old) }
    {
        match mem::replace(self, Value::Null) {
            Value::List(mut list) => {
                let done = list.append(items);
                *self = Value::List(list);
                done
            }
            other => {
                *self = other;
                Ok(())
            }
        }
    }
}
