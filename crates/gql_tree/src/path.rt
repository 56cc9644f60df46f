ghost use Rattle.std.specs.Prelude.{◌≡◌};
ghost use Rattle.gql_tree.specs.Order.{key_cmp, path_cmp};

use crate::{Listed, NoMemory, Text, TryCopy};
use std::cmp::Ordering;

/// One step of a path: a member's name, or an item's index from 0.
#[derive(Debug, Drop)]
pub enum Key {
    Name(Text),
    Index(u32),
}

/// The way from the top of a response to a place in it.
#[derive(Debug, Drop)]
pub struct Path {
    pub keys: Listed<Key>,
}

impl Key {
    /// An index comes before a name, indices by number, names by bytes.
    pub fn compare(&self, other: &Key) -> Ordering
        ensures { result ≡ key_cmp self.now other.now }
    {
        match self {
            Key::Index(index) => match other {
                Key::Index(second) => index.cmp(second),
                Key::Name(_) => Ordering::Less,
            },
            Key::Name(name) => match other {
                Key::Index(_) => Ordering::Greater,
                Key::Name(second) => name.as_str().cmp(second.as_str()),
            },
        }
    }
}

impl TryCopy for Key {
    fn copy(&self) -> Result<Self, NoMemory> {
        match self {
            Key::Name(name) => Ok(Key::Name(name.copy()?)),
            Key::Index(index) => Ok(Key::Index(*index)),
        }
    }
}

impl Path {
    /// Key by key; a proper prefix comes first.
    pub fn compare(&self, other: &Path) -> Ordering
        ensures { result ≡ path_cmp self.now.keys other.now.keys }
    {
        compare_keys(self.keys.as_slice(), other.keys.as_slice())
    }
}

impl TryCopy for Path {
    fn copy(&self) -> Result<Self, NoMemory> {
        Ok(Path {
            keys: self.keys.copy()?,
        })
    }
}

fn compare_keys(first: &[Key], second: &[Key]) -> Ordering
    ensures { result ≡ path_cmp first.now second.now }
{
    for i in 0..first.len().min(second.len()) {
        match first[i].compare(&second[i]) {
            Ordering::Equal => {}
            order => return order,
        }
    }
    first.len().cmp(&second.len())
}
