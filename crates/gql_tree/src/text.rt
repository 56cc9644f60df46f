ghost use Rattle.std.specs.Prelude.{◌≡◌, ℕ, List, IfOk, string_bytes};

use crate::{NoMemory, TryCopy};
use arrayvec::ArrayString;
use std::alloc::Global;
use std::marker::Model;

/// The most bytes of a text that lies in the `Text` itself: most names of a document have no more,
/// and with one more a `Text` would take more than 32 bytes.
const MOST_INLINE: usize = 16;

/// A text in UTF-8 that contracts see as the list of its bytes.
///
/// A short one takes no memory beside the `Text`, but for that of a string that it was made of.
#[derive(Debug, Drop)]
pub struct Text {
    held: Held,
}

const _: () = prove!(size_of::<Text>() <= 32);

#[derive(Debug, Drop)]
enum Held {
    Short(ArrayString<MOST_INLINE>),
    Long(String),
}

impl Model for Text {
    ghost use Rattle.std.specs.Prelude.{ℕ, List};
    ghost use Rattle.gql_tree.specs.inner.Held.{held_bytes};

    ghost Value = { List ℕ };

    ghost view = { λ t. held_bytes t.held };
}

impl Text {
    /// The text that a string holds; takes no memory.
    pub fn from_string(string: String) -> Self
        ensures { result ≡ string_bytes string }
    {
        Text {
            held: Held::Long(string),
        }
    }

    pub fn copy_of(alloc: Global, text: &str) -> Result<Self, NoMemory>
        ensures { IfOk result (λ copy. copy ≡ text.now) }
    {
        let held = match ArrayString::from(text) {
            Ok(short) => Held::Short(short),
            Err(_) => Held::Long(String::from_str(alloc, text)?),
        };
        Ok(Text { held })
    }

    pub fn as_str(&self) -> &str
        ensures { result.now ≡ self.now }
    {
        match &self.held {
            Held::Short(short) => short.as_str(),
            Held::Long(string) => string.as_str(),
        }
    }
}

impl TryCopy for Text {
    fn copy(&self) -> Result<Self, NoMemory> {
        let held = match &self.held {
            Held::Short(short) => Held::Short(*short),
            Held::Long(string) => Held::Long(string.clone()?),
        };
        Ok(Text { held })
    }
}
