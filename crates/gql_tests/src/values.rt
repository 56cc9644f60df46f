//! Values, paths and lists that the tests are made of.

use gql_tree::{Fields, Key, Listed, NoMemory, Path, Text, Value};
use std::alloc::Global;

/// A text of these letters.
pub fn text(alloc: Global, letters: &str) -> Result<Text, NoMemory> {
    Text::copy_of(alloc, letters)
}

/// A list of one item.
pub fn one<T: Drop>(alloc: Global, item: T) -> Result<Listed<T>, NoMemory> {
    let mut items = Listed::new(alloc);
    items.push(item)?;
    Ok(items)
}

/// An object of one member.
pub fn object(alloc: Global, name: &str, value: Value) -> Result<Value, NoMemory> {
    let mut fields = Fields::new(alloc);
    fields.insert(text(alloc, name)?, value)?;
    Ok(Value::Object(fields))
}

/// The path whose keys a `/` parts; digits are an index.
pub fn path(alloc: Global, words: &str) -> Result<Path, NoMemory> {
    let mut keys = Listed::new(alloc);
    for word in words.split('/') {
        if let Ok(index) = word.parse::<u32>() {
            keys.push(Key::Index(index))?;
        } else if !word.is_empty() {
            keys.push(Key::Name(text(alloc, word)?))?;
        }
    }
    Ok(Path { keys })
}
