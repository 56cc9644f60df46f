//! Reading tables: the query's row, and the persons that it may refer to.
//!
//! The bytes become JSON, the rows of `Person` persons in one pass, and their ids a map from an id
//! to a row's number, which shows ids that stand twice and finds the hero.

ghost use Rattle.std.specs.Prelude.{◌≡◌, ℕ, negsuc, List, ◌<◌, ◌^◌, [], ◌∷◌, length, nat_lt, Bool, true, false, IfOk, IfSome, Some, None, is_some, option_map, option_and_then, bytes_eq, codes};
ghost use Rattle.std.specs.HashMap.{get_by};
ghost use Rattle.serde_json.specs.Find.{get, as_array};
ghost use Rattle.serde_json.specs.View.{view, items_view};
ghost use Rattle.gql_model.specs.Sample.{tables as sample_tables};
ghost use Rattle.gql_tool.specs.hero.WorkedTables.{with_hero, with_cell, said};
ghost use Rattle.gql_tool.specs.declared.hero.tables.LeafCell.TheVariants as leaf;
ghost use Rattle.gql_tool.specs.declared.hero.tables.HeroCell.TheVariants as hero;
ghost use Rattle.gql_tool.specs.hero.HeroTables.{json_in, text_at, list_at, only_text, null_or_error, plain_text, plain_int, text_cell, int_cell, person_in, persons_in, row_ids, all_distinct, fits_together, number_of, ref_in, hero_by, hero_among, only_row, tables_by, tables_held, tables_in, tables_of};

use gql_tree::{Listed, NoMemory, Text};
use serde_json::Value;
use std::alloc::Global;
use std::collections::HashMap;

/// A cell of a person.
#[derive(Debug, Drop)]
pub enum LeafCell {
    Null,
    Int(i64),
    Text(Text),
    /// The resolver failed with this message.
    Error(Text),
}

/// A row of `Person`; a cell that the row doesn't have is `Null`.
#[derive(Debug, Drop)]
pub struct Person {
    pub row_id: Text,
    pub id: LeafCell,
    pub name: LeafCell,
    /// An integer of 32 signed bits, `Null` or an error.
    pub age: LeafCell,
    pub boom: LeafCell,
}

/// The cell `hero` of the query's row.
#[derive(Debug, Drop)]
pub enum HeroCell {
    Null,
    /// The resolver failed with this message.
    Error(Text),
    /// The number of a person, from 0.
    Ref(u32),
}

/// The query's row, and fewer than 2^32 persons; no row has another one's id.
#[derive(Debug, Drop)]
pub struct HeroTables {
    pub query_id: Text,
    pub hero: HeroCell,
    pub persons: Listed<Person>,
}

/// Reads tables from all of `bytes`: an object with a list `Query` of one row and a list `Person` of
/// rows. Gives `None` where they are none: no JSON, a list that is missing, a row that is no object
/// or has no text `@id`, an id that stands twice, or a cell of another kind than its field's. Of
/// equal names the last counts, and members of other names may be anything.
pub fn read_tables(alloc: Global, bytes: &[u8]) -> Result<Option<HeroTables>, NoMemory>
    ensures { IfOk result (λ tables. tables ≡ tables_in bytes.now) }
{
    let Some(file) = json_in(alloc, bytes)? else {
        return Ok(None);
    };
    tables_held(alloc, &file)
}

// ---- JSON

/// The JSON that bytes are.
fn json_in(alloc: Global, bytes: &[u8]) -> Result<Option<Value>, NoMemory>
    ensures { IfOk result (λ file. option_map view file ≡ json_in bytes.now) }
{
    match Value::from_slice(alloc, bytes) {
        Ok(file) => Ok(Some(file)),
        Err(error) => if error.is_memory() {
            Err(NoMemory)
        } else {
            Ok(None)
        },
    }
}

/// An object's member of this name, if it is a text.
fn text_at<'v>(value: &'v Value, name: &str) -> Option<&'v str>
    ensures { option_map (λ text. text.now) result ≡ text_at name.now (view value.now) }
{
    value.get(name)?.as_str()
}

/// An object's member of this name, if it is a list.
fn list_at<'v>(value: &'v Value, name: &str) -> Option<&'v [Value]>
    ensures { option_map (λ rows. items_view rows.now) result ≡ list_at name.now (view value.now) }
{
    let rows = value.get(name)?.as_array()?;
    Some(rows.as_slice())
}

/// An object's only member, if it has this name and is a text.
fn only_text<'v>(value: &'v Value, name: &str) -> Option<&'v str>
    ensures { option_map (λ text. text.now) result ≡ only_text name.now (view value.now) }
{
    let members = value.as_object()?;
    if members.len() != 1 {
        return None;
    }
    text_at(value, name)
}

// ---- cells

/// What each cell of a person may be.
fn null_or_error(alloc: Global, cell: &Value) -> Result<Option<LeafCell>, NoMemory>
    ensures { IfOk result (λ found. found ≡ null_or_error (view cell.now)) }
{
    if cell.is_null() {
        return Ok(Some(LeafCell::Null));
    }
    match only_text(cell, "error") {
        Some(message) => Ok(Some(LeafCell::Error(Text::copy_of(alloc, message)?))),
        None => Ok(None),
    }
}

fn plain_text(alloc: Global, cell: &Value) -> Result<Option<LeafCell>, NoMemory>
    ensures { IfOk result (λ found. found ≡ plain_text (view cell.now)) }
{
    match cell.as_str() {
        Some(text) => Ok(Some(LeafCell::Text(Text::copy_of(alloc, text)?))),
        None => Ok(None),
    }
}

/// An integer of 32 signed bits.
fn plain_int(cell: &Value) -> Option<LeafCell>
    ensures { result ≡ plain_int (view cell.now) }
{
    let number = cell.as_i64()?;
    if number < i32::MIN as i64 || number > i32::MAX as i64 {
        return None;
    }
    Some(LeafCell::Int(number))
}

fn text_cell(alloc: Global, row: &Value, name: &str) -> Result<Option<LeafCell>, NoMemory>
    ensures { IfOk result (λ found. found ≡ text_cell name.now (view row.now)) }
{
    let Some(cell) = row.get(name) else {
        return Ok(Some(LeafCell::Null));
    };
    match null_or_error(alloc, cell)? {
        Some(found) => Ok(Some(found)),
        None => plain_text(alloc, cell),
    }
}

fn int_cell(alloc: Global, row: &Value, name: &str) -> Result<Option<LeafCell>, NoMemory>
    ensures { IfOk result (λ found. found ≡ int_cell name.now (view row.now)) }
{
    let Some(cell) = row.get(name) else {
        return Ok(Some(LeafCell::Null));
    };
    match null_or_error(alloc, cell)? {
        Some(found) => Ok(Some(found)),
        None => Ok(plain_int(cell)),
    }
}

// ---- persons

fn person_in(alloc: Global, row: &Value) -> Result<Option<Person>, NoMemory>
    ensures { IfOk result (λ person. person ≡ person_in (view row.now)) }
{
    let Some(row_id) = text_at(row, "@id") else {
        return Ok(None);
    };
    let Some(id) = text_cell(alloc, row, "id")? else {
        return Ok(None);
    };
    let Some(name) = text_cell(alloc, row, "name")? else {
        return Ok(None);
    };
    let Some(age) = int_cell(alloc, row, "age")? else {
        return Ok(None);
    };
    let Some(boom) = text_cell(alloc, row, "boom")? else {
        return Ok(None);
    };
    Ok(Some(Person {
        row_id: Text::copy_of(alloc, row_id)?,
        id,
        name,
        age,
        boom,
    }))
}

/// The persons of a list of rows, if each row is one.
fn persons_in(alloc: Global, rows: &[Value]) -> Result<Option<Listed<Person>>, NoMemory>
    ensures { IfOk result (λ persons. persons ≡ persons_in (items_view rows.now)) }
{
    let mut persons = Listed::new(alloc);
    for row in rows {
        let Some(person) = person_in(alloc, row)? else {
            return Ok(None);
        };
        persons.push(person)?;
    }
    Ok(Some(persons))
}

// ---- ids

/// The number of each id, from 0, or `None` where an id stands twice.
fn numbers_of<'p>(
    alloc: Global,
    persons: &'p [Person],
) -> Result<Option<HashMap<&'p str, u32>>, NoMemory>
    requires { length persons.now < 2 ^ 32 }
    ensures distinct { IfOk result (λ numbers. is_some numbers ≡ all_distinct (row_ids persons.now)) }
    ensures numbers { IfOk result (λ found. IfSome found (λ numbers. (id : List ℕ) →
        get_by (λ key. bytes_eq id key.now) numbers ≡ number_of id (row_ids persons.now))) }
{
    let mut numbers = HashMap::new(alloc);
    for (index, person) in persons.iter().enumerate() {
        match numbers.insert(person.row_id.as_str(), index as u32) {
            Ok(None) => {}
            Ok(Some(_)) => return Ok(None),
            Err(_) => return Err(NoMemory),
        }
    }
    Ok(Some(numbers))
}

// ---- the hero

/// `{"ref": ID}` of a row that is there.
fn ref_in(cell: &Value, numbers: &HashMap<&str, u32>) -> Option<HeroCell>
    ensures { (ids : List (List ℕ)) →
        ((id : List ℕ) → get_by (λ key. bytes_eq id key.now) numbers.now ≡ number_of id ids) →
        result ≡ ref_in ids (view cell.now) }
{
    let id = only_text(cell, "ref")?;
    let number = numbers.get(id)?;
    Some(HeroCell::Ref(*number))
}

fn hero_by(
    alloc: Global,
    cell: &Value,
    numbers: &HashMap<&str, u32>,
) -> Result<Option<HeroCell>, NoMemory>
    ensures { IfOk result (λ hero. (ids : List (List ℕ)) →
        ((id : List ℕ) → get_by (λ key. bytes_eq id key.now) numbers.now ≡ number_of id ids) →
        hero ≡ hero_by ids (Some (view cell.now))) }
{
    if cell.is_null() {
        return Ok(Some(HeroCell::Null));
    }
    match only_text(cell, "error") {
        Some(message) => Ok(Some(HeroCell::Error(Text::copy_of(alloc, message)?))),
        None => Ok(ref_in(cell, numbers)),
    }
}

/// The hero of a query row among persons, if no id stands twice.
fn hero_among(
    alloc: Global,
    query: &Value,
    query_id: &str,
    persons: &[Person],
) -> Result<Option<HeroCell>, NoMemory>
    ensures { IfOk result (λ hero. hero ≡ hero_among query_id.now (row_ids persons.now) (view query.now)) }
{
    if persons.len() > u32::MAX as usize {
        return Ok(None);
    }
    let Some(numbers) = numbers_of(alloc, persons)? else {
        return Ok(None);
    };
    if numbers.contains_key(query_id) {
        return Ok(None);
    }
    match query.get("hero") {
        Some(cell) => hero_by(alloc, cell, &numbers),
        None => Ok(Some(HeroCell::Null)),
    }
}

// ---- tables

/// A list's row, if there is one alone.
fn only_row(rows: &[Value]) -> Option<&Value>
    ensures { option_map (λ row. view row.now) result ≡ only_row (items_view rows.now) }
{
    match rows {
        [row] => Some(row),
        _ => None,
    }
}

/// The tables of a query row and of the persons beside it.
fn tables_by(alloc: Global, query: &Value, file: &Value) -> Result<Option<HeroTables>, NoMemory>
    ensures { IfOk result (λ tables. tables ≡ tables_by (view query.now)
        (text_at (codes "@id") (view query.now))
        (option_and_then persons_in (list_at (codes "Person") (view file.now)))) }
{
    let Some(query_id) = text_at(query, "@id") else {
        return Ok(None);
    };
    let Some(rows) = list_at(file, "Person") else {
        return Ok(None);
    };
    let Some(persons) = persons_in(alloc, rows)? else {
        return Ok(None);
    };
    let Some(hero) = hero_among(alloc, query, query_id, persons.as_slice())? else {
        return Ok(None);
    };
    Ok(Some(HeroTables {
        query_id: Text::copy_of(alloc, query_id)?,
        hero,
        persons,
    }))
}

/// The tables that a JSON holds.
fn tables_held(alloc: Global, file: &Value) -> Result<Option<HeroTables>, NoMemory>
    ensures { IfOk result (λ tables. tables ≡ tables_held (view file.now)) }
{
    let Some(queries) = list_at(file, "Query") else {
        return Ok(None);
    };
    let Some(query) = only_row(queries) else {
        return Ok(None);
    };
    tables_by(alloc, query, file)
}

/// What worked texts are as tables.
pub fn worked_tables()
    // the sample service: a null name, errors and missing ages
    ensures sample { option_map said (option_map tables_of (tables_in (with_hero (codes "{\"ref\":\"1\"}"))))
        ≡ Some (said sample_tables) }

    // the hero is the second person, an error, or null
    ensures second { option_map (λ t. t.hero) (tables_in (with_hero (codes "{\"ref\":\"2\"}"))) ≡ Some (hero.Ref 1) }
    ensures failed { option_map (λ t. t.hero) (tables_in (with_hero (codes "{\"error\":\"gone\"}")))
        ≡ Some (hero.Error (codes "gone")) }
    ensures absent { option_map (λ t. t.hero) (tables_in (with_hero (codes "null"))) ≡ Some hero.Null }

    // cells that aren't there are null, and of equal names the last counts
    ensures person { option_map (λ t. t.persons) (tables_in (with_cell (codes "\"age\":\"x\",\"age\":-7")))
        ≡ Some (record { row_id = codes "1"; id = leaf.Null; name = leaf.Null; age = leaf.Int (negsuc 6); boom = leaf.Null } ∷ []) }

    // references to the query's row, to no row, and with another member; and a text
    ensures query_row { tables_in (with_hero (codes "{\"ref\":\"q\"}")) ≡ None }
    ensures no_row { tables_in (with_hero (codes "{\"ref\":\"4\"}")) ≡ None }
    ensures two_members { tables_in (with_hero (codes "{\"ref\":\"1\",\"x\":1}")) ≡ None }
    ensures plain_hero { tables_in (with_hero (codes "\"1\"")) ≡ None }

    // the least and the greatest integer, and those beyond them
    ensures least { is_some (tables_in (with_cell (codes "\"age\":-2147483648"))) ≡ true }
    ensures below { tables_in (with_cell (codes "\"age\":-2147483649")) ≡ None }
    ensures greatest { is_some (tables_in (with_cell (codes "\"age\":2147483647"))) ≡ true }
    ensures above { tables_in (with_cell (codes "\"age\":2147483648")) ≡ None }

    // a number in place of a text, a reference, and an id that stands twice
    ensures number { tables_in (with_cell (codes "\"name\":5")) ≡ None }
    ensures reference { tables_in (with_cell (codes "\"boom\":{\"ref\":\"1\"}")) ≡ None }
    ensures twice { tables_in (with_cell (codes "\"id\":\"1\"},{\"@id\":\"1\"")) ≡ None }
{}
