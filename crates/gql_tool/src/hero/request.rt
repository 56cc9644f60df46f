//! The requests that this build executes.

ghost use Rattle.std.specs.Prelude.{◌≡◌, IfOk, bytes_eq};
ghost use Rattle.gql_tool.specs.hero.Built.{schema_text, built};

use crate::hero::shape::{HeroDocument, hero_of};
use crate::hero::tables::{HeroTables, read_tables};
use gql_model::Document;
use gql_tree::NoMemory;
use std::alloc::Global;

/// A query of the hero, and the tables that it is asked of.
#[derive(Debug, Drop)]
pub(crate) struct HeroRequest {
    pub(crate) tables: HeroTables,
    pub(crate) document: HeroDocument,
}

/// The one schema that is built.
const SCHEMA: &[u8] =
    b"type Query { hero: Person crew: [Person!] cast: [Person] none: [Person] }\ntype Person { id: ID! name: String! age: Int boom: String!\n  nick(upper: Boolean = false): String friends: [Person!]! rival: Person }\n";

fn is_built_schema(schema: &[u8]) -> bool
    ensures { result ≡ bytes_eq schema.now schema_text }
{
    schema == SCHEMA
}

/// The request with this document, where this build executes it.
pub(crate) fn built(
    alloc: Global,
    vars: &str,
    schema: &[u8],
    tables: &[u8],
    document: &Document,
) -> Result<Option<HeroRequest>, NoMemory>
    ensures { IfOk result (λ request. request ≡ built vars.now schema.now tables.now document.now) }
{
    if vars != "-" || !is_built_schema(schema) {
        return Ok(None);
    }
    let Some(tables) = read_tables(alloc, tables)? else {
        return Ok(None);
    };
    let Some(document) = hero_of(alloc, document)? else {
        return Ok(None);
    };
    Ok(Some(HeroRequest { tables, document }))
}
