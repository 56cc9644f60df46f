//! Look-ups in a schema and in the lists of its types, and its copy.

use gql_model::{ByName, FieldDef, InputDef, Schema, TypeDef, TypeKind, TypeNo, TypeUse};
use gql_tree::{Listed, NoMemory, Text, TryCopy, Value};
use std::alloc::Global;
use std::process::Abort;
use std::test::Fail;

/// Names of a list that is walked, and of one that has an order; each has a name twice.
const FEW: &[&str] = &["b", "a", "", "ab", "a"];

const MANY: &[&str] = &[
    "m", "k", "Z", "ab", "c", "a", "m", "aa", "\u{e9}", "z", "b", "a", "",
];

/// Input fields of type 0, whose defaults are their names.
fn inputs(alloc: Global, names: &[&str]) -> Result<ByName<InputDef>, NoMemory> {
    let mut list = Listed::new(alloc);
    for &name in names {
        list.push(InputDef {
            name: Text::copy_of(alloc, name)?,
            kind: TypeUse::Named(TypeNo { number: 0 }),
            default: Some(Value::Text(Text::copy_of(alloc, name)?)),
        })?;
    }
    ByName::new(alloc, list)
}

/// Fields without arguments, which have a type.
fn fields(alloc: Global, names: &[&str], of: TypeNo) -> Result<ByName<FieldDef>, NoMemory> {
    let mut list = Listed::new(alloc);
    for &name in names {
        list.push(FieldDef {
            name: Text::copy_of(alloc, name)?,
            arguments: Listed::new(alloc),
            kind: TypeUse::Named(of),
        })?;
    }
    ByName::new(alloc, list)
}

/// A type that has each name as a field and as an input field, and itself as a possible type.
fn definition(alloc: Global, names: &[&str], name: &str, of: TypeNo) -> Result<TypeDef, NoMemory> {
    let mut members = Listed::new(alloc);
    members.push(of)?;
    Ok(TypeDef {
        name: Text::copy_of(alloc, name)?,
        kind: TypeKind::Object,
        fields: fields(alloc, names, of)?,
        inputs: inputs(alloc, names)?,
        interfaces: Listed::new(alloc),
        members,
        values: Listed::new(alloc),
    })
}

/// A schema whose types have these names.
fn schema(alloc: Global, names: &[&str]) -> Result<Schema, NoMemory> {
    let mut list = Listed::new(alloc);
    let mut number = 0_u32;
    for &name in names {
        list.push(definition(alloc, names, name, TypeNo { number })?)?;
        number = number.wrapping_add(1);
    }
    Ok(Schema {
        types: ByName::new(alloc, list)?,
        query: TypeNo { number: 0 },
        mutation: None,
        subscription: None,
    })
}

/// The number of a type, its possible types, the type of its field of its own name, and the default of
/// its input field of that name.
fn shown(alloc: Global, schema: &Schema, name: &str) -> Result<String, Fail> {
    let Some(of) = schema.type_no(name) else {
        return Ok(String::from_str(alloc, "none")?);
    };
    let possible = schema.possible(of);
    let field = schema.field(of, name).map(|field| &field.kind);
    let default = schema.input(of, name).map(|input| &input.default);
    Ok(format!(in alloc; "{of:?} {possible:?} {field:?} {default:?}")?)
}

/// What `shown` says of a type of this number and name.
fn wanted(alloc: Global, name: &str, number: u32) -> Result<String, Fail> {
    let of = TypeNo { number };
    let kind = TypeUse::Named(of);
    let default = Some(Value::Text(Text::copy_of(alloc, name)?));
    let field = Some(&kind);
    let default = Some(&default);
    Ok(format!(in alloc; "{of:?} [{of:?}] {field:?} {default:?}")?)
}

/// The first of each name is found, in a schema and in its copy.
fn firsts_found(rt: &impl Abort, alloc: Global, names: &[&str]) -> Result<(), Fail> {
    let schema = schema(alloc, names)?;
    let copy = schema.copy()?;
    for &name in names {
        let mut number = 0_u32;
        for &other in names {
            if other == name {
                break;
            }
            number = number.wrapping_add(1);
        }
        let want = wanted(alloc, name, number)?;
        assert_eq!(rt;
            shown(alloc, &schema, name)?.as_str(),
            want.as_str(),
            "{name}"
        );
        assert_eq!(rt;
            shown(alloc, &copy, name)?.as_str(),
            want.as_str(),
            "{name}"
        );
    }
    Ok(())
}

/// Names that aren't there: before, between and behind the others, and longer and shorter ones.
fn others_missed(rt: &impl Abort, alloc: Global, names: &[&str]) -> Result<(), Fail> {
    let schema = schema(alloc, names)?;
    for &name in &["A", "aba", "az", "zz", "\u{ea}", " "] {
        assert_eq!(rt; shown(alloc, &schema, name)?.as_str(), "none", "{name}");
    }
    Ok(())
}

#[test]
fn few_names(rt: HostRuntime) -> Result<(), Fail> {
    firsts_found(&rt, rt.alloc(), FEW)?;
    others_missed(&rt, rt.alloc(), FEW)
}

#[test]
fn many_names(rt: HostRuntime) -> Result<(), Fail> {
    firsts_found(&rt, rt.alloc(), MANY)?;
    others_missed(&rt, rt.alloc(), MANY)
}
