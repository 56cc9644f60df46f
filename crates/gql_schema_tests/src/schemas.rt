//! What schemas say, by hand.

use gql_model::{FieldDef, InputDef, Schema, TypeDef, TypeNo, TypeUse};
use gql_schema::read_schema;
use gql_tree::{Text, TryCopy};
use std::alloc::Global;
use std::process::Abort;
use std::test::Fail;

/// The schema of the example.
const EXAMPLE: &str = "type Query { hero: Person crew: [Person!] cast: [Person] none: [Person] }
type Person { id: ID! name: String! age: Int boom: String!
  nick(upper: Boolean = false): String friends: [Person!]! rival: Person }
";

/// The schema that a text says.
fn read(alloc: Global, text: &str) -> Result<Schema, Fail> {
    match read_schema(alloc, text) {
        Ok(schema) => Ok(schema),
        Err(_) => Err(Fail::new("refused")),
    }
}

/// A type in use, by numbers of types.
fn use_shown(alloc: Global, of: &TypeUse) -> Result<String, Fail> {
    match of {
        TypeUse::Named(of) => Ok(format!(in alloc; "{}", of.number)?),
        TypeUse::List(item) => {
            let item = use_shown(alloc, item.get())?;
            Ok(format!(in alloc; "[{item}]")?)
        }
        TypeUse::NonNull(inner) => {
            let inner = use_shown(alloc, inner.get())?;
            Ok(format!(in alloc; "{inner}!")?)
        }
    }
}

/// An argument or an input field, with its default.
fn input_shown(alloc: Global, of: &InputDef) -> Result<String, Fail> {
    let name = of.name.as_str();
    let kind = use_shown(alloc, &of.kind)?;
    match &of.default {
        Some(value) => {
            let text = value.to_json(alloc)?;
            Ok(format!(in alloc; " {name}: {kind} = {}", text.as_str())?)
        }
        None => Ok(format!(in alloc; " {name}: {kind}")?),
    }
}

fn inputs_shown(alloc: Global, inputs: &[InputDef]) -> Result<String, Fail> {
    let mut shown = String::new(alloc);
    for input in inputs {
        shown.push_str(input_shown(alloc, input)?.as_str())?;
    }
    Ok(shown)
}

fn fields_shown(alloc: Global, fields: &[FieldDef]) -> Result<String, Fail> {
    let mut shown = String::new(alloc);
    for field in fields {
        let name = field.name.as_str();
        let arguments = inputs_shown(alloc, field.arguments.as_slice())?;
        let kind = use_shown(alloc, &field.kind)?;
        let piece = format!(in alloc; " {name}({arguments}): {kind}")?;
        shown.push_str(piece.as_str())?;
    }
    Ok(shown)
}

fn numbers_shown(alloc: Global, types: &[TypeNo]) -> Result<String, Fail> {
    let mut shown = String::new(alloc);
    for of in types {
        shown.push_str(format!(in alloc; " {}", of.number)?.as_str())?;
    }
    Ok(shown)
}

fn names_shown(alloc: Global, names: &[Text]) -> Result<String, Fail> {
    let mut shown = String::new(alloc);
    for name in names {
        shown.push_str(format!(in alloc; " {}", name.as_str())?.as_str())?;
    }
    Ok(shown)
}

/// A type with all that its definition says, its possible types last.
fn type_shown(alloc: Global, of: &TypeDef) -> Result<String, Fail> {
    let first = format!(in alloc; "{} {:?}", of.name.as_str(), of.kind)?;
    let fields = fields_shown(alloc, of.fields.as_slice())?;
    let inputs = inputs_shown(alloc, of.inputs.as_slice())?;
    let interfaces = numbers_shown(alloc, of.interfaces.as_slice())?;
    let values = names_shown(alloc, of.values.as_slice())?;
    let members = numbers_shown(alloc, of.members.as_slice())?;
    Ok(format!(in alloc; "{first};{fields};{inputs};{interfaces};{values};{members}")?)
}

/// The roots of a schema, and each of its types on a line of its own.
fn shown(alloc: Global, schema: &Schema) -> Result<String, Fail> {
    let mut shown = format!(in alloc;
        "{:?} {:?} {:?}",
        schema.query, schema.mutation, schema.subscription
    )?;
    for of in schema.types.as_slice() {
        let line = type_shown(alloc, of)?;
        shown.push_str(format!(in alloc; "\n{line}")?.as_str())?;
    }
    Ok(shown)
}

/// The scalars that every schema has.
const SCALARS: &str = "
Int Scalar;;;;;
String Scalar;;;;;
Boolean Scalar;;;;;
ID Scalar;;;;;
";

/// A schema's roots are as they stand here, and its types are the scalars and these.
fn says(
    rt: &impl Abort,
    alloc: Global,
    schema: &Schema,
    roots: &str,
    types: &str,
) -> Result<(), Fail> {
    let got = shown(alloc, schema)?;
    let want = format!(in alloc; "{roots}{SCALARS}{types}")?;
    assert_eq!(rt; got.as_str(), want.as_str());
    Ok(())
}

const NO_OTHERS: &str = "TypeNo { number: 4 } None None";

#[test]
fn the_example(rt: HostRuntime) -> Result<(), Fail> {
    let alloc = rt.alloc();
    let schema = read(alloc, EXAMPLE)?;
    let types = "Query Object; hero(): 5 crew(): [5!] cast(): [5] none(): [5];;;; 4
Person Object; id(): 3! name(): 1! age(): 0 boom(): 1! nick( upper: 2 = false): 1 friends(): [5!]! rival(): 5;;;; 5";
    says(&rt, alloc, &schema, NO_OTHERS, types)?;
    let copy = schema.copy()?;
    says(&rt, alloc, &copy, NO_OTHERS, types)
}

#[test]
fn an_interface(rt: HostRuntime) -> Result<(), Fail> {
    let alloc = rt.alloc();
    let text =
        "type Query { pet: Pet } interface Pet { name: String } type Dog implements Pet { name: String }";
    let schema = read(alloc, text)?;
    let types = "Query Object; pet(): 5;;;; 4
Pet Interface; name(): 1;;;; 6
Dog Object; name(): 1;; 5;; 6";
    says(&rt, alloc, &schema, NO_OTHERS, types)
}

#[test]
fn an_input_object(rt: HostRuntime) -> Result<(), Fail> {
    let alloc = rt.alloc();
    let text = "type Query { f(a: [Int!], b: In): String } input In { x: Int! y: Boolean = true }";
    let schema = read(alloc, text)?;
    let types = "Query Object; f( a: [0!] b: 5): 1;;;; 4
In Input;; x: 0! y: 2 = true;;;";
    says(&rt, alloc, &schema, NO_OTHERS, types)
}

/// Roots by a `schema` definition, possible types in order of the text, and defaults that are coerced:
/// one value to a list, an enum's value and an identifier to texts, fields that are left out to their
/// defaults, and objects in the order of the type's fields.
#[test]
fn each_kind_of_type(rt: HostRuntime) -> Result<(), Fail> {
    let alloc = rt.alloc();
    let text = "schema { subscription: M query: Q }
type Q implements J & I { a(x: [Int] = 1 y: A = {d: null b: X}): U i: Int }
type M implements I { i: Int a(x: [Int] y: A): U }
union U = M | Q
enum E { X Y }
interface I { i: Int }
interface J implements I { i: Int }
input A { b: [E!] = [Y] c: ID = 7 d: Int e: Int = -2147483648 }";
    let schema = read(alloc, text)?;
    let types =
        "Q Object; a( x: [0] = [1] y: 10 = {\"b\":[\"X\"],\"c\":\"7\",\"d\":null,\"e\":-2147483648}): 6 i(): 0;; 9 8;; 4
M Object; i(): 0 a( x: [0] y: 10): 6;; 8;; 5
U Union;;;;; 5 4
E Enum;;;; X Y;
I Interface; i(): 0;;;; 4 5
J Interface; i(): 0;; 8;; 4
A Input;; b: [7!] = [\"Y\"] c: 3 = \"7\" d: 0 e: 0 = -2147483648;;;";
    let roots = "TypeNo { number: 4 } None Some(TypeNo { number: 5 })";
    says(&rt, alloc, &schema, roots, types)
}
