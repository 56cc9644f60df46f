ghost use Rattle.std.specs.Prelude.{◌≡◌, Some, None};
ghost use Rattle.gql_model.specs.rules.SchemaRules.{first_broken_of, first_broken_rule};
ghost use Rattle.gql_model.specs.SchemaSample.{place, persons, pets, arguments, repeated_type, reserved_name, scalar_definition, unknown_type, repeated_root, no_query_in_schema, no_query, roots_alike, no_member, repeated_argument, input_as_output, output_as_input, repeated_member, no_interface, implements_itself, no_subtype, required_argument, lacks_required, innermost_literal, holds_itself, default_needs_itself};
ghost use Rattle.gql_model.specs.SyntaxSample.{wrong_default};
ghost use Rattle.gql_model.specs.SaidSchema.{said_schema};
ghost use Rattle.gql_model.specs.SaidSample.{pets_schema, defaults, defaults_schema};

/// The first broken rule, and its first place, of worked texts of type definitions.
pub fn worked_rules()
    // type Query { hero: Person crew: [Person!] cast: [Person] none: [Person] } type Person { id: ID! name: String! age: Int boom: String! nick(upper: Boolean = false): String friends: [Person!]! rival: Person }
    ensures persons { first_broken_of persons ≡ None }

    // type Query { pet: Pet } interface Pet { name: String } type Dog implements Pet { name: String! }
    ensures pets { first_broken_of pets ≡ None }

    // type Query { f(a: [Int!], b: In): String } input In { x: Int! y: Boolean = true }
    ensures arguments { first_broken_of arguments ≡ None }

    // scalar Int type Query { a: Int }
    ensures repeated_type { first_broken_of repeated_type ≡ Some (1, place 8) }

    // enum E { A __B } type Query { a: Int }
    ensures reserved_name { first_broken_of reserved_name ≡ Some (2, place 12) }

    // scalar Date type Query { a: Int }
    ensures scalar_definition { first_broken_of scalar_definition ≡ Some (3, place 8) }

    // type Query { a: Foo }
    ensures unknown_type { first_broken_of unknown_type ≡ Some (4, place 17) }

    // schema { query: Query query: Query } type Query { a: Int }
    ensures repeated_root { first_broken_of repeated_root ≡ Some (5, place 23) }

    // schema { mutation: Query } type Query { a: Int }
    ensures no_query_in_schema { first_broken_of no_query_in_schema ≡ Some (6, place 1) }

    // type Person { a: Int }
    ensures no_query { first_broken_of no_query ≡ Some (6, place 1) }

    // schema { mutation: Query query: Query } type Query { a: Int }
    ensures roots_alike { first_broken_of roots_alike ≡ Some (7, place 33) }

    // union Pet type Query { a: Int }
    ensures no_member { first_broken_of no_member ≡ Some (8, place 7) }

    // type Query { a(x: Int, x: Int): Int a: Int }
    ensures repeated_argument { first_broken_of repeated_argument ≡ Some (9, place 24) }

    // input In { x: Int } type Query { a: [In] }
    ensures input_as_output { first_broken_of input_as_output ≡ Some (10, place 38) }

    // type Query { a(x: [Query!]): Int }
    ensures output_as_input { first_broken_of output_as_input ≡ Some (11, place 20) }

    // union U = Query | Query type Query { a: Int }
    ensures repeated_member { first_broken_of repeated_member ≡ Some (12, place 19) }

    // type Dog implements Query { a: Int } type Query { a: Int }
    ensures no_interface { first_broken_of no_interface ≡ Some (13, place 21) }

    // interface I implements I { a: Int } type Query { a: Int }
    ensures implements_itself { first_broken_of implements_itself ≡ Some (14, place 24) }

    // interface I { a: Int! } type Query implements I { a: Int }
    ensures no_subtype { first_broken_of no_subtype ≡ Some (15, place 51) }

    // interface I { a: Int } type Query implements I { a(x: Int!): Int }
    ensures required_argument { first_broken_of required_argument ≡ Some (16, place 50) }

    // input In { x: Int! y: Int } type Query { a(b: In = { y: 1 }): Int }
    ensures lacks_required { first_broken_of lacks_required ≡ Some (17, place 52) }

    // input In { x: Int! y: Int } type Query { a(b: [In] = [{ x: 1 y: true }]): Int }
    ensures innermost_literal { first_broken_of innermost_literal ≡ Some (17, place 65) }

    // input In { x: In! } type Query { a: Int }
    ensures holds_itself { first_broken_of holds_itself ≡ Some (18, place 12) }

    // input In { x: In = {} } type Query { a: Int }
    ensures default_needs_itself { first_broken_of default_needs_itself ≡ Some (18, place 12) }

    // input In { s: String = "t" b: Boolean = true e: E = A x: [In!] = [{ x: 1 } null] } enum E { A } type Query { a: Int }, as the parser gives it
    ensures wrong_default { first_broken_rule wrong_default ≡ Some (17, place 72) }
{}

/// The schemas that worked texts of type definitions say.
pub fn worked_schemas()
    // type Query { pet: Pet } interface Pet { name: String } type Dog implements Pet { name: String! }
    ensures pets { said_schema pets ≡ Some pets_schema }

    // defaults that stand for a list of one, or need other defaults
    ensures kept { first_broken_of defaults ≡ None }
    ensures defaults { said_schema defaults ≡ Some defaults_schema }
{}
