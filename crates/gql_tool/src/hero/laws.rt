//! Laws of the requests that are built.

ghost use Rattle.std.specs.Prelude.{◌≡◌, ℕ, List, [], Some};
ghost use Rattle.gql_tree.specs.declared.Value.{Value};
ghost use Rattle.gql_tree.specs.declared.Fault.{Fault};
ghost use Rattle.gql_tree.specs.Forest.{outcome_value};
ghost use Rattle.gql_tree.specs.Same.{SameFlat};
ghost use Rattle.gql_tree.specs.Merged.{IsMerged};
ghost use Rattle.gql_model.specs.Plain.{plain, kept};
ghost use Rattle.gql_model.specs.Sample as sample;
ghost use Rattle.gql_model.specs.declared.syntax.Document.{Document};
ghost use Rattle.gql_tool.specs.declared.hero.shape.HeroDocument.{HeroDocument};
ghost use Rattle.gql_tool.specs.declared.hero.tables.HeroTables.{HeroTables};
ghost use Rattle.gql_tool.specs.hero.Built.{regions};
ghost use Rattle.gql_tool.specs.hero.Hero.{IsBuilt};
ghost use Rattle.gql_tool.specs.hero.Operation.{nodes_of};
ghost use Rattle.gql_tool.specs.hero.Service.{service, query};
ghost use Rattle.gql_tool.specs.hero.Shape.{hero_of};
ghost use Rattle.gql_tool.specs.hero.Written.{IsWritten, plain_hero, deferred_hero, bubbling_hero};

/// Where no deferred piece of a request fails, what a client has in the end is the response of plain
/// execution, in which `@defer` is taken as absent: the same data, and of the errors those at places that
/// stand in it.
pub fn a_response_without_failures_is_plain()
    ensures data { (vars schema tables document : List ℕ) (t : HeroTables) (d : HeroDocument) (value : Value) (faults : List Fault)
        → IsBuilt vars schema tables document t d
        → IsMerged (regions t d) value faults []
        → SameFlat value (outcome_value (plain (service t) (nodes_of d) query).outcome) }
    ensures errors { (vars schema tables document : List ℕ) (t : HeroTables) (d : HeroDocument) (value : Value) (faults : List Fault)
        → IsBuilt vars schema tables document t d
        → IsMerged (regions t d) value faults []
        → (let r = plain (service t) (nodes_of d) query in kept value faults ≡ kept (outcome_value r.outcome) r.faults) }
{}

/// The documents that are executed are the queries of the hero, written as documents.
pub fn executed_documents()
    ensures only { (it : Document) → (hero : HeroDocument) → hero_of it ≡ Some hero → IsWritten it hero }
    ensures all { (it : Document) → (hero : HeroDocument) → IsWritten it hero → hero_of it ≡ Some hero }
{}

/// The operations that worked queries of the hero are.
pub fn worked_documents()
    ensures plain { nodes_of plain_hero ≡ sample.one_field }
    ensures deferred { nodes_of deferred_hero ≡ sample.one_deferred }
    ensures bubbling { nodes_of bubbling_hero ≡ sample.bubbling }
{}
