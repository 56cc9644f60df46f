//! Laws of the definitions, each the contract of a function that does nothing.

ghost use Rattle.std.specs.Prelude.{◌≡◌, List, [], ◌∷◌, ◌++◌, Some, codes, false, IsTrue, IsSome};
ghost use Rattle.gql_tree.specs.declared.delivery.Failure.{Failure};
ghost use Rattle.gql_tree.specs.declared.delivery.Fault.{Fault};
ghost use Rattle.gql_tree.specs.declared.path.Key.{Key};
ghost use Rattle.gql_tree.specs.declared.path.Key.TheVariants.{Index};
ghost use Rattle.gql_tree.specs.declared.value.Value.{Value};
ghost use Rattle.gql_tree.specs.Finite.{IsFinite};
ghost use Rattle.gql_tree.specs.Flat.{flat};
ghost use Rattle.gql_tree.specs.Forest.{Forest, region};
ghost use Rattle.gql_tree.specs.FromJson.{has_bad_number, value_of};
ghost use Rattle.gql_tree.specs.Json.{data_of};
ghost use Rattle.gql_tree.specs.Merged.{IsMerged, delivery, part};
ghost use Rattle.gql_tree.specs.Same.{SameFlat};
ghost use Rattle.gql_tree.specs.Typed.{is_typed, IsTypedValue};
ghost use Rattle.gql_tree.specs.Union.{IsUnion, Clashes, moved};
ghost use Rattle.gql_tree.specs.WorkedForests.{hero, bang, luke, late_name, shared_name, nested_name, crew, item, streamed};

use crate::Value;

/// A value has a mark at finitely many paths.
pub fn flat_is_finite(value: &Value)
    ensures { IsFinite value.now }
{}

/// Values with one JSON are the same up to the order of members, and values that are the same up to
/// the order of members have one JSON. The value of a value's JSON, in which no number is bad, is the
/// same up to the order of members.
pub fn one_json_is_one_value(first: &Value, second: &Value)
    ensures one { IsTrue (is_typed first.now) → IsTrue (is_typed second.now)
        → data_of first.now ≡ data_of second.now → SameFlat first.now second.now }
    ensures equal { IsTypedValue first.now → IsTypedValue second.now
        → SameFlat first.now second.now → data_of first.now ≡ data_of second.now }
    ensures back { IsTrue (is_typed first.now) → SameFlat first.now (value_of (data_of first.now)) }
    ensures whole { IsTrue (is_typed first.now) → has_bad_number (data_of first.now) ≡ false }
{}

/// Where something stands at a path, and no path has two different marks, a value has a union with
/// another that is put there.
pub fn unions_exist()
    ensures { (a b : Value) (path : List Key) → IsTypedValue a → IsTypedValue b → IsSome (flat a path)
        → (Clashes (flat a) (moved path (flat b)) → ⊥)
        → (w : Value) × IsTypedValue w × IsUnion (flat w) (flat a) (moved path (flat b)) }
{}

/// A forest has one response: one JSON, one list of errors and one list of failures.
pub fn a_forest_has_one_response()
    ensures { (f : Forest) (v w : Value) (es fs : List Fault) (xs ys : List Failure)
        → IsMerged f v es xs → IsMerged f w fs ys
        → (data_of v ≡ data_of w) × (es ≡ fs) × (xs ≡ ys) }
{}

/// What is delivered of some forests, and what fails.
pub fn deliveries()
    ensures late_name { delivery late_name ≡ record {
      parts = part [] (region late_name) ∷ part hero luke ∷ [];
      lists = [];
      failures = [];
    } }
    ensures shared_name { delivery shared_name ≡ record {
      parts = part [] (region shared_name) ∷ part hero luke ∷ [];
      lists = [];
      failures = record { path = record { keys = hero }; label = Some (codes "A"); errors = bang ∷ [] } ∷ [];
    } }
    ensures nested_name { delivery nested_name ≡ record {
      parts = part [] (region nested_name) ∷ [];
      lists = [];
      failures = record { path = record { keys = hero }; label = Some (codes "A"); errors = bang ∷ [] } ∷ [];
    } }
    ensures streamed { delivery streamed ≡ record {
      parts = part [] (region streamed) ∷ part (crew ++ Index 1 ∷ []) (item (codes "Leia")) ∷ [];
      lists = record { at = crew; length = 2 } ∷ [];
      failures = record { path = record { keys = crew }; label = Some (codes "S"); errors = bang ∷ [] } ∷ [];
    } }
{}
