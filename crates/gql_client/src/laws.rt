//! Laws of the definitions, each the contract of a function that does nothing.

ghost use Rattle.std.specs.Prelude.{◌≡◌, ℕ, List, ◌++◌};
ghost use Rattle.gql_multipart.specs.Body.{IsBoundary};
ghost use Rattle.gql_merge.specs.declared.state.State.{State};
ghost use Rattle.gql_merge.specs.Same.{SameState};
ghost use Rattle.gql_client.specs.Client.{Accepts, Refuses, AcceptsEnd, RefusesEnd};

/// What a client makes of bytes is one: one state, up to the order of members, or one refusal, which
/// stands whatever comes behind it.
pub fn hearing_has_one_end()
    ensures accepted { (boundary bytes : List ℕ) (t u : State) → IsBoundary boundary → Accepts boundary bytes t → Accepts boundary bytes u → SameState t u }
    ensures refused { (boundary front more : List ℕ) (t u : State) (why other : List ℕ) → IsBoundary boundary
        → Refuses boundary front t why → Refuses boundary (front ++ more) u other → SameState t u × (why ≡ other) }
    ensures never_both { (boundary front more : List ℕ) (t u : State) (why : List ℕ) → IsBoundary boundary
        → Refuses boundary front t why → Accepts boundary (front ++ more) u → ⊥ }
    ensures end_refused { (boundary bytes : List ℕ) (t u : State) (why other : List ℕ) → SameState t u
        → RefusesEnd boundary bytes t why → RefusesEnd boundary bytes u other → why ≡ other }
    ensures end_never_both { (boundary bytes : List ℕ) (t u : State) (why : List ℕ) → SameState t u
        → AcceptsEnd boundary bytes t → RefusesEnd boundary bytes u why → ⊥ }
{}
