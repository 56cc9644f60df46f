//! Laws of the merger.

ghost use Rattle.std.specs.Prelude.{◌≡◌, ◌↔◌, ℕ, ◌<◌, List, [], take, length, None, OnOk, OnErr};
ghost use Rattle.std.specs.List.Sorted.{IsSorted};
ghost use Rattle.gql_tree.specs.declared.delivery.Payload.{Payload};
ghost use Rattle.gql_tree.specs.Sound.{SamePayload};
ghost use Rattle.gql_merge.specs.declared.refusal.MergeRefusal.{MergeRefusal};
ghost use Rattle.gql_merge.specs.declared.state.State.{State};
ghost use Rattle.gql_merge.specs.Order.{fault_cmp, failure_cmp};
ghost use Rattle.gql_merge.specs.Apply.{OnRefusal, Answer, Apply, fresh};
ghost use Rattle.gql_merge.specs.Runs.{Runs, StopsAt};
ghost use Rattle.gql_merge.specs.Same.{SameState, SameAnswer};

use crate::{MergeRefusal, Merger};
use gql_tree::Payload;

/// Takes payloads up to the first that is refused, and gives its refusal. Those that were taken are a
/// run, and the refused one has changed nothing.
pub fn apply_all(merger: &mut Merger, payloads: &[Payload]) -> Result<(), MergeRefusal>
    ensures all { OnOk result (Runs payloads.now merger.old.state merger.new.state) }
    ensures refused { OnRefusal result (StopsAt payloads.now merger.old.state merger.new.state) }
    ensures some { OnErr result ((n : ℕ) × (n < length payloads.now) × Runs (take n payloads.now) merger.old.state merger.new.state) }
{
    for payload in payloads {
        merger.apply(payload)?;
    }
    Ok(())
}

/// After any run from the start errors and failures are sorted, and no value stands exactly where no
/// payload was taken.
pub fn runs_from_the_start()
    ensures errors { (ps : List Payload) (t : State) → Runs ps fresh t → IsSorted fault_cmp t.errors }
    ensures failures { (ps : List Payload) (t : State) → Runs ps fresh t → IsSorted failure_cmp t.failures }
    ensures value { (ps : List Payload) (t : State) → Runs ps fresh t → (t.value ≡ None) ↔ (ps ≡ []) }
{}

/// What a payload does to a client is determined, up to the order of members: the state behind it, or the refusal.
pub fn a_payload_has_one_answer()
    ensures { (p q : Payload) (s t : State) (a b : Answer) → SamePayload p q → SameState s t → Apply p s a → Apply q t b → SameAnswer a b }
{}
