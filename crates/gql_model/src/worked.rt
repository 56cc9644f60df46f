ghost use Rattle.std.specs.Prelude.{◌≡◌, pos, [], ◌∷◌, Some, codes};
ghost use Rattle.gql_tree.specs.declared.Key.TheVariants.{Name, Index};
ghost use Rattle.gql_tree.specs.declared.Value.TheVariants as v;
ghost use Rattle.gql_tree.specs.declared.Outcome.TheVariants.{Good, Failed};
ghost use Rattle.gql_model.specs.Sample.{one_field, one_deferred, bubbling, null_item, shared, stream, type_names, failing};
ghost use Rattle.gql_model.specs.Plain.{kept};
ghost use Rattle.gql_model.specs.Worked.{initial, plain_response, outcomes, faults, one, two, fault, grouped, labelled, counted};

/// The regions that worked operations have by the definitions.
pub fn worked_regions()
    // { hero { id } }
    ensures plain { (initial one_field).outcome ≡ Good (one (codes "hero") (one (codes "id") (v.Text (codes "1")))) }

    // { hero { id boom ... @defer { name } } }: the null goes up to the hero, and nothing is deferred in it
    ensures bubbled { (initial bubbling).outcome ≡ Good (one (codes "hero") v.Null) }
    ensures bubbled_faults { (initial bubbling).faults
        ≡ fault (codes "bang") 13 (Name (codes "hero") ∷ Name (codes "boom") ∷ []) ∷ [] }
    ensures bubbled_groups { grouped (initial bubbling) ≡ [] }
    ensures bubbled_fragments { labelled (initial bubbling) ≡ [] }

    // { crew { name } }: a null item of [Person!] makes the list null
    ensures null_item { (initial null_item).outcome ≡ Good (one (codes "crew") v.Null) }
    ensures null_item_faults { (initial null_item).faults
        ≡ fault (codes "Null in a non-null position") 10 (Name (codes "crew") ∷ Index 2 ∷ Name (codes "name") ∷ []) ∷ [] }

    // { hero { id ... @defer(label:"A"){ name boom } ... @defer(label:"B"){ name age } } }: `name` is shared
    ensures shared_groups { grouped (initial shared)
        ≡ (3 ∷ [], codes "boom" ∷ []) ∷ (3 ∷ 6 ∷ [], codes "name" ∷ []) ∷ (6 ∷ [], codes "age" ∷ []) ∷ [] }
    ensures shared_fragments { labelled (initial shared) ≡ (3, Some (codes "A")) ∷ (6, Some (codes "B")) ∷ [] }
    ensures shared_outcomes { outcomes shared
        ≡ Failed ∷ Good (one (codes "name") (v.Text (codes "Luke"))) ∷ Good (one (codes "age") (v.Int (pos 20))) ∷ [] }
    ensures shared_faults { faults shared
        ≡ (fault (codes "bang") 41 (Name (codes "hero") ∷ Name (codes "boom") ∷ []) ∷ []) ∷ [] ∷ [] ∷ [] }

    // { crew @stream(initialCount:1) { name } }: one item stands, the third fails
    ensures streamed { (initial stream).outcome
        ≡ Good (one (codes "crew") (v.List (one (codes "name") (v.Text (codes "Luke")) ∷ []))) }
    ensures streams { counted (initial stream) ≡ (1, 1, 3) ∷ [] }
    ensures stream_outcomes { outcomes stream ≡ Good (one (codes "name") (v.Text (codes "Leia"))) ∷ Failed ∷ [] }
    ensures stream_faults { faults stream
        ≡ [] ∷ (fault (codes "Null in a non-null position") 34 (Name (codes "crew") ∷ Index 2 ∷ Name (codes "name") ∷ []) ∷ []) ∷ [] }

    // { hero { __typename } }
    ensures type_name { (initial type_names).outcome
        ≡ Good (one (codes "hero") (one (codes "__typename") (v.Text (codes "Person")))) }
{}

/// The responses that worked operations have where no directive waits.
pub fn worked_plain()
    // { hero { id ... @defer(label:"D") { name } } }
    ensures deferred { (plain_response one_deferred).outcome
        ≡ Good (one (codes "hero") (two (codes "id") (v.Text (codes "1")) (codes "name") (v.Text (codes "Luke")))) }
    ensures deferred_groups { grouped (plain_response one_deferred) ≡ [] }
    ensures deferred_fragments { labelled (plain_response one_deferred) ≡ [] }

    // { hero { id ... @defer(label:"D") { boom } } }: the null of the piece goes up to the hero
    ensures failing { (plain_response failing).outcome ≡ Good (one (codes "hero") v.Null) }
    ensures failing_faults { (plain_response failing).faults
        ≡ fault (codes "bang") 37 (Name (codes "hero") ∷ Name (codes "boom") ∷ []) ∷ [] }

    // { crew @stream(initialCount:1) { name } }: the null of the third item goes up to the list
    ensures streamed { (plain_response stream).outcome ≡ Good (one (codes "crew") v.Null) }
    ensures streams { counted (plain_response stream) ≡ [] }

    // an error at `hero` stands in {"hero":null}, one below it doesn't
    ensures kept { kept (one (codes "hero") v.Null)
        (fault (codes "bang") 37 (Name (codes "hero") ∷ Name (codes "boom") ∷ []) ∷ fault (codes "gone") 3 (Name (codes "hero") ∷ []) ∷ [])
        ≡ fault (codes "gone") 3 (Name (codes "hero") ∷ []) ∷ [] }
{}
