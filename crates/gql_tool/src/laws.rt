//! Laws of the right outcomes, and worked bodies.

ghost use Rattle.std.specs.Prelude.{◌≡◌, ℕ, List, [], ◌∷◌, codes, length};
ghost use Rattle.gql_model.specs.Sample.{one_field, one_deferred, bubbling, null_item, failing};
ghost use Rattle.gql_model.specs.Worked.{regions};
ghost use Rattle.gql_io.specs.Files.{Files};
ghost use Rattle.gql_tool.specs.Words.{Names};
ghost use Rattle.gql_tool.specs.Outcome.{Outcome};
ghost use Rattle.gql_tool.specs.Local.{texts, body, LocalWays};
ghost use Rattle.gql_tool.specs.Replay.{ReplayWays};

/// For the same words and files one outcome of `local` is right.
pub fn local_has_one_outcome()
    ensures { (names : Names) (files : Files) (a b : Outcome) → LocalWays names files a → LocalWays names files b → a ≡ b }
{}

/// For the same boundary and input one outcome of `replay` is right.
pub fn replay_has_one_outcome()
    ensures { (boundary input : List ℕ) (a b : Outcome) → ReplayWays boundary input a → ReplayWays boundary input b → a ≡ b }
{}

/// The texts of the payloads of worked operations, as they were written by hand.
pub fn worked_texts()
    // { hero { id } }
    ensures plain { texts (regions one_field) ≡ codes "{\"data\":{\"hero\":{\"id\":\"1\"}}}" ∷ [] }

    // { hero { id ... @defer(label:"D") { name } } }
    ensures deferred { texts (regions one_deferred)
        ≡ codes "{\"data\":{\"hero\":{\"id\":\"1\"}},\"hasNext\":true,\"pending\":[{\"id\":\"0\",\"label\":\"D\",\"path\":[\"hero\"]}]}"
        ∷ codes "{\"completed\":[{\"id\":\"0\"}],\"hasNext\":false,\"incremental\":[{\"data\":{\"name\":\"Luke\"},\"id\":\"0\"}]}" ∷ [] }
    ensures deferred_body { length (body (regions one_deferred)) ≡ 305 }

    // { hero { id boom ... @defer { name } } }
    ensures bubbled { texts (regions bubbling)
        ≡ codes "{\"data\":{\"hero\":null},\"errors\":[{\"locations\":[{\"column\":13,\"line\":1}],\"message\":\"bang\",\"path\":[\"hero\",\"boom\"]}]}" ∷ [] }

    // { crew { name } }
    ensures null_item { texts (regions null_item)
        ≡ codes "{\"data\":{\"crew\":null},\"errors\":[{\"locations\":[{\"column\":10,\"line\":1}],\"message\":\"Null in a non-null position\",\"path\":[\"crew\",2,\"name\"]}]}" ∷ [] }

    // { hero { id ... @defer(label:"D") { boom } } }: the deferred piece fails, and its error is in its completed record alone
    ensures failing { texts (regions failing)
        ≡ codes "{\"data\":{\"hero\":{\"id\":\"1\"}},\"hasNext\":true,\"pending\":[{\"id\":\"0\",\"label\":\"D\",\"path\":[\"hero\"]}]}"
        ∷ codes "{\"completed\":[{\"errors\":[{\"locations\":[{\"column\":37,\"line\":1}],\"message\":\"bang\",\"path\":[\"hero\",\"boom\"]}],\"id\":\"0\"}],\"hasNext\":false}" ∷ [] }
{}
