//! Laws of the definitions, each the contract of a function that does nothing.

ghost use Rattle.std.specs.Prelude.{◌≡◌, ℕ, length, List, [], ◌∷◌, ◌++◌, true, false, codes};
ghost use Rattle.std.specs.List.{concat, AllByRecursion as Each};
ghost use Rattle.gql_multipart.specs.Frame as body;
ghost use Rattle.gql_multipart.specs.Framed.{framed, pieces_of, at_first, so_far, IsFramable, IsLongLine, AreFirst};
ghost use Rattle.gql_multipart.specs.Body.{IsBoundary, Body, Complete, IsOpen};
ghost use Rattle.gql_multipart.specs.Past.{Past, Said, IsAnswer};

/// The pieces of one or more texts make a body: as a whole, and as it grows by a next piece and by
/// the last.
pub fn pieces_make_a_body()
    ensures whole { (t : List ℕ) → (ts : List (List ℕ)) → concat (pieces_of true (t ∷ ts)) ≡ body.frame (t ∷ ts) }
    ensures next { (ts : List (List ℕ)) → (t : List ℕ) → so_far ts ++ framed (at_first ts) false t ≡ so_far (ts ++ t ∷ []) }
    ensures last { (ts : List (List ℕ)) → (t : List ℕ) → so_far ts ++ framed (at_first ts) true t ≡ body.frame (ts ++ t ∷ []) }
{}

/// Bytes are a body in one way.
pub fn bodies_are_read_in_one_way()
    ensures { (boundary bytes : List ℕ) (contents others : List (List ℕ)) → IsBoundary boundary → Body boundary bytes contents → Body boundary bytes others → contents ≡ others }
{}

/// A past has one answer: of a boundary, the bytes fed and the number of parts given. So two cuttings
/// of one text give the same parts and the same refusal.
pub fn a_past_has_one_answer()
    ensures { (past : Past) (said other : Said) → IsBoundary past.boundary → IsAnswer past said → IsAnswer past other → said ≡ other }
{}

/// The body of one or more texts is one whose parts are these texts and no others. What was sent of
/// it after each text has all parts complete.
pub fn frames_are_read_back()
    ensures whole { (t : List ℕ) (ts : List (List ℕ)) → Each IsFramable (t ∷ ts) → Body (codes "-") (body.frame (t ∷ ts)) (t ∷ ts) }
    ensures only { (t : List ℕ) (ts contents : List (List ℕ)) → Each IsFramable (t ∷ ts) → Body (codes "-") (body.frame (t ∷ ts)) contents → contents ≡ t ∷ ts }
    ensures so_far { (t : List ℕ) (ts : List (List ℕ)) → Each IsFramable (t ∷ ts) → Complete (codes "-") (so_far (t ∷ ts)) (t ∷ ts) }
{}

/// Some body begins with each front of what is sent of framable texts, and the parts that are complete in it are the
/// first of the texts.
pub fn fronts_of_frames_are_open()
    ensures open { (t : List ℕ) (ts : List (List ℕ)) (front back : List ℕ) → Each IsFramable (t ∷ ts) → front ++ back ≡ body.frame (t ∷ ts) → IsOpen (codes "-") front }
    ensures parts { (t : List ℕ) (ts : List (List ℕ)) (front back : List ℕ) (contents : List (List ℕ)) → Each IsFramable (t ∷ ts) → front ++ back ≡ body.frame (t ∷ ts) → Complete (codes "-") front contents → AreFirst contents (t ∷ ts) }
    ensures so_far_open { (ts : List (List ℕ)) (front back : List ℕ) → Each IsFramable ts → front ++ back ≡ so_far ts → IsOpen (codes "-") front }
    ensures so_far_parts { (ts : List (List ℕ)) (front back : List ℕ) (contents : List (List ℕ)) → Each IsFramable ts → front ++ back ≡ so_far ts → Complete (codes "-") front contents → AreFirst contents ts }
{}

/// No body begins with what is sent where the last text is a line that is too long. The parts that are complete in a
/// front of it are the first of the texts before that one.
pub fn frames_of_long_lines_are_shut()
    ensures so_far { (ts : List (List ℕ)) (t : List ℕ) → Each IsFramable ts → IsLongLine t → IsOpen (codes "-") (so_far (ts ++ t ∷ [])) → ⊥ }
    ensures whole { (ts : List (List ℕ)) (t : List ℕ) → Each IsFramable ts → IsLongLine t → IsOpen (codes "-") (body.frame (ts ++ t ∷ [])) → ⊥ }
    ensures so_far_parts { (ts : List (List ℕ)) (t front back : List ℕ) (contents : List (List ℕ)) → Each IsFramable ts → IsLongLine t → front ++ back ≡ so_far (ts ++ t ∷ []) → Complete (codes "-") front contents → AreFirst contents ts }
    ensures parts { (ts : List (List ℕ)) (t front back : List ℕ) (contents : List (List ℕ)) → Each IsFramable ts → IsLongLine t → front ++ back ≡ body.frame (ts ++ t ∷ []) → Complete (codes "-") front contents → AreFirst contents ts }
{}

/// How long the bodies of some texts are.
pub fn body_lengths()
    ensures one_piece { length (body.frame (codes "{\"data\":{\"hero\":{\"id\":\"1\"}}}" ∷ [])) ≡ 91 }
    ensures two_pieces { length (body.frame (
        codes "{\"data\":{\"hero\":{\"id\":\"1\"}},\"hasNext\":true,\"pending\":[{\"id\":\"0\",\"label\":\"D\",\"path\":[\"hero\"]}]}"
        ∷ codes "{\"completed\":[{\"id\":\"0\"}],\"hasNext\":false,\"incremental\":[{\"data\":{\"name\":\"Luke\"},\"id\":\"0\"}]}" ∷ [])) ≡ 305 }
{}
