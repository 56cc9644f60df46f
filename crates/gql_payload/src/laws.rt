//! Laws of the definitions, each the contract of a function that does nothing.

ghost use Rattle.std.specs.Prelude.{◌≡◌, ◌≤◌, not, is_some, codes, IsUtf8};
ghost use Rattle.serde_json.specs.Data.{Data, depth};
ghost use Rattle.gql_tree.specs.declared.delivery.Payload.{Payload};
ghost use Rattle.gql_payload.specs.PayloadText.{payload_data, payload_text};
ghost use Rattle.gql_tree.specs.Sound.{IsSound, SamePayload};
ghost use Rattle.gql_payload.specs.Samples.{announced, delivered, failed, continued};
ghost use Rattle.gql_payload.specs.OneLine.{IsOneLine};
ghost use Rattle.gql_payload.specs.Reading.{payload as payload_of, wrong_member, Decodes};
ghost use Rattle.gql_tree.specs.Typed.{IsTypedPayload};

use gql_tree::Payload;

/// The text of a payload has no end of line.
pub fn payload_text_is_one_line(payload: &Payload)
    ensures { IsOneLine (payload_text payload.now) }
{}

/// The text of a payload that makes sense is read as the same payload, up to the order of members.
/// That the payload keeps the ranges of its types and that its text is UTF-8 is so for what `encode`
/// was given.
pub fn payload_text_is_read_back(payload: &Payload)
    ensures { IsSound payload.now → IsTypedPayload payload.now → IsUtf8 (payload_text payload.now)
        → depth (payload_data payload.now) ≤ 127
        → (again : Payload) × Decodes (payload_text payload.now) again × SamePayload payload.now again }
{}

/// An object is a payload exactly where none of its members is wrong, so that what `decode` answers
/// is determined.
pub fn a_payload_has_no_wrong_member()
    ensures { (d : Data) → is_some (payload_of d) ≡ not (is_some (wrong_member d)) }
{}

/// The texts of some payloads, as they were written by hand.
pub fn payload_texts()
    ensures announced { payload_text announced ≡ codes "{\"data\":{\"hero\":{\"id\":\"1\"}},\"hasNext\":true,\"pending\":[{\"id\":\"0\",\"label\":\"D\",\"path\":[\"hero\"]}]}" }
    ensures delivered { payload_text delivered ≡ codes "{\"completed\":[{\"id\":\"0\"}],\"hasNext\":false,\"incremental\":[{\"data\":{\"name\":\"Luke\"},\"id\":\"0\"}]}" }
    ensures failed { payload_text failed ≡ codes "{\"data\":{\"hero\":null},\"errors\":[{\"locations\":[{\"column\":13,\"line\":1}],\"message\":\"bang\",\"path\":[\"hero\",\"boom\"]}]}" }
    ensures continued { payload_text continued ≡ codes "{\"hasNext\":true,\"incremental\":[{\"data\":{\"name\":\"Luke\"},\"id\":\"0\",\"subPath\":[\"hero\"]},{\"id\":\"1\",\"items\":[]}]}" }
{}
