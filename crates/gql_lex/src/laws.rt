//! Laws of the definitions, each the contract of a function that does nothing.

ghost use Rattle.std.specs.Prelude.{◌≡◌, ◌≢◌, ◌<◌, ℕ, ◌+◌, List, [], ◌∷◌, ◌++◌, length, take, Some, true, false};
ghost use Rattle.std.specs.List.{prefix_len, AllByRecursion};
ghost use Rattle.gql_lex.specs.Classes.{begins_name, continues_name};
ghost use Rattle.gql_lex.specs.Longest.{IsName, IsNumber, NoneIsLonger};
ghost use Rattle.gql_lex.specs.Numbers.{integer_len, number_len};
ghost use Rattle.gql_lex.specs.Front.{front};
ghost use Rattle.gql_lex.specs.StringTexts.{begins_quotes, IsQuoted, IsBlock};
ghost use Rattle.gql_lex.specs.TokenPlaces.{IsSliceOf, RiseFrom, end_of_all, IsRefusedIn};
ghost use Rattle.gql_lex.specs.Tokens.{Lexeme, End, Refused, Lexes};
ghost use Rattle.gql_lex.specs.declared.refusal.LexRefusal.{LexRefusal};
ghost use Rattle.gql_lex.specs.declared.token.TokenKind.TheVariants as kind;
ghost use Rattle.gql_lex.specs.declared.scan.Found.TheVariants.{Token, Wrong};
ghost use Rattle.gql_lex.specs.declared.scan.Fault.{Fault};

/// The tokens of a text, and how they end, are determined.
pub fn tokens_are_determined()
    ensures { (passed rest : List ℕ) → (ts us : List Lexeme) → (s e : End) → Lexes passed rest ts s → Lexes passed rest us e → (ts ≡ us) × (s ≡ e) }
{}

/// The tokens of a text are slices of it, at their starts and spots, one behind another; a refusal
/// names a place behind them.
pub fn tokens_stand_in_their_text()
    ensures slices { (text : List ℕ) → (tokens : List Lexeme) → (end : End) → Lexes [] text tokens end → AllByRecursion (IsSliceOf text) tokens }
    ensures rise { (text : List ℕ) → (tokens : List Lexeme) → (end : End) → Lexes [] text tokens end → RiseFrom 0 tokens }
    ensures refused { (text : List ℕ) → (tokens : List Lexeme) → (refusal : LexRefusal) → Lexes [] text tokens (Refused refusal) → IsRefusedIn text (end_of_all 0 tokens) refusal }
{}

/// Every text has tokens, and an end to them.
pub fn every_text_has_tokens()
    ensures { (text : List ℕ) → (tokens : List Lexeme) × (end : End) × Lexes [] text tokens end }
{}

/// The name that is counted at the front of a text is a name, and none there is longer. So is the
/// number that is counted, and where none is counted there is none.
pub fn the_longest_are_counted()
    ensures is_name { (byte : ℕ) → (rest : List ℕ) → begins_name byte ≡ true →
        IsName (take (1 + prefix_len continues_name rest) (byte ∷ rest)) }
    ensures name { (byte : ℕ) → (rest : List ℕ) → NoneIsLonger IsName (byte ∷ rest) (1 + prefix_len continues_name rest) }
    ensures is_number { (text : List ℕ) → 0 < integer_len text → IsNumber (take (number_len text) text) }
    ensures number { (text : List ℕ) → NoneIsLonger IsNumber text (number_len text) }
    ensures no_number { (text : List ℕ) → integer_len text ≡ 0 → (other rest : List ℕ) → IsNumber other → text ≢ other ++ rest }
{}

/// What is found as a string is one by the standard's rules, and a string at the front of a text is
/// found there; where something is wrong, none stands there. Three quotes begin a block string, so
/// the first two of them are no quoted string. A quoted string means one value, and a block string
/// has one raw text.
pub fn strings_are_those_of_the_standard()
    ensures is_quoted { (text : List ℕ) → (len : ℕ) → front text ≡ Some (Token kind.Quoted len) → (value : List ℕ) × IsQuoted (take len text) value }
    ensures alone { (text : List ℕ) → (len : ℕ) → front text ≡ Some (Token kind.Quoted len) → begins_quotes text ≡ false }
    ensures quoted_found { (token rest value : List ℕ) → IsQuoted token value → begins_quotes (token ++ rest) ≡ false →
        front (token ++ rest) ≡ Some (Token kind.Quoted (length token)) }
    ensures no_quoted { (text : List ℕ) → (fault : Fault) → (inside : ℕ) → front text ≡ Some (Wrong fault inside) →
        (token rest value : List ℕ) → IsQuoted token value → text ≡ token ++ rest → begins_quotes text ≡ true }
    ensures one_value { (token v w : List ℕ) → IsQuoted token v → IsQuoted token w → v ≡ w }
    ensures is_block { (text : List ℕ) → (len : ℕ) → front text ≡ Some (Token kind.Block len) → (raw : List ℕ) × IsBlock (take len text) raw }
    ensures block_found { (token rest raw : List ℕ) → IsBlock token raw → front (token ++ rest) ≡ Some (Token kind.Block (length token)) }
    ensures no_block { (text : List ℕ) → (fault : Fault) → (inside : ℕ) → front text ≡ Some (Wrong fault inside) →
        (token rest raw : List ℕ) → IsBlock token raw → text ≢ token ++ rest }
    ensures one_raw { (token v w : List ℕ) → IsBlock token v → IsBlock token w → v ≡ w }
{}
