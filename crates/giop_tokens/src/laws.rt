//! What holds of the tokens of a text, by the way that they are written (docs/FORMATS.md, Signature file).
ghost use Rattle.std.specs.Prelude.{◌≡◌, ℕ, ◌↔◌, List, Ok, Err, Some};
ghost use Rattle.giop_tokens.specs.declared.fault.TokenError.{TokenError};
ghost use Rattle.giop_tokens.specs.Tokens.{Token, next, AreTokens};
ghost use Rattle.giop_tokens.specs.Readers.{no_token};
ghost use Rattle.giop_tokens.specs.Layout.{IsFirstToken, IsLayout};

/// The token that is read first is the token that is written first, after white space and comments.
pub fn first_token()
    ensures { (text : List ℕ) (t : Token) (rest : List ℕ)
        → (next text ≡ Ok (Some t, rest)) ↔ IsFirstToken text t rest }
{}

/// A text is read as these tokens if and only if they are written in it, with white space and comments between them.
pub fn laid_out()
    ensures { (text : List ℕ) (ts : List Token) → AreTokens text ts ↔ IsLayout text ts }
{}

/// A text is read as at most one list of tokens.
pub fn one_list()
    ensures { (text : List ℕ) (ts us : List Token) → AreTokens text ts → AreTokens text us
        → ts ≡ us }
{}

/// If a text goes on with something that is no token, it is refused as Token at that place, and it has no list of tokens.
pub fn no_list()
    ensures place { (text : List ℕ) (r : TokenError) → next text ≡ Err r → r ≡ no_token text }
    ensures none { (text : List ℕ) (r : TokenError) → next text ≡ Err r
        → (ts : List Token) → ¬ (AreTokens text ts) }
{}
