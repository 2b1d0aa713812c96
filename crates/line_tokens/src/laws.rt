ghost use Rattle.std.specs.Prelude.{◌≡◌, ℕ, List};
ghost use Rattle.line_tokens.specs.declared.token.Token.{Token};
ghost use Rattle.line_tokens.specs.Tokens.{IsTokenized};

/// A line has no more than one list of tokens.
pub fn one_tokenizing()
    ensures { (line : List ℕ) (tokens others : List Token) → IsTokenized line tokens → IsTokenized line others
        → tokens ≡ others }
{}
