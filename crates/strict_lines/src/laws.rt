//! Laws of lines and tokens.
ghost use Rattle.std.specs.Prelude.{◌≡◌, ℕ, List, [], ◌∷◌, ◌++◌};
ghost use Rattle.std.specs.List.{flat_map};
ghost use Rattle.strict_lines.specs.Lines.{line_tokens, line_text, pieces_between, AreSmall};

/// A line is its tokens, printed; and a text of which each line ends with a line feed is its lines.
pub fn lines_are_tokens()
    ensures line { (bs : List ℕ) → AreSmall (line_tokens bs) → line_text (line_tokens bs) ≡ bs ++ 10 ∷ [] }
    ensures lines { (text : List ℕ) (lines : List (List ℕ)) → pieces_between 10 text ≡ lines ++ [] ∷ []
        → flat_map (λ line. line ++ 10 ∷ []) lines ≡ text }
{}
