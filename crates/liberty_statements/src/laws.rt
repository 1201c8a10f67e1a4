ghost use Rattle.std.specs.Prelude.{◌≡◌, ◌<◌, ◌∷◌, ℕ, List, Some};
ghost use Rattle.liberty_text.specs.Cuts.{Token, symbol as a_symbol};
ghost use Rattle.liberty_statements.specs.Grammar.{Args, Statements, args_tokens, statements_tokens, depth_of_all};
ghost use Rattle.liberty_statements.specs.Reading.{args_end_at, body_at};

/// Arguments that are read stand there with their `)`.
pub fn args_stand()
    ensures { (ts rest : List Token) (xs : Args) → args_end_at ts ≡ Some (xs, rest) → ts ≡ args_tokens xs (a_symbol 41 ∷ rest) }
{}

/// Arguments that stand there with their `)` are read.
pub fn args_are_read()
    ensures { (xs : Args) (rest : List Token) → args_end_at (args_tokens xs (a_symbol 41 ∷ rest)) ≡ Some (xs, rest) }
{}

/// What is read as the inside of a group stands there with its `}`, and nests no deeper than allowed.
pub fn body_stands()
    ensures { (d : ℕ) (ts rest : List Token) (ss : Statements) → body_at d ts ≡ Some (ss, rest) → (ts ≡ statements_tokens ss (a_symbol 125 ∷ rest)) × (depth_of_all ss < d) }
{}

/// The inside of a group that stands there with its `}`, and nests no deeper than allowed, is read.
pub fn body_is_read()
    ensures { (d : ℕ) (ss : Statements) (rest : List Token) → depth_of_all ss < d → body_at d (statements_tokens ss (a_symbol 125 ∷ rest)) ≡ Some (ss, rest) }
{}
