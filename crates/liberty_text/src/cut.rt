ghost use Rattle.std.specs.Prelude.{◌≡◌, ℕ, List};
ghost use Rattle.liberty_text.specs.Cuts.{Token, Cuts};
ghost use Rattle.liberty_text.specs.Tokens.{tokens_of, IsWhole};

/// The tokens that bytes are cut into are those of `tokens_of`, and none of them is a wrong piece.
pub fn cut_is_tokens()
    ensures { (bytes : List ℕ) (ts : List Token) → Cuts bytes ts → (tokens_of bytes ≡ ts) × IsWhole ts }
{}

/// Bytes without a wrong piece are cut into their tokens.
pub fn whole_is_cut()
    ensures { (bytes : List ℕ) → IsWhole (tokens_of bytes) → Cuts bytes (tokens_of bytes) }
{}

/// No bytes are cut into two lists of tokens.
pub fn one_list()
    ensures { (bytes : List ℕ) (ts us : List Token) → Cuts bytes ts → Cuts bytes us → ts ≡ us }
{}
