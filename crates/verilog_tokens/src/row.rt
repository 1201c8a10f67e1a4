ghost use Rattle.std.specs.Prelude.{◌≡◌, ◌↔◌, ◌∷◌, ℕ, Bool, List, [], true, false, IsTrue, MatchOption, None};
ghost use Rattle.verilog_tokens.specs.Cuts.{Cuts};
ghost use Rattle.verilog_tokens.specs.Gaps.{gap_at};
ghost use Rattle.verilog_tokens.specs.Row.{tokens_from, tokens_of, NoToken, AllTokens};
ghost use Rattle.verilog_tokens.specs.Token.{Token};
ghost use Rattle.verilog_tokens.specs.View.{token_of};

use crate::Lexeme;
use crate::first::first_token;
use crate::gap::gap;

// The place of the next token, from a place on that begins a line or does not.
fn settled(begins: bool, bytes: &[u8]) -> &[u8]
    ensures value { tokens_from false result.now ≡ tokens_from begins bytes.now }
    ensures settled { gap_at false result.now ≡ None }
{
    let mut begins = begins;
    let mut rest = bytes;
    while let Some((behind, tail)) = gap(begins, rest) {
        begins = behind;
        rest = tail;
    }
    rest
}

/// The text from its first token on: what stands before that has no tokens.
pub fn within_line(bytes: &[u8]) -> &[u8]
    ensures { tokens_of result.now ≡ tokens_from true bytes.now }
{
    settled(true, bytes)
}

/// The next token and the text behind it, None where the text ends or a piece stands that is no token.
pub fn next(bytes: &[u8]) -> Option<(Lexeme, &[u8])>
    ensures { MatchOption result (NoToken (tokens_of bytes.now)) (λ f. tokens_of bytes.now ≡ token_of f.0 ∷ tokens_of f.1.now) }
{
    let (token, rest) = first_token(settled(false, bytes))?;
    Some((token, settled(false, rest)))
}

/// Whether the text has no more tokens.
pub fn is_at_end(bytes: &[u8]) -> bool
    ensures { IsTrue result ↔ (tokens_of bytes.now ≡ []) }
{
    settled(false, bytes).is_empty()
}

/// No bytes are cut into two lists of tokens.
pub fn one_list()
    ensures { (begins : Bool) (bytes : List ℕ) (ts us : List Token) → Cuts begins bytes ts → Cuts begins bytes us → ts ≡ us }
{}

/// The tokens of a text that is cut are those that it is cut into.
pub fn tokens_of_cut()
    ensures { (begins : Bool) (bytes : List ℕ) (ts : List Token) → Cuts begins bytes ts → tokens_from begins bytes ≡ ts }
{}

/// A text is cut into its tokens, where each piece of it is one.
pub fn tokens_are_cut()
    ensures { (begins : Bool) (bytes : List ℕ) → AllTokens (tokens_from begins bytes) → Cuts begins bytes (tokens_from begins bytes) }
{}
