// What a caller relies on, said of the definitions.
ghost use Rattle.std.specs.Prelude.{◌≡◌, ◌⊎◌, ℕ, List, take};
ghost use Rattle.std.specs.Str.{IsCharBoundary, IsUtf8};
ghost use Rattle.sx_lex.specs.Laws.{AreCuts, AreSpans};
ghost use Rattle.sx_lex.specs.Tokens.{AreTokens, BreaksAt, BreaksBehind};
ghost use Rattle.sx_lex.specs.declared.kinds.Token.{Token as AnyToken};

/// A text has tokens, or it breaks, and not both; it has one list of tokens at most, and it breaks at one offset only.
pub fn one_reading()
    ensures some { (text : List ℕ)
        → ((ts : List AnyToken) × AreTokens 0 text ts) ⊎ ((offset : ℕ) × BreaksAt 0 text offset) }
    ensures tokens { (text : List ℕ) (ts us : List AnyToken) → AreTokens 0 text ts → AreTokens 0 text us
        → ts ≡ us }
    ensures either { (text : List ℕ) (ts : List AnyToken) (offset : ℕ) → AreTokens 0 text ts
        → BreaksAt 0 text offset → ⊥ }
    ensures offset { (text : List ℕ) (m n : ℕ) → BreaksAt 0 text m → BreaksAt 0 text n → m ≡ n }
{}

/// The spans of tokens are in order, not empty and within the text, and what stands between them is white space. A text may be
/// cut at both ends of each.
pub fn spans()
    ensures spans { (text : List ℕ) (ts : List AnyToken) → AreTokens 0 text ts → AreSpans text 0 ts }
    ensures cuts { (text : List ℕ) (ts : List AnyToken) → IsUtf8 text → AreTokens 0 text ts
        → AreCuts text ts }
{}

/// The bytes in front of the offset at which a text breaks have the tokens that the text has in front of it. The text may be
/// cut there.
pub fn front()
    ensures tokens { (text : List ℕ) (ts : List AnyToken) (offset : ℕ) → IsUtf8 text
        → BreaksBehind 0 text ts offset → AreTokens 0 (take offset text) ts }
    ensures breaks { (text : List ℕ) (ts : List AnyToken) (offset : ℕ) → IsUtf8 text
        → BreaksAt 0 text offset
        → AreTokens 0 (take offset text) ts → BreaksBehind 0 text ts offset }
    ensures cut { (text : List ℕ) (offset : ℕ) → IsUtf8 text → BreaksAt 0 text offset
        → IsCharBoundary text offset }
{}
