// What the definitions come to.
ghost use Rattle.std.specs.Prelude.{◌≡◌, ℕ, List};
ghost use Rattle.std.specs.List.{Contains};
ghost use Rattle.sx_sheet.specs.Syntax.{IsThin, BreaksAfter, BreaksOn, IsClosed, tokens_in, lines_in};
ghost use Rattle.sx_sheet.specs.Tokens.{Token, LinedToken};

/// What breaks off is no thin stylesheet.
pub fn broken_or_thin()
    ensures { (lined : List LinedToken) (line : ℕ) → BreaksOn lined line → IsThin (tokens_in lined)
        → ⊥ }
{}

/// What breaks off does so at one place only.
pub fn one_break()
    ensures { (tokens : List Token) (a b : ℕ) → BreaksAfter tokens a → BreaksAfter tokens b
        → a ≡ b }
{}

/// What breaks off does so on one line only.
pub fn one_line()
    ensures { (lined : List LinedToken) (a b : ℕ) → BreaksOn lined a → BreaksOn lined b → a ≡ b }
{}

/// Where the input has ended, what breaks off does so on the line of one of its tokens.
pub fn on_a_token()
    ensures { (lined : List LinedToken) (line : ℕ) → IsClosed (tokens_in lined) → BreaksOn lined line
        → Contains (lines_in lined) line }
{}
