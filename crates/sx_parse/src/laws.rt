// What a caller relies on, said of the definitions.
ghost use Rattle.std.specs.Prelude.{ℕ, Bool, List};
ghost use Rattle.sx_kinds.specs.declared.expressions.Expr.{Expr as AnyExpr};
ghost use Rattle.sx_names.specs.Scope.{ScopeBindings};
ghost use Rattle.sx_parse.specs.Laws as laws;
ghost use Rattle.sx_parse.specs.Numbered.{numbered, numbered_steps};
ghost use Rattle.sx_parse.specs.declared.lexemes.Lexeme.{Lexeme as AnyLexeme};

/// A list of tokens has a derivation or a fault, and not both; it has one derivation at most, and one fault.
pub fn reading_is_exact()
    ensures reads { (p : Bool) (ts : List AnyLexeme) → laws.AreDerivedOrFaulty p ts }
    ensures derivation { (p : Bool) (ts : List AnyLexeme) → laws.HaveOneDerivation p ts }
    ensures fault { (p : Bool) (ts : List AnyLexeme) → laws.HaveOneFault p ts }
    ensures either { (p : Bool) (ts : List AnyLexeme) → laws.HaveNotBoth p ts }
{}

/// A text is read or refused, and not both; it has one reading at most, and one refusal.
pub fn one_answer()
    ensures some { (p : Bool) (scope : ScopeBindings) (text : List ℕ) → laws.IsAnswered p scope text }
    ensures reading { (p : Bool) (scope : ScopeBindings) (text : List ℕ)
        → laws.HasOneReading p scope text }
    ensures either { (p : Bool) (scope : ScopeBindings) (text : List ℕ) → laws.IsNotBoth p scope text }
    ensures refusal { (p : Bool) (scope : ScopeBindings) (text : List ℕ)
        → laws.HasOneRefusal p scope text }
{}

/// What is read is formed: each expression has as many parts as its form asks for, and each call as many arguments as its function
/// takes. So are the alternatives of a pattern, and numbers change nothing of that.
pub fn what_is_read_is_formed()
    ensures expression { (p : Bool) (scope : ScopeBindings) (text : List ℕ)
        → laws.SaysFormed p scope text }
    ensures alternatives { (p : Bool) (scope : ScopeBindings) (text : List ℕ)
        → laws.HasFormedAlternatives p scope text }
    ensures numbered { (n : ℕ) (e : AnyExpr) → laws.KeepsForm e (numbered n e) }
    ensures steps { (n : ℕ) (e : AnyExpr) → laws.KeepsForm e (numbered_steps n e) }
{}
