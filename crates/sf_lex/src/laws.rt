//! Laws of tokens.
ghost use Rattle.std.specs.Prelude.{◌⊎◌, ℕ, List};
ghost use Rattle.sf_refusal.specs.declared.refusal.Breach.{Breach};
ghost use Rattle.sf_lex.specs.Tokens.{Located};
ghost use Rattle.sf_lex.specs.Cutting.{Lexes, BreaksLexis};

/// All bytes have tokens, or break a rule of tokens at a place.
pub fn tokens_or_a_breach()
    ensures { (bytes : List ℕ) → ((found : List Located) × Lexes bytes found) ⊎ ((b : Breach) × BreaksLexis bytes b) }
{}
