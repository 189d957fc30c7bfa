//! Laws of the definitions, in functions without effect.
ghost use Rattle.std.specs.Prelude.{◌≡◌, ℕ, List, Bool, Result};
ghost use Rattle.sf_value.specs.Values.{Kind};
ghost use Rattle.sf_lines.specs.declared.refusal.LineRefusal.{LineRefusal};
ghost use Rattle.sf_lines.specs.Asking.{Asked, Says};

/// A line asks for one thing at most, or is refused for one reason, and not both.
pub fn one_answer()
    ensures { (started : Bool) (input : Kind) (line : List ℕ) (a b : Result Asked LineRefusal) →
        Says started input line a → Says started input line b → a ≡ b }
{}

/// Each line asks for something or is refused: with `one_answer`, all lines have exactly one answer.
pub fn some_answer()
    ensures { (started : Bool) (input : Kind) (line : List ℕ) →
        (answer : Result Asked LineRefusal) × Says started input line answer }
{}
