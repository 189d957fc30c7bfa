//! Laws of the definitions, in functions without effect.
ghost use Rattle.std.specs.Prelude.{◌≡◌, ℕ, List, Result};
ghost use Rattle.sf_value.specs.Values.{Kind, Data};
ghost use Rattle.sf_spelling.specs.Spelling.{spelling};
ghost use Rattle.sf_spelling.specs.Reading.{Refusal, Reads};

/// Bytes are read as one value at most or refused for one reason, and not both.
pub fn one_reading()
    ensures { (t : Kind) (bytes : List ℕ) (r s : Result Data Refusal) →
        Reads t bytes r → Reads t bytes s → r ≡ s }
{}

/// For each type, bytes are read as a value or refused: no bytes are left without an answer.
pub fn some_reading()
    ensures { (t : Kind) (bytes : List ℕ) → (r : Result Data Refusal) × Reads t bytes r }
{}

/// Values of one spelling are one value, whatever their types are and however large their numbers.
pub fn same_value()
    ensures { (v w : Data) → spelling v ≡ spelling w → v ≡ w }
{}
