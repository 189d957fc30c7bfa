//! What holds of operators.
ghost use Rattle.std.specs.Prelude.{◌≡◌, ◌≢◌, ℤ, pos, ◌+ℤ◌, ◌*ℤ◌};
ghost use Rattle.sf_value.specs.Values.{number};
ghost use Rattle.sf_operator.specs.declared.operator.Arithmetic.TheVariants.{Divide, Modulo};
ghost use Rattle.sf_operator.specs.Outcomes.{answer};
ghost use Rattle.sf_operator.specs.Operations.{quotient, remainder, of_numbers};
ghost use Rattle.sf_operator.specs.Remainders.{IsRemainder};
ghost use Rattle.sf_operator.specs.Laws.{EachUnaryYields, EachOperatorYields, EachDecisionYields, EachMappingYields, EachFoldingYields};

/// A number is the divisor times the quotient, and what is left: zero or of the divisor's sign, and nearer to zero than
/// the divisor. So it is with `div` and `mod` where both have a value.
pub fn floor_division()
    ensures numbers { (a b : ℤ) → b ≢ pos 0 → (a ≡ (b *ℤ quotient a b) +ℤ remainder a b) × IsRemainder (remainder a b) b }
    ensures operators { (a b q r : ℤ) → of_numbers Divide a b ≡ answer (number q) → of_numbers Modulo a b ≡ answer (number r) →
        (a ≡ (b *ℤ q) +ℤ r) × IsRemainder r b }
{}

/// An operator on values of types that it takes makes a value of the type that the table of types says, or a fault. So
/// is what the first operand decides alone.
pub fn typed_operators()
    ensures unary { EachUnaryYields }
    ensures binary { EachOperatorYields }
    ensures decided { EachDecisionYields }
{}

/// A form with a function makes a value of the type that the table of types says, or a fault, where its function does so
/// of each value that it takes.
pub fn typed_functions()
    ensures on_one { EachMappingYields }
    ensures on_two { EachFoldingYields }
{}
