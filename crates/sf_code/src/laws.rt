//! What holds of code.
ghost use Rattle.sf_code.specs.Laws.{EachIsCompiled, EachFunctionIsCompiled, ClosedIsTheSame};

/// The code of an expression is worth over the values of frames what the expression is worth where the names of the
/// frames' patterns have these values, inside the scope that it was made in: names are looked for once, when code is
/// made. So is that of a function, with its argument in the only frame, what the function answers to it. Where the
/// patterns bind each name of an expression, its code is the same in every scope.
pub fn compiled_expression()
    ensures expressions { EachIsCompiled }
    ensures functions { EachFunctionIsCompiled }
    ensures closed { ClosedIsTheSame }
{}
