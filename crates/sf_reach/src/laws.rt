//! What holds of endless calls.
ghost use Rattle.sf_reach.specs.Laws.{FirstEndlessCallIsOne, EndlessOrNot, NotEndlessAndNot};

/// The first endless call of a program stands at one spot.
pub fn one_endless_call()
    ensures { FirstEndlessCallIsOne }
{}

/// A program has a first endless call, or no template of it reaches itself; and not both, where the names of its templates
/// are different.
pub fn endless_or_not()
    ensures one { EndlessOrNot }
    ensures not_both { NotEndlessAndNot }
{}
