//! What holds of refusals.
ghost use Rattle.sf_check.specs.Laws.{EachNetworkRefusedOnce, EachNetworkAnswered, RefusedOrAccepted, EachTermJudged, EachTermAnswered};

/// A network breaks one rule at most first: which rule is named, and at which place, is fixed.
pub fn one_refusal()
    ensures { EachNetworkRefusedOnce }
{}

/// What is judged of a term, its type or the first rule that it breaks, is a type where the term takes inputs of a type to
/// outputs of that one, and nowhere else.
pub fn judged_output()
    ensures { EachTermJudged }
{}

/// Under each context whose names have types of at most 256 nodes, a term takes inputs of such a type to outputs of
/// another or breaks a rule on them: no term is left without an answer.
pub fn some_answer()
    ensures { EachTermAnswered }
{}

/// Each network whose headers' types are within bounds, as those of each network that is read, is accepted or breaks a
/// rule, and not both.
pub fn accepted_or_refused()
    ensures one { EachNetworkAnswered }
    ensures not_both { RefusedOrAccepted }
{}
