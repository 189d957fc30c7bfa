//! The names around an expression: those that no pattern of its frames binds.
ghost use Rattle.std.specs.Prelude.{◌≡◌, true, [], ◌∷◌, ◌++◌, IfOk, OnOk, is_some};
ghost use Rattle.sf_expr.specs.Arena.{expression, name_at, stored_pattern, Holds, HoldsName, HoldsPattern};
ghost use Rattle.sf_expr.specs.Patterns.{pattern_of};
ghost use Rattle.sf_code.specs.Compiling.{is_closed, named_each, path_of_name, place_of_name, BindAsMany};
ghost use Rattle.sf_expr.specs.declared.exprs.Exprs as expression_arenas;
ghost use Rattle.sf_code.specs.PlaceView.{frame_patterns, around_pattern};
ghost use Rattle.sf_code.specs.Around.{names_by_id, pattern_around, patterns_around, HoldsEach, HoldsShape, HoldsFrame};

use crate::pattern::FramePattern;
use crate::place::Patterns;
use indexmap::IndexSet;
use sf_expr::{ExprId, ExprNode, Exprs, NameId, Pat, PatternId};
use sf_refusal::Spot;
use std::alloc::{AllocError, Global};

/// Names around code, in the shape of a pattern.
#[derive(Drop)]
pub enum Around {
    /// None.
    Nothing,
    /// A name.
    Name(NameId),
    /// Those in the first half of a pair, and those in the second.
    Both(Box<Around>, Box<Around>),
}

impl Around {
    /// The pattern of these names, of which the places in the text are none.
    fn pattern(&self, alloc: Global, exprs: &Exprs) -> Result<Pat, AllocError>
        requires { HoldsShape exprs.now self.now }
        ensures { IfOk result (λ pattern. pattern_of pattern ≡ pattern_around exprs.now self.now) }
    {
        match self {
            Around::Nothing => Ok(Pat::unnamed()),
            Around::Name(name) => {
                let start = Spot { line: 0, column: 0 };
                let text = String::from_str(alloc, exprs.name_of(*name))?;
                Ok(Pat::name(text, start))
            }
            Around::Both(first, second) => {
                let first = first.pattern(alloc, exprs)?;
                let second = second.pattern(alloc, exprs)?;
                Pat::both(alloc, first, second)
            }
        }
    }
}

/// The pattern of names around code, if there are any.
pub(crate) fn pattern_of_around(
    alloc: Global,
    exprs: &Exprs,
    around: &Option<Box<Around>>,
) -> Result<Option<Box<Pat>>, AllocError>
    requires { HoldsFrame exprs.now around.now }
    ensures { IfOk result (λ pattern. around_pattern pattern ≡ patterns_around exprs.now around.now) }
{
    match around {
        Some(names) => {
            let pattern = names.pattern(alloc, exprs)?;
            Ok(Some(Box::new(alloc, pattern)?))
        }
        None => Ok(None),
    }
}

/// The names that no pattern of an expression's frames binds, each once; none where there is no such name, so that the code has
/// no frame for them.
pub(crate) fn names_around(
    alloc: Global,
    exprs: &Exprs,
    id: ExprId,
    patterns: &Patterns,
) -> Result<Option<Box<Around>>, AllocError>
    requires { Holds exprs.now id }
    ensures held { IfOk result (λ around. HoldsFrame exprs.now around) }
    ensures closed { IfOk result (λ around. is_closed (frame_patterns patterns.now ++ patterns_around exprs.now around) (expression exprs.now id) ≡ true) }
    ensures fewest { is_closed (frame_patterns patterns.now) (expression exprs.now id) ≡ true → IfOk result (λ around. around ≡ None) }
{
    let mut names = Vec::new(alloc);
    gather(alloc, exprs, id, patterns, &mut names)?;
    let own = each_once(alloc, exprs, &names)?;
    around_of(alloc, &own)
}

// Of names of the same text the first.
fn each_once(alloc: Global, exprs: &Exprs, names: &[NameId]) -> Result<Vec<NameId>, AllocError>
    requires { HoldsEach exprs.now names.now }
    ensures held { IfOk result (λ own. HoldsEach exprs.now own.items) }
    ensures bound { IfOk result (λ own. BindAsMany (named_each (names_by_id exprs.now names.now)) (named_each (names_by_id exprs.now own.items))) }
    ensures fewest { names.now ≡ [] → IfOk result (λ own. own.items ≡ []) }
{
    let mut seen = IndexSet::new(alloc);
    let mut own = Vec::new(alloc);
    for name in names {
        let is_new = seen.insert(exprs.name_of(*name))?;
        if is_new {
            own.push(*name)?;
        }
    }
    Ok(own)
}

// Names as names around code, if there are any.
fn around_of(alloc: Global, names: &[NameId]) -> Result<Option<Box<Around>>, AllocError>
    ensures held { (x : expression_arenas.Exprs) → HoldsEach x names.now → IfOk result (λ around. HoldsFrame x around) }
    ensures bound { (x : expression_arenas.Exprs) → IfOk result (λ around. BindAsMany (named_each (names_by_id x names.now)) (patterns_around x around)) }
    ensures fewest { names.now ≡ [] → IfOk result (λ around. around ≡ None) }
{
    if names.is_empty() {
        return Ok(None);
    }
    let around = balanced(alloc, names)?;
    Ok(Some(Box::new(alloc, around)?))
}

// The same of some, as low as can be.
fn balanced(alloc: Global, names: &[NameId]) -> Result<Around, AllocError>
    ensures held { (x : expression_arenas.Exprs) → HoldsEach x names.now → IfOk result (λ around. HoldsShape x around) }
    ensures bound { (x : expression_arenas.Exprs) → IfOk result (λ around. BindAsMany (named_each (names_by_id x names.now)) (pattern_around x around ∷ [])) }
{
    match names {
        [] => Ok(Around::Nothing),
        [name] => Ok(Around::Name(*name)),
        _ => {
            let (left, right) = names.split_at(names.len() / 2);
            let first = balanced(alloc, left)?;
            let second = balanced(alloc, right)?;
            Ok(Around::Both(Box::new(alloc, first)?, Box::new(alloc, second)?))
        }
    }
}

// Puts the names behind others that neither these patterns nor those names bind: none where the patterns bind each.
#[cycle(gather)]
fn gather(
    alloc: Global,
    exprs: &Exprs,
    id: ExprId,
    patterns: &Patterns,
    names: &mut Vec<NameId>,
) -> Result<(), AllocError>
    requires { Holds exprs.now id }
    ensures held { HoldsEach exprs.now names.old.items → OnOk result (HoldsEach exprs.now names.new.items) }
    ensures kept { OnOk result (BindAsMany (named_each (names_by_id exprs.now names.old.items)) (named_each (names_by_id exprs.now names.new.items))) }
    ensures closed { OnOk result (is_closed (frame_patterns patterns.now ++ named_each (names_by_id exprs.now names.new.items)) (expression exprs.now id) ≡ true) }
    ensures fewest { OnOk result (is_closed (frame_patterns patterns.now) (expression exprs.now id) ≡ true → names.new.items ≡ names.old.items) }
{
    match exprs.node(id) {
        ExprNode::Unit | ExprNode::Truth(_) | ExprNode::Int(_) | ExprNode::Constant(_) => Ok(()),
        ExprNode::Name(name) => note(exprs, name, patterns, names),
        ExprNode::Applied(_, part) | ExprNode::Called(_, _, part) => {
            gather(alloc, exprs, part, patterns, names)
        }
        ExprNode::Pair(first, second) | ExprNode::Operation(first, _, second) => {
            gather_both(alloc, exprs, first, second, patterns, names)
        }
        ExprNode::Conditional(condition, first, second) => {
            gather(alloc, exprs, condition, patterns, names)?;
            gather_both(alloc, exprs, first, second, patterns, names)
        }
        ExprNode::Mapped(node) => {
            gather(alloc, exprs, node.part, patterns, names)?;
            gather_within(alloc, exprs, node.pattern, node.body, patterns, names)
        }
        ExprNode::Folded(node) => {
            gather_both(alloc, exprs, node.first, node.second, patterns, names)?;
            gather_within(alloc, exprs, node.pattern, node.body, patterns, names)
        }
    }
}

// The same of two expressions.
#[cycle(gather)]
fn gather_both(
    alloc: Global,
    exprs: &Exprs,
    first: ExprId,
    second: ExprId,
    patterns: &Patterns,
    names: &mut Vec<NameId>,
) -> Result<(), AllocError>
    requires first { Holds exprs.now first }
    requires second { Holds exprs.now second }
    ensures held { HoldsEach exprs.now names.old.items → OnOk result (HoldsEach exprs.now names.new.items) }
    ensures kept { OnOk result (BindAsMany (named_each (names_by_id exprs.now names.old.items)) (named_each (names_by_id exprs.now names.new.items))) }
    ensures first { OnOk result (is_closed (frame_patterns patterns.now ++ named_each (names_by_id exprs.now names.new.items)) (expression exprs.now first) ≡ true) }
    ensures second { OnOk result (is_closed (frame_patterns patterns.now ++ named_each (names_by_id exprs.now names.new.items)) (expression exprs.now second) ≡ true) }
    ensures fewest { OnOk result (is_closed (frame_patterns patterns.now) (expression exprs.now first) ≡ true → is_closed (frame_patterns patterns.now) (expression exprs.now second) ≡ true → names.new.items ≡ names.old.items) }
{
    gather(alloc, exprs, first, patterns, names)?;
    gather(alloc, exprs, second, patterns, names)
}

// The same of a function's expression: its pattern is that of a frame inside the others.
#[cycle(gather)]
fn gather_within(
    alloc: Global,
    exprs: &Exprs,
    pattern: PatternId,
    body: ExprId,
    patterns: &Patterns,
    names: &mut Vec<NameId>,
) -> Result<(), AllocError>
    requires pattern { HoldsPattern exprs.now pattern }
    requires body { Holds exprs.now body }
    ensures held { HoldsEach exprs.now names.old.items → OnOk result (HoldsEach exprs.now names.new.items) }
    ensures kept { OnOk result (BindAsMany (named_each (names_by_id exprs.now names.old.items)) (named_each (names_by_id exprs.now names.new.items))) }
    ensures closed { OnOk result (is_closed (pattern_of (stored_pattern exprs.now pattern) ∷ (frame_patterns patterns.now ++ named_each (names_by_id exprs.now names.new.items))) (expression exprs.now body) ≡ true) }
    ensures fewest { OnOk result (is_closed (pattern_of (stored_pattern exprs.now pattern) ∷ frame_patterns patterns.now) (expression exprs.now body) ≡ true → names.new.items ≡ names.old.items) }
{
    let frame = FramePattern::new(alloc, (&*exprs).placed(pattern))?;
    let inner = (&*patterns).within(&frame);
    gather(alloc, exprs, body, &inner, names)
}

// The same of a name.
fn note(
    exprs: &Exprs,
    name: NameId,
    patterns: &Patterns,
    names: &mut Vec<NameId>,
) -> Result<(), AllocError>
    requires { HoldsName exprs.now name }
    ensures held { HoldsEach exprs.now names.old.items → OnOk result (HoldsEach exprs.now names.new.items) }
    ensures kept { OnOk result (BindAsMany (named_each (names_by_id exprs.now names.old.items)) (named_each (names_by_id exprs.now names.new.items))) }
    ensures bound { OnOk result (is_some (place_of_name (name_at exprs.now name) (frame_patterns patterns.now ++ named_each (names_by_id exprs.now names.new.items))) ≡ true) }
    ensures fewest { OnOk result (is_some (place_of_name (name_at exprs.now name) (frame_patterns patterns.now)) ≡ true → names.new.items ≡ names.old.items) }
{
    if !patterns.binds(exprs.name_of(name)) {
        names.push(name)?;
    }
    Ok(())
}
