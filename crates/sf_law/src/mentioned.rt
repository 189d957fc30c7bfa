//! The names that terms mention, in lists.
ghost use Rattle.std.specs.Prelude.{◌≡◌, true, false, IsTrue, IfOk, OnOk, is_some};
ghost use Rattle.sf_value.specs.Values;
ghost use Rattle.sf_expr.specs.declared.exprs.Exprs.{Exprs};
ghost use Rattle.sf_expr.specs.Arena.{name_at};
ghost use Rattle.sf_expr.specs.Expressions;
ghost use Rattle.sf_expr.specs.Numbered.{TellsName};
ghost use Rattle.sf_code.specs.Compiling.{place_of_name};
ghost use Rattle.sf_code.specs.Around.{pattern_around, patterns_around};
ghost use Rattle.sf_coincidence.specs.Mentions.{BindsOthers};
ghost use Rattle.sf_law.specs.Arena.{plan_expressions};
ghost use Rattle.sf_law.specs.Mentioned.{has_name, is_mentioned, binds_name, bound_pattern, HasAll, AddsOnly};

use crate::plan::Plan;
use sf_code::{Around, OpenCode};
use sf_expr::{NameId, NumberedPattern, PatternId};
use std::alloc::{AllocError, Global};

/// Names that a term mentions.
#[derive(Drop)]
pub enum Mentioned {
    /// These.
    Names(Vec<NameId>),
    /// Any: they are too many to be listed.
    Any,
}

/// What binds names.
#[derive(Clone, Copy)]
pub enum Binder {
    /// A pattern.
    Pattern(PatternId),
    /// A name of a process or of a collection.
    Name(NameId),
    /// A name and a pattern.
    Both(NameId, PatternId),
}

/// So many names are listed.
pub(crate) const MOST: usize = 16;

impl Mentioned {
    /// No names.
    pub(crate) fn nothing(alloc: Global) -> Mentioned
        ensures { (e : Exprs) (x : Values.Name) → is_mentioned e result x ≡ false }
    {
        Mentioned::Names(Vec::new(alloc))
    }

    /// Whether there are none.
    pub fn is_empty(&self) -> bool
        ensures { IsTrue result → (e : Exprs) (x : Values.Name) → is_mentioned e self.now x ≡ false }
    {
        match self {
            Mentioned::Names(names) => names.is_empty(),
            Mentioned::Any => false,
        }
    }

    /// Whether a name is one of them.
    pub(crate) fn has(&self, plan: &Plan, name: NameId) -> bool
        ensures { let e = plan_expressions plan.now in result ≡ is_mentioned e self.now (name_at e name) }
    {
        match self {
            Mentioned::Names(names) => is_among(plan, names, name),
            Mentioned::Any => true,
        }
    }

    /// Whether some of them may be bound there.
    pub fn is_bound_by(&self, plan: &Plan, binder: Binder) -> bool
        ensures { let e = plan_expressions plan.now in
            result ≡ false → (x : Values.Name) → IsTrue (is_mentioned e self.now x) → BindsOthers (bound_pattern e binder) x }
    {
        match self {
            Mentioned::Names(names) => any_is_bound(plan, names, binder),
            Mentioned::Any => true,
        }
    }

    /// Those that aren't bound there. The error is a want of memory.
    pub fn outside(
        &self,
        alloc: Global,
        plan: &Plan,
        binder: Binder,
    ) -> Result<Mentioned, AllocError>
        ensures { let e = plan_expressions plan.now in
            IfOk result (λ left. (x : Values.Name) → IsTrue (is_mentioned e self.now x) → BindsOthers (bound_pattern e binder) x → IsTrue (is_mentioned e left x)) }
    {
        match self {
            Mentioned::Names(names) => {
                let mut left = Mentioned::nothing(alloc);
                left.add_outside(plan, names, binder)?;
                Ok(left)
            }
            Mentioned::Any => Ok(Mentioned::Any),
        }
    }

    // Adds those of these names that aren't bound there.
    fn add_outside(
        &mut self,
        plan: &Plan,
        names: &[NameId],
        binder: Binder,
    ) -> Result<(), AllocError>
        ensures kept { OnOk result (HasAll (plan_expressions plan.now) self.old self.new) }
        ensures added { let e = plan_expressions plan.now in
            OnOk result ((x : Values.Name) → IsTrue (has_name e names.now x) → BindsOthers (bound_pattern e binder) x → IsTrue (is_mentioned e self.new x)) }
    {
        match names {
            [] => Ok(()),
            [first, rest @ ..] => {
                if !binder.binds(plan, *first) {
                    self.add(plan, *first)?;
                }
                self.add_outside(plan, rest, binder)
            }
        }
    }

    /// Adds a name. The error is a want of memory.
    pub(crate) fn add(&mut self, plan: &Plan, name: NameId) -> Result<(), AllocError>
        ensures kept { OnOk result (HasAll (plan_expressions plan.now) self.old self.new) }
        ensures added { let e = plan_expressions plan.now in OnOk result (IsTrue (is_mentioned e self.new (name_at e name))) }
        ensures only { let e = plan_expressions plan.now in OnOk result (AddsOnly e self.old (name_at e name) self.new) }
    {
        match self {
            Mentioned::Any => return Ok(()),
            Mentioned::Names(names) => {
                if is_among(plan, names, name) {
                    return Ok(());
                }
                if names.len() < MOST {
                    names.push(name)?;
                    return Ok(());
                }
            }
        }
        *self = Mentioned::Any;
        Ok(())
    }

    // Adds names.
    fn add_each(&mut self, plan: &Plan, names: &[NameId]) -> Result<(), AllocError>
        ensures kept { OnOk result (HasAll (plan_expressions plan.now) self.old self.new) }
        ensures added { let e = plan_expressions plan.now in
            OnOk result ((x : Values.Name) → IsTrue (has_name e names.now x) → IsTrue (is_mentioned e self.new x)) }
    {
        match names {
            [] => Ok(()),
            [first, rest @ ..] => {
                self.add(plan, *first)?;
                self.add_each(plan, rest)
            }
        }
    }

    /// Adds the names of a list. The error is a want of memory.
    pub(crate) fn add_all(&mut self, plan: &Plan, other: &Mentioned) -> Result<(), AllocError>
        ensures kept { OnOk result (HasAll (plan_expressions plan.now) self.old self.new) }
        ensures added { OnOk result (HasAll (plan_expressions plan.now) other.now self.new) }
    {
        match other {
            Mentioned::Names(names) => self.add_each(plan, names),
            Mentioned::Any => {
                *self = Mentioned::Any;
                Ok(())
            }
        }
    }

    // Adds names around code.
    fn add_around(&mut self, plan: &Plan, around: &Around) -> Result<(), AllocError>
        ensures kept { OnOk result (HasAll (plan_expressions plan.now) self.old self.new) }
        ensures added { let e = plan_expressions plan.now in
            OnOk result ((x : Values.Name) → IsTrue (binds_name (pattern_around e around.now) x) → IsTrue (is_mentioned e self.new x)) }
    {
        match around {
            Around::Nothing => Ok(()),
            Around::Name(name) => self.add(plan, *name),
            Around::Both(first, second) => {
                self.add_around(plan, first)?;
                self.add_around(plan, second)
            }
        }
    }

    /// Adds the names around code. The error is a want of memory.
    pub(crate) fn add_code(&mut self, plan: &Plan, code: &OpenCode) -> Result<(), AllocError>
        ensures kept { OnOk result (HasAll (plan_expressions plan.now) self.old self.new) }
        ensures added { let e = plan_expressions plan.now in
            OnOk result ((x : Values.Name) → is_some (place_of_name x (patterns_around e code.now.around)) ≡ true → IsTrue (is_mentioned e self.new x)) }
    {
        match &code.around {
            None => Ok(()),
            Some(around) => self.add_around(plan, around),
        }
    }
}

impl Binder {
    // Whether it binds a name.
    fn binds(self, plan: &Plan, name: NameId) -> bool
        ensures { let e = plan_expressions plan.now in result ≡ binds_name (bound_pattern e self) (name_at e name) }
    {
        match self {
            Binder::Pattern(pattern) => plan.binds(pattern, name),
            Binder::Name(own) => plan.same_name(name, own),
            Binder::Both(own, pattern) => plan.same_name(name, own) || plan.binds(pattern, name),
        }
    }
}

// Whether a pattern binds the name of a number.
pub(crate) fn binds(pattern: &NumberedPattern, number: usize) -> bool
    ensures { (x : Values.Name) (p : Expressions.Pattern) → TellsName number x pattern.now p → result ≡ binds_name p x }
{
    match pattern {
        NumberedPattern::Unnamed => false,
        NumberedPattern::Name(own) => number == *own,
        NumberedPattern::Both(first, second) => binds(first, number) || binds(second, number),
    }
}

// Whether some of these names are bound there.
fn any_is_bound(plan: &Plan, names: &[NameId], binder: Binder) -> bool
    ensures { let e = plan_expressions plan.now in
        result ≡ false → (x : Values.Name) → IsTrue (has_name e names.now x) → BindsOthers (bound_pattern e binder) x }
{
    match names {
        [] => false,
        [first, rest @ ..] => binder.binds(plan, *first) || any_is_bound(plan, rest, binder),
    }
}

// Whether a name is among these.
fn is_among(plan: &Plan, names: &[NameId], name: NameId) -> bool
    ensures { let e = plan_expressions plan.now in result ≡ has_name e names.now (name_at e name) }
{
    match names {
        [] => false,
        [first, rest @ ..] => plan.same_name(name, *first) || is_among(plan, rest, name),
    }
}
