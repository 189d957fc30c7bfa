//! Patterns of frames.
ghost use Rattle.std.specs.Prelude.{◌≡◌, ◌||◌, IfOk, None, OnOk, is_some, IsTrue};
ghost use Rattle.std.specs.BTreeMap.{get_by_text};
ghost use Rattle.std.specs.Option.{ForSome};
ghost use Rattle.sf_value.specs.Values.{Name};
ghost use Rattle.sf_expr.specs.Patterns.{pattern_of};
ghost use Rattle.sf_code.specs.Compiling.{path_of_name};
ghost use Rattle.sf_code.specs.Indexes.{IndexesPattern};

use sf_expr::{Pat, PatForm};
use std::alloc::{AllocError, Global};
use std::collections::BTreeMap;

/// How many parts a pattern may have in which names are looked for one after another.
const FEW: usize = 32;

/// The pattern of a frame.
#[derive(Drop)]
pub(crate) struct FramePattern<'a> {
    /// The pattern.
    pub(crate) pattern: &'a Pat,
    // Its names, where it has many parts: most names are looked for in patterns that don't bind them.
    index: Option<BTreeMap<String, ()>>,
    // (they are its names)
    ghost indexed: { ForSome index (λ names. IndexesPattern (pattern_of pattern.now) names) },
}

impl<'a> FramePattern<'a> {
    /// The pattern of a frame; the error is a want of memory for an index of its names.
    pub(crate) fn new(alloc: Global, pattern: &'a Pat) -> Result<FramePattern<'a>, AllocError>
        ensures { IfOk result (λ frame. frame.pattern.now ≡ pattern.now) }
    {
        if parts(pattern) <= FEW {
            return Ok(FramePattern {
                pattern,
                index: None,
            });
        }
        let mut names = BTreeMap::new(alloc);
        add_names(alloc, pattern, &mut names)?;
        Ok(FramePattern {
            pattern,
            index: Some(names),
        })
    }

    /// Whether its index says that it does not bind a name.
    pub(crate) fn rules_out(&self, name: &str) -> bool
        ensures { IsTrue result → path_of_name name.now (pattern_of self.now.pattern.now) ≡ None }
    {
        match &self.index {
            Some(names) => !names.contains_key(name),
            None => false,
        }
    }

    /// Whether it binds a name.
    pub(crate) fn binds(&self, name: &str) -> bool
        ensures { result ≡ is_some (path_of_name name.now (pattern_of self.now.pattern.now)) }
    {
        match &self.index {
            Some(names) => names.contains_key(name),
            None => binds(self.pattern, name),
        }
    }
}

// How many patterns a pattern is made of.
fn parts(pattern: &Pat) -> usize {
    match pattern.form() {
        PatForm::Unnamed | PatForm::Name(_, _) => 1,
        PatForm::Both(first, second) => parts(first)
            .saturating_add(parts(second))
            .saturating_add(1),
    }
}

// Puts the names of a pattern among others.
fn add_names(
    alloc: Global,
    pattern: &Pat,
    names: &mut BTreeMap<String, ()>,
) -> Result<(), AllocError>
    ensures { OnOk result ((x : Name) → is_some (get_by_text names.new x) ≡ (is_some (path_of_name x (pattern_of pattern.now)) || is_some (get_by_text names.old x))) }
{
    match pattern.form() {
        PatForm::Unnamed => Ok(()),
        PatForm::Name(own, _) => {
            names.insert(String::from_str(alloc, own.as_str())?, ())?;
            Ok(())
        }
        PatForm::Both(first, second) => {
            add_names(alloc, first, names)?;
            add_names(alloc, second, names)
        }
    }
}

// Whether a pattern binds a name.
fn binds(pattern: &Pat, name: &str) -> bool
    ensures { result ≡ is_some (path_of_name name.now (pattern_of pattern.now)) }
{
    match pattern.form() {
        PatForm::Unnamed => false,
        PatForm::Name(own, _) => own.as_str() == name,
        PatForm::Both(first, second) => binds(second, name) || binds(first, name),
    }
}
