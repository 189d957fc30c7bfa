//! Patterns.
ghost use Rattle.std.specs.Prelude.{◌≡◌, min, ◌^◌, ◌-◌, IfOk, string_bytes};
ghost use Rattle.sf_expr.specs.Expressions.{pattern_depth};
ghost use Rattle.sf_expr.specs.Patterns.{placed_unnamed, placed_name, placed_both, pattern_of};
ghost use Rattle.sf_expr.specs.PatternView.{pattern_placed};

use sf_refusal::Spot;
use std::alloc::{AllocError, Global};
use std::marker::Model;

/// A pattern, with the places of its names.
#[cycle(pat)]
pub struct Pat {
    form: PatForm,
}

impl Drop for Pat {
    #[cycle(pat)]
    fn drop(self) {
        let Pat { form } = self;
        drop(form);
    }
}

/// What a pattern is made of.
#[derive(Drop)]
#[cycle(pat)]
pub enum PatForm {
    /// `_`: binds nothing.
    Unnamed,
    /// A name with its place in the text.
    Name(String, Spot),
    /// Patterns for the two parts of a pair.
    Both(Box<Pat>, Box<Pat>),
}

impl Model for Pat {
    ghost use Rattle.std.specs.Prelude.{List};
    ghost use Rattle.std.specs.Coded.{code_by, codes};
    ghost use Rattle.sf_expr.specs.Patterns.{PlacedPattern, pattern_size};
    ghost use Rattle.sf_expr.specs.PatternCodes.{PatternMark, pattern_marks_of, decoded_pattern, decoded_pattern-marks_of};

    ghost Value = { PlacedPattern };

    ghost coded = { code_by (List PatternMark) (Prim.hlevel codes) pattern_marks_of decoded_pattern decoded_pattern-marks_of };

    ghost use Rattle.sf_expr.specs.PatternView.{pattern_placed};

    ghost view = { λ a. pattern_placed a.form };

    ghost size = { pattern_size };

    ghost use Rattle.sf_expr.specs.PatternFalls.{deep_le-pattern_size};

    ghost size_decreases = { λ a h. deep_le-pattern_size a.form };
}

impl Pat {
    /// The pattern that binds nothing.
    pub fn unnamed() -> Pat
        ensures { result ≡ placed_unnamed }
    {
        Pat {
            form: PatForm::Unnamed,
        }
    }

    /// A name with its place in the text.
    pub fn name(name: String, spot: Spot) -> Pat
        ensures { result ≡ placed_name (string_bytes name) spot }
    {
        Pat {
            form: PatForm::Name(name, spot),
        }
    }

    /// Patterns for the two parts of a pair.
    pub fn both(alloc: Global, first: Pat, second: Pat) -> Result<Pat, AllocError>
        ensures { IfOk result (λ p. p ≡ placed_both first second) }
    {
        let first = Box::new(alloc, first)?;
        let second = Box::new(alloc, second)?;
        Ok(Pat {
            form: PatForm::Both(first, second),
        })
    }

    /// What the pattern is made of.
    pub fn form(&self) -> &PatForm
        ensures { pattern_placed result.now ≡ self.now }
    {
        &self.form
    }

    /// How many patterns stand one inside another; `u32::MAX` where they are more.
    pub fn depth(&self) -> u32
        ensures { result ≡ min (pattern_depth (pattern_of self.now)) (2 ^ 32 - 1) }
    {
        match &self.form {
            PatForm::Unnamed | PatForm::Name(_, _) => 1,
            PatForm::Both(first, second) => first.depth().max(second.depth()).saturating_add(1),
        }
    }

    /// A copy.
    pub fn clone_in(&self, alloc: Global) -> Result<Pat, AllocError>
        ensures { IfOk result (λ copy. copy ≡ self.now) }
    {
        match &self.form {
            PatForm::Unnamed => Ok(Pat::unnamed()),
            PatForm::Name(name, spot) => {
                Ok(Pat::name(String::from_str(alloc, name.as_str())?, *spot))
            }
            PatForm::Both(first, second) => {
                Pat::both(alloc, first.clone_in(alloc)?, second.clone_in(alloc)?)
            }
        }
    }
}
