//! Names as numbers.
ghost use Rattle.std.specs.Prelude.{◌≡◌, IfOk, OnOk};
ghost use Rattle.std.specs.List.{AllZip};
ghost use Rattle.sf_expr.specs.Patterns.{pattern_of};
ghost use Rattle.sf_expr.specs.Numbered.{number_at, numbered_pattern, AreNumbers, IsNumber, ExtendsNumbers, IsNumbered};

use super::{Exprs, NameId, PatternId};
use crate::pat::{Pat, PatForm};
use crate::stored::StoredName;
use indexmap::IndexSet;
use std::alloc::{AllocError, Global};

/// A pattern, of which each name is a number.
#[derive(Drop)]
pub enum NumberedPattern {
    /// It binds nothing.
    Unnamed,
    /// The number of a name.
    Name(usize),
    /// Patterns for the two parts of a pair.
    Both(Box<NumberedPattern>, Box<NumberedPattern>),
}

/// Numbers of the names of an arena and of its patterns: two names have the same where their texts are the same.
pub struct Numbers {
    names: Vec<usize>,
    patterns: Vec<NumberedPattern>,
    // that of the empty name
    empty: usize,
    // what stands for a pattern that isn't there
    unnamed: NumberedPattern,
}

impl Drop for Numbers {
    fn drop(self) {
        let Numbers {
            names,
            patterns,
            empty: _,
            unnamed,
        } = self;
        drop(names);
        drop(patterns);
        drop(unnamed);
    }
}

impl Numbers {
    /// Those of an arena. The error is a want of memory.
    pub fn of(alloc: Global, exprs: &Exprs) -> Result<Numbers, AllocError>
        ensures { IfOk result (λ numbers. AreNumbers exprs.now numbers) }
    {
        let mut texts = IndexSet::new(alloc);
        let empty = number_of(&mut texts, "")?;
        let names = numbers_of(alloc, &mut texts, &exprs.names)?;
        let patterns = numbered_each(alloc, &mut texts, &exprs.patterns)?;
        Ok(Numbers {
            names,
            patterns,
            empty,
            unnamed: NumberedPattern::Unnamed,
        })
    }

    /// The number of a name.
    #[tactic(auto, unfolding(crate::specs::Numbered::number_at))]
    pub fn number(&self, name: NameId) -> usize
        ensures { result ≡ number_at self.now name }
    {
        match self.names.get(name.0) {
            Some(number) => *number,
            None => self.empty,
        }
    }

    /// A pattern, of which each name is its number.
    #[tactic(auto, unfolding(crate::specs::Numbered::numbered_pattern))]
    pub fn pattern(&self, pattern: PatternId) -> &NumberedPattern
        ensures { result.now ≡ numbered_pattern self.now pattern }
    {
        match self.patterns.get(pattern.0) {
            Some(numbered) => numbered,
            None => &self.unnamed,
        }
    }
}

// The number of a text.
fn number_of<'a>(texts: &mut IndexSet<&'a str>, text: &'a str) -> Result<usize, AllocError>
    ensures kept { OnOk result (ExtendsNumbers texts.old.keys texts.new.keys) }
    ensures given { IfOk result (λ number. IsNumber texts.new.keys text.now number) }
{
    let (number, _) = texts.insert_full(text)?;
    Ok(number)
}

// The numbers of texts.
fn numbers_of<'a>(
    alloc: Global,
    texts: &mut IndexSet<&'a str>,
    names: &'a [StoredName],
) -> Result<Vec<usize>, AllocError>
    ensures kept { OnOk result (ExtendsNumbers texts.old.keys texts.new.keys) }
    ensures given { IfOk result (λ numbers. AllZip (IsNumber texts.new.keys) names.now numbers.items) }
{
    let mut numbers = Vec::with_capacity(alloc, names.len())?;
    for name in names {
        let number = number_of(texts, name.text())?;
        numbers.push(number)?;
    }
    Ok(numbers)
}

// A pattern, of which each name is its number.
fn numbered<'a>(
    alloc: Global,
    texts: &mut IndexSet<&'a str>,
    pattern: &'a Pat,
) -> Result<NumberedPattern, AllocError>
    ensures kept { OnOk result (ExtendsNumbers texts.old.keys texts.new.keys) }
    ensures given { IfOk result (λ numbers. IsNumbered texts.new.keys (pattern_of pattern.now) numbers) }
{
    match pattern.form() {
        PatForm::Unnamed => Ok(NumberedPattern::Unnamed),
        PatForm::Name(name, _) => {
            let number = number_of(texts, name.as_str())?;
            Ok(NumberedPattern::Name(number))
        }
        PatForm::Both(first, second) => {
            let left = numbered(alloc, texts, first)?;
            let right = numbered(alloc, texts, second)?;
            let left = Box::new(alloc, left)?;
            let right = Box::new(alloc, right)?;
            Ok(NumberedPattern::Both(left, right))
        }
    }
}

// The same of each.
fn numbered_each<'a>(
    alloc: Global,
    texts: &mut IndexSet<&'a str>,
    patterns: &'a [Pat],
) -> Result<Vec<NumberedPattern>, AllocError>
    ensures kept { OnOk result (ExtendsNumbers texts.old.keys texts.new.keys) }
    ensures given { IfOk result (λ each. AllZip (λ p numbers. IsNumbered texts.new.keys (pattern_of p) numbers) patterns.now each.items) }
{
    let mut each = Vec::with_capacity(alloc, patterns.len())?;
    for pattern in patterns {
        let numbers = numbered(alloc, texts, pattern)?;
        each.push(numbers)?;
    }
    Ok(each)
}
