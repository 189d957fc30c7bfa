//! The names, the constants, the patterns and the functions that an arena of expressions stores.
ghost use Rattle.std.specs.Prelude.{◌≡◌, IfOk, string_bytes};

use crate::constant::Constant;
use crate::exprs::ExprId;
use crate::pat::Pat;
use std::alloc::{AllocError, Global};
use std::marker::Model;

/// A name as it stands in the text.
#[derive(Drop)]
pub(crate) struct StoredName {
    text: String,
}

impl Model for StoredName {
    ghost use Rattle.std.specs.Prelude.{ℕ, List, string_bytes};

    ghost Value = { List ℕ };

    ghost view = { λ a. string_bytes a.text };
}

impl StoredName {
    /// This name.
    pub(crate) fn new(text: String) -> StoredName
        ensures { result ≡ string_bytes text }
    {
        StoredName { text }
    }

    /// Its text.
    pub(crate) fn text(&self) -> &str
        ensures { result.now ≡ self.now }
    {
        self.text.as_str()
    }

    fn clone_in(&self, alloc: Global) -> Result<StoredName, AllocError>
        ensures { IfOk result (λ copy. copy ≡ self.now) }
    {
        Ok(StoredName::new(String::from_str(alloc, self.text())?))
    }
}

/// A pattern and the expression that it binds names for.
#[derive(Drop)]
pub(crate) struct StoredFunction {
    pub(crate) pattern: Pat,
    pub(crate) body: ExprId,
}

impl StoredFunction {
    fn clone_in(&self, alloc: Global) -> Result<StoredFunction, AllocError>
        ensures { IfOk result (λ copy. copy ≡ self.now) }
    {
        let pattern = self.pattern.clone_in(alloc)?;
        Ok(StoredFunction {
            pattern,
            body: self.body,
        })
    }
}

/// Copies of names, in order.
pub(crate) fn clone_names(
    alloc: Global,
    names: &[StoredName],
) -> Result<Vec<StoredName>, AllocError>
    ensures { IfOk result (λ copies. copies.items ≡ names.now) }
{
    let mut copies = Vec::new(alloc);
    for name in names {
        copies.push(name.clone_in(alloc)?)?;
    }
    Ok(copies)
}

/// Copies of constants, in order.
pub(crate) fn clone_constants(
    alloc: Global,
    constants: &[Constant],
) -> Result<Vec<Constant>, AllocError>
    ensures { IfOk result (λ copies. copies.items ≡ constants.now) }
{
    let mut copies = Vec::new(alloc);
    for constant in constants {
        copies.push(constant.clone_in(alloc)?)?;
    }
    Ok(copies)
}

/// Copies of patterns, in order.
pub(crate) fn clone_patterns(alloc: Global, patterns: &[Pat]) -> Result<Vec<Pat>, AllocError>
    ensures { IfOk result (λ copies. copies.items ≡ patterns.now) }
{
    let mut copies = Vec::new(alloc);
    for pattern in patterns {
        copies.push(pattern.clone_in(alloc)?)?;
    }
    Ok(copies)
}

/// Copies of functions, in order.
pub(crate) fn clone_functions(
    alloc: Global,
    functions: &[StoredFunction],
) -> Result<Vec<StoredFunction>, AllocError>
    ensures { IfOk result (λ copies. copies.items ≡ functions.now) }
{
    let mut copies = Vec::new(alloc);
    for function in functions {
        copies.push(function.clone_in(alloc)?)?;
    }
    Ok(copies)
}
