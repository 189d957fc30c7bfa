//! Functions that are made into one, as they are run: links one after another, each on the value in its place.
ghost use Rattle.std.specs.Prelude.{◌≡◌, true, false, IfOk, OnOk, option_to_list};
ghost use Rattle.sf_func.specs.Registries.{AnswersByName};
ghost use Rattle.sf_expr.specs.Expressions.{Function};
ghost use Rattle.sf_expr.specs.Evaluation.{Scope, apply};
ghost use Rattle.sf_code.specs.Arithmetic;
ghost use Rattle.sf_code.specs.CodeView.{code_of};
ghost use Rattle.sf_code.specs.declared.arithmetic.Calculation.{Calculation};
ghost use Rattle.sf_code.specs.Names.{scope_with};
ghost use Rattle.sf_code.specs.Worth.{IsClosureOf};
ghost use Rattle.sf_operator.specs.Answers.{EvaluatesAs};
ghost use Rattle.sf_value.specs.Values.{pair};
ghost use Rattle.sf_law.specs.Entries.{chain_over, IsCodedChain};
ghost use Rattle.sf_mean.specs.Formulas.{apply_chain};
ghost use Rattle.sf_term.specs.Trees.{on_side};
ghost use Rattle.sf_prim.specs.Links.{on_part, closure_worth, link_worth, links_worth, held, IsLinkOf, AreLinksOf, AddsLinks};

use sf_code::{Calculation, Closure, Names, OpenCode, apply_in_place, is_arithmetic};
use sf_func::Holds;
use sf_law::PlanChain;
use sf_operator::{EvalFault, number_in};
use sf_term::Side;
use sf_value::Value;
use std::alloc::{AllocError, Global};
use std::mem;
use std::rc::Rc;

/// A step of functions that are made into one.
#[derive(Drop)]
pub enum Link {
    /// A function without names around it.
    Function(Rc<OpenCode>),
    /// A function with names around it.
    Closed(Closure),
    /// A function that makes a number of a number by arithmetic alone.
    Number(Calculation),
    /// Links on one part of a pair, which stays where it is.
    OnSide(Side, Vec<Link>),
    /// The pair of a value with itself.
    Fork,
}

/// The links of functions with these names around them.
#[cycle(links)]
pub(crate) fn links_of<N: Names>(
    alloc: Global,
    chain: &PlanChain,
    names: &N,
) -> Result<Vec<Link>, AllocError>
    ensures { let x = N.expressions names.now in IsCodedChain x chain.now →
        IfOk result (λ links. (φ : AnswersByName) → AreLinksOf (scope_with (N.values names.now) φ) (chain_over x chain.now) links.items) }
{
    let mut links = Vec::new(alloc);
    add_links(alloc, chain, names, &mut links)?;
    Ok(links)
}

// The links of functions behind others.
#[cycle(links)]
fn add_links<N: Names>(
    alloc: Global,
    chain: &PlanChain,
    names: &N,
    links: &mut Vec<Link>,
) -> Result<(), AllocError>
    ensures { let x = N.expressions names.now in IsCodedChain x chain.now →
        OnOk result ((φ : AnswersByName) → AddsLinks (scope_with (N.values names.now) φ) (apply_chain (chain_over x chain.now)) links.old.items links.new.items) }
{
    match chain {
        PlanChain::Lone(_, code) => {
            let closure = Closure::new(alloc, code, names)?;
            links.push(function_link(closure))?;
            Ok(())
        }
        PlanChain::Chained(first, second) => {
            add_links(alloc, first, names, links)?;
            add_links(alloc, second, names, links)
        }
        PlanChain::OnSide(side, part) => add_on_side(alloc, *side, part, names, links),
        PlanChain::OnBoth(first, second) => {
            add_on_side(alloc, Side::First, first, names, links)?;
            add_on_side(alloc, Side::Second, second, names, links)
        }
        PlanChain::Fanned(first, second) => {
            links.push(Link::Fork)?;
            add_on_side(alloc, Side::First, first, names, links)?;
            add_on_side(alloc, Side::Second, second, names, links)
        }
    }
}

// The links of functions on one part of a pair, behind others.
#[cycle(links)]
fn add_on_side<N: Names>(
    alloc: Global,
    side: Side,
    part: &PlanChain,
    names: &N,
    links: &mut Vec<Link>,
) -> Result<(), AllocError>
    ensures { let x = N.expressions names.now in IsCodedChain x part.now →
        OnOk result ((φ : AnswersByName) → AddsLinks (scope_with (N.values names.now) φ) (apply_chain (on_side side (chain_over x part.now))) links.old.items links.new.items) }
{
    let inner = links_of(alloc, part, names)?;
    links.push(Link::OnSide(side, inner))?;
    Ok(())
}

// A function as a link: arithmetic alone hands its number on, and what has no name around it is run by its code alone.
fn function_link(closure: Closure) -> Link
    ensures made { (s : Scope) (f : Function) → IsClosureOf s f closure → IsLinkOf s (apply f) result }
    ensures number { Arithmetic.is_arithmetic (option_to_list closure.around) (code_of closure.function.value.code) ≡ true → (k : Calculation) × (result ≡ Link.Number k) }
    ensures bare { Arithmetic.is_arithmetic (option_to_list closure.around) (code_of closure.function.value.code) ≡ false → closure.around ≡ None → result ≡ Link.Function closure.function }
{
    if is_arithmetic(&closure.function.code, &closure.around) {
        return Link::Number(Calculation { closure });
    }
    match closure.around {
        None => Link::Function(closure.function),
        Some(_) => Link::Closed(closure),
    }
}

/// What links make of the input, one after another, in its place. The error is the first fault of their operations, or
/// `Memory`; after it the value may be any.
#[cycle(run)]
#[inline(never)]
pub(crate) fn run_links<R: Holds>(
    alloc: Global,
    links: &[Link],
    functions: &R,
    value: &mut Value,
) -> Result<(), EvalFault>
    ensures { EvaluatesAs (λ u. value.new) result (links_worth links.now (R.answers functions.now) value.old) }
{
    let mut number = number_in(value);
    for link in links {
        number = run_link(alloc, link, functions, number, value)?;
    }
    settle(number, value);
    Ok(())
}

// Puts a number in the place of a value, if there is one.
#[inline(always)]
fn settle(number: Option<i64>, value: &mut Value)
    ensures { value.new ≡ held number value.old }
{
    if let Some(number) = number {
        *value = Value::int(number);
    }
}

// What a link makes of a number, where there is one, or else of the value in its place. Where that is a number it is handed
// on: from one function that makes it by arithmetic to the next it takes no place.
#[cycle(run)]
#[inline(always)]
fn run_link<R: Holds>(
    alloc: Global,
    link: &Link,
    functions: &R,
    number: Option<i64>,
    value: &mut Value,
) -> Result<Option<i64>, EvalFault>
    ensures { EvaluatesAs (λ n. held n value.new) result (link_worth link.now (R.answers functions.now) (held number value.old)) }
{
    if let Link::Number(calculation) = link {
        if let Some(number) = number {
            return Ok(Some(calculation.calculate(number)?));
        }
    }
    settle(number, value);
    run_in_place(alloc, link, functions, value)?;
    Ok(number_in(value))
}

// What a link makes of the value, in its place: a call, so that the loop over links stays small.
#[cycle(run)]
#[inline(never)]
fn run_in_place<R: Holds>(
    alloc: Global,
    link: &Link,
    functions: &R,
    value: &mut Value,
) -> Result<(), EvalFault>
    ensures { EvaluatesAs (λ u. value.new) result (link_worth link.now (R.answers functions.now) value.old) }
{
    match link {
        Link::Function(code) => apply_in_place(alloc, &code.code, &None, functions, value),
        Link::Closed(closure) => apply_closure(alloc, closure, functions, value),
        Link::Number(calculation) => apply_closure(alloc, &calculation.closure, functions, value),
        Link::OnSide(side, links) => run_on_side(alloc, *side, links, functions, value),
        Link::Fork => Ok(fork(alloc, value)?),
    }
}

/// What a function makes of the value, over those of the names around it, in its place.
#[inline(never)]
pub(crate) fn apply_closure<R: Holds>(
    alloc: Global,
    closure: &Closure,
    functions: &R,
    value: &mut Value,
) -> Result<(), EvalFault>
    ensures { EvaluatesAs (λ u. value.new) result (closure_worth closure.now (R.answers functions.now) value.old) }
{
    apply_in_place(
        alloc,
        &closure.function.code,
        &closure.around,
        functions,
        value,
    )
}

// The pair of the value with itself, in its place.
#[inline(never)]
fn fork(alloc: Global, value: &mut Value) -> Result<(), AllocError>
    ensures { OnOk result (value.new ≡ pair value.old value.old) }
{
    let first = value.clone_in(alloc)?;
    let second = mem::replace(value, Value::int(0));
    *value = Value::pair(alloc, first, second)?;
    Ok(())
}

// What links on one part make of a pair, in its node, which is made its own.
#[cycle(run)]
#[inline(never)]
fn run_on_side<R: Holds>(
    alloc: Global,
    side: Side,
    links: &[Link],
    functions: &R,
    value: &mut Value,
) -> Result<(), EvalFault>
    ensures { EvaluatesAs (λ u. value.new) result (on_part side (links_worth links.now) (R.answers functions.now) value.old) }
{
    let mut node = mem::replace(value, Value::int(0)).into_pair(alloc)?;
    let halves = Rc::make_mut(&mut node)?;
    match side {
        Side::First => run_links(alloc, links, functions, &mut halves.first)?,
        Side::Second => run_links(alloc, links, functions, &mut halves.second)?,
    }
    *value = Value::of_pair(node);
    Ok(())
}
