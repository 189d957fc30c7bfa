//! Where calls lead to.
ghost use Rattle.std.specs.Prelude.{◌≡◌, ◌<◌, ◌↔◌, All, IfOk, OnOk, IsTrue, false, length, MatchOption};
ghost use Rattle.sf_reach.specs.declared.graph.Call.{Call};
ghost use Rattle.sf_reach.specs.Endless.{IsFirstWith};
ghost use Rattle.sf_reach.specs.Graphs.{StaysWithin, LeadsOn, LeadElsewhere, Enters, calls_at};

use crate::graph::TemplateCalls;
use sf_refusal::Spot;
use std::alloc::{AllocError, Global};

/// Marks a template and puts it behind those that are left, if it is not marked.
fn enter(template: usize, seen: &mut [bool], left: &mut Vec<usize>) -> Result<(), AllocError>
    requires { template < length seen.old }
    ensures { OnOk result (Enters template seen.old seen.new left.old.items left.new.items) }
{
    if !seen[template] {
        seen[template] = true;
        left.push(template)?;
    }
    Ok(())
}

/// Whether calls lead from a template to another, where they don't from those that are seen. If not, all that they lead to
/// is seen.
fn leads(
    alloc: Global,
    graph: &[TemplateCalls],
    from: usize,
    to: usize,
    seen: &mut [bool],
) -> Result<bool, AllocError>
    requires here { from < length graph.now }
    requires long { length seen.old ≡ length graph.now }
    requires within { StaysWithin graph.now }
    requires elsewhere { LeadElsewhere graph.now to seen.old }
    ensures leads { IfOk result (λ r. IsTrue r ↔ LeadsOn graph.now from to) }
    ensures elsewhere { IfOk result (λ r. r ≡ false → LeadElsewhere graph.now to seen.new) }
{
    let mut left = Vec::new(alloc);
    enter(from, seen, &mut left)?;
    while let Some(template) = left.pop() {
        if template == to {
            return Ok(true);
        }
        for call in graph[template].items() {
            enter(call.callee, seen, &mut left)?;
        }
    }
    Ok(false)
}

/// Where the first call in a template stands from which calls lead back to the template.
pub(crate) fn first_call_back(
    alloc: Global,
    graph: &[TemplateCalls],
    template: usize,
) -> Result<Option<Spot>, AllocError>
    requires here { template < length graph.now }
    requires within { StaysWithin graph.now }
    ensures { let Back : Call → Type 0 = λ c. LeadsOn graph.now c.callee template in
        let calls = calls_at graph.now template in
        IfOk result (λ found. MatchOption found (All (λ c. ¬ Back c) calls) (λ s. (c : Call) × IsFirstWith Back calls c × (c.spot ≡ s))) }
{
    let mut seen = vec![in alloc; false; graph.len()]?;
    for call in graph[template].items() {
        if leads(alloc, graph, call.callee, template, &mut seen)? {
            return Ok(Some(call.spot));
        }
    }
    Ok(None)
}
