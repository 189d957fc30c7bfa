//! Templates from which no calls lead on for ever.
ghost use Rattle.std.specs.Prelude.{◌≡◌, ◌<◌, ◌↔◌, All, IfOk, IsTrue, true, length};
ghost use Rattle.sf_reach.specs.Graphs.{StaysWithin, AreSettled, marked};

use crate::graph::{Call, TemplateCalls};
use std::alloc::{AllocError, Global};

/// Whether all calls are of templates that are settled.
fn are_settled(calls: &[Call], settled: &[bool]) -> bool
    requires { All (λ c. c.callee < length settled.now) calls.now }
    ensures { IsTrue result ↔ All (λ c. marked settled.now c.callee ≡ true) calls.now }
{
    calls.iter().all(|call| settled[call.callee])
}

/// Settles a template where all that it calls is settled. Answers whether that is new.
fn settle(graph: &[TemplateCalls], template: usize, settled: &mut [bool]) -> bool
    requires here { template < length graph.now }
    requires long { length settled.old ≡ length graph.now }
    requires within { StaysWithin graph.now }
    requires settled { AreSettled graph.now settled.old }
    ensures { AreSettled graph.now settled.new }
{
    let more = !settled[template] && are_settled(graph[template].items(), settled);
    if more {
        settled[template] = true;
    }
    more
}

/// Settles templates, from the first to the last and back. Answers whether there are more than before.
fn settle_more(graph: &[TemplateCalls], settled: &mut [bool]) -> bool
    requires long { length settled.old ≡ length graph.now }
    requires within { StaysWithin graph.now }
    requires settled { AreSettled graph.now settled.old }
    ensures { AreSettled graph.now settled.new }
{
    let mut more = false;
    for template in 0..graph.len() {
        more |= settle(graph, template, settled);
    }
    for template in (0..graph.len()).rev() {
        more |= settle(graph, template, settled);
    }
    more
}

/// Templates from which calls lead on for a while only: all, where none reaches itself.
pub(crate) fn settled(alloc: Global, graph: &[TemplateCalls]) -> Result<Vec<bool>, AllocError>
    requires { StaysWithin graph.now }
    ensures long { IfOk result (λ settled. length settled.items ≡ length graph.now) }
    ensures settled { IfOk result (λ settled. AreSettled graph.now settled.items) }
{
    let mut settled = vec![in alloc; false; graph.len()]?;
    for _ in 0..graph.len() {
        if !settle_more(graph, &mut settled) {
            break;
        }
    }
    Ok(settled)
}
