//! Says what a network is refused for, for C and what can call C.
ghost use Rattle.std.specs.Prelude.{◌≡◌, ℕ, List};
ghost use Rattle.sf_refusal.specs.Refusals.{refusal_text};
ghost use Rattle.gezmulda_c.specs.Giving.{IsGiven, IsAnswered, MaySay};

use sf_accept::check_text;
use sf_func::Registry;
use sf_refusal::Refusal;
use std::alloc::Global;

/// Writes as much of what is said as the room takes, and how much is said.
pub(crate) fn give(said: &[u8], out: &mut [u8], given: &mut usize)
    ensures { IsGiven said.now given.new out.new }
{
    *given = said.len();
    let most = said.len().min(out.len());
    out[..most].copy_from_slice(&said[..most]);
}

/// Gives what a text is refused for, or `Memory` where memory is wanting for its words. The status of a refusal.
pub(crate) fn refuse(alloc: Global, refusal: Refusal, out: &mut [u8], given: &mut usize) -> u8
    ensures status { result ≡ 5 }
    ensures given { (r : Refusal) × MaySay refusal r × IsGiven (refusal_text r) given.new out.new }
{
    match format!(in alloc; "{refusal}") {
        Ok(text) => give(text.as_bytes(), out, given),
        Err(_) => give(b"Memory", out, given),
    }
    5
}

/// Whether a text is a network that is accepted without stored functions: the status is 0, or 5 where it is refused. What
/// it is refused for, as `C5 BarePre 2:31`, is written as far as the room takes it. Answers how many bytes that has.
#[unsafe(no_mangle)]
pub extern "C" fn gezmulda_check(alloc: Global, net: &[u8], out: &mut [u8], given: &mut usize) -> u8
    ensures { (said : List ℕ) × IsAnswered net.now result said × IsGiven said given.new out.new }
{
    let functions = Registry::new(alloc);
    match check_text(alloc, net, &functions) {
        Ok(()) => {
            give(b"", out, given);
            0
        }
        Err(refusal) => refuse(alloc, refusal, out, given),
    }
}
