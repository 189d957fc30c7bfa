//! Networks from their texts.
ghost use Rattle.std.specs.Prelude.{OnOk, IfOk, IfErr};
ghost use Rattle.sf_refusal.specs.Refusals.{OrMemory};
ghost use Rattle.sf_term.specs.Trees.{Templates};
ghost use Rattle.sf_term.specs.Arena.{templates_of};
ghost use Rattle.sf_check.specs.Accepting.{accepted_program};
ghost use Rattle.sf_accept.specs.Refusals.{IsAcceptedText, IsNoNetwork, IsRefusedFor};
ghost use Rattle.sf_accept.specs.Dumps.{IsDump};

use sf_check::{Checked, check};
use sf_func::{Holds, Registry};
use sf_print::write_network;
use sf_refusal::Refusal;
use sf_text::read_network;
use std::alloc::Global;

/// The network that a text is, where it is accepted with these functions. Else it is refused for the first rule that its
/// bytes break: one of a text, as `sf_text::read_network` answers it, or one of a network, as `sf_check::check` does.
/// `Memory` says nothing of the text.
pub fn read_accepted(alloc: Global, net: &[u8], functions: &Registry) -> Result<Checked, Refusal>
    ensures accepted { IfOk result (λ checked. IsAcceptedText (⟦<Registry as Holds>⟧.types functions.now) net.now (templates_of (accepted_program checked))) }
    ensures refused { IfErr result (OrMemory (IsRefusedFor (⟦<Registry as Holds>⟧.types functions.now) net.now)) }
{
    let program = read_network(alloc, net)?;
    match check(alloc, program, functions) {
        Ok(checked) => Ok(checked),
        Err((refusal, _)) => Err(refusal),
    }
}

/// Whether a text is a network that is accepted with these functions: it is refused as `read_accepted` refuses it.
pub fn check_text(alloc: Global, net: &[u8], functions: &Registry) -> Result<(), Refusal>
    ensures accepted { OnOk result ((p : Templates) × IsAcceptedText (⟦<Registry as Holds>⟧.types functions.now) net.now p) }
    ensures refused { IfErr result (OrMemory (IsRefusedFor (⟦<Registry as Holds>⟧.types functions.now) net.now)) }
{
    let checked = read_accepted(alloc, net, functions)?;
    drop(checked);
    Ok(())
}

/// The canonical text of the network that a text is, whether it would be accepted or not. Refused is only what is no text
/// of a network, for the first rule that it breaks as one. `Memory` says nothing of the text.
pub fn dump_text(alloc: Global, net: &[u8]) -> Result<Vec<u8>, Refusal>
    ensures dumped { IfOk result (λ text. (p : Templates) × IsDump net.now p text.items) }
    ensures refused { IfErr result (OrMemory (IsNoNetwork net.now)) }
{
    let program = read_network(alloc, net)?;
    Ok(write_network(alloc, &program)?)
}
