//! Runs behind handles, for C and what can call C.
ghost use Rattle.std.specs.Prelude.{◌≡◌, ℕ, Bool, List, ◌++◌, Option, None, IsSome, length, min, take, drop};
ghost use Rattle.sf_term.specs.Trees.{Template};
ghost use Rattle.sf_mean.specs.Meaning.{Network};
ghost use Rattle.gezmulda_c.specs.Giving.{IsGiven};
ghost use Rattle.gezmulda_c.specs.Holding.{MakesRun, HoldsRun, HoldsFed, HoldsPlayed, HoldsEnded, IsTakenByHandle, waiting_held, status_held};

use crate::handle::Handle;
use crate::refusal::{give, refuse};
use sf_refusal::Refusal;
use sf_session::Session;
use std::alloc::Global;

/// Puts a run of the network that a text is into a handle that holds nothing. The network calls no stored functions. The run
/// says what probes record, or doesn't. The status is 0; or it is 5 where the text is refused or memory is wanting, and the
/// handle still holds nothing. What it is refused for, as `C5 BarePre 2:31`, is written as far as the room takes it. Answers
/// how many bytes that has.
#[unsafe(no_mangle)]
pub extern "C" fn gezmulda_make(
    alloc: Global,
    net: &[u8],
    probes: bool,
    handle: &mut Handle,
    out: &mut [u8],
    given: &mut usize,
) -> u8
    requires { handle.old.session ≡ None }
    ensures { (said : List ℕ) × MakesRun probes net.now result said handle.new.session × IsGiven said given.new out.new }
{
    match Session::new(alloc, net, probes) {
        Ok(session) => match Box::new(alloc, session) {
            Ok(run) => {
                handle.put(run);
                give(b"", out, given);
                0
            }
            Err(_) => refuse(alloc, Refusal::Memory, out, given),
        },
        Err(refusal) => refuse(alloc, refusal, out, given),
    }
}

/// Feeds a piece of its input to the run in a handle. What that gives waits there to be taken; a line is played once its line
/// feed is there. Says how many bytes wait. The status is 0 while the run goes on; once it has ended, it is that of its end,
/// and nothing changes it any more.
#[unsafe(no_mangle)]
pub extern "C" fn gezmulda_feed(
    alloc: Global,
    handle: &mut Handle,
    piece: &[u8],
    waiting: &mut usize,
) -> u8
    requires { HoldsRun handle.old.session }
    ensures feeds { (probes : Bool) (n : Network) (m : Template) (fed given : List ℕ)
        → HoldsFed probes n m fed given handle.old.session → HoldsFed probes n m (fed ++ piece.now) given handle.new.session }
    ensures live { HoldsRun handle.new.session }
    ensures ended { HoldsEnded handle.old.session → handle.new.session ≡ handle.old.session }
    ensures waiting { waiting.new ≡ length (waiting_held handle.new.session) }
    ensures status { result ≡ status_held handle.new.session }
{
    let mut run = handle.take(alloc);
    run.feed(piece);
    *waiting = run.waiting();
    let status = run.status();
    handle.put(run);
    status
}

/// Ends the input of the run in a handle: its last line may have no line feed. What that gives waits there to be taken. Says how
/// many bytes wait. The status is that of the end of the run, and nothing changes the run any more.
#[unsafe(no_mangle)]
pub extern "C" fn gezmulda_finish(alloc: Global, handle: &mut Handle, waiting: &mut usize) -> u8
    requires { HoldsRun handle.old.session }
    ensures finishes { (probes : Bool) (n : Network) (m : Template) (fed given : List ℕ)
        → HoldsFed probes n m fed given handle.old.session → HoldsPlayed probes n m fed given handle.new.session }
    ensures live { HoldsRun handle.new.session }
    ensures ended { HoldsEnded handle.old.session → handle.new.session ≡ handle.old.session }
    ensures waiting { waiting.new ≡ length (waiting_held handle.new.session) }
    ensures status { result ≡ status_held handle.new.session }
{
    let mut run = handle.take(alloc);
    run.finish();
    *waiting = run.waiting();
    let status = run.status();
    handle.put(run);
    status
}

/// Takes what waits in the run of a handle: as much of it is written as the room takes, and no longer waits. Answers how many
/// bytes that is.
#[unsafe(no_mangle)]
pub extern "C" fn gezmulda_take(alloc: Global, handle: &mut Handle, room: &mut [u8]) -> usize
    requires { IsSome handle.old.session }
    ensures taken { IsTakenByHandle handle.old.session result room.new handle.new.session }
    ensures fed { (probes : Bool) (n : Network) (m : Template) (fed given : List ℕ)
        → HoldsFed probes n m fed given handle.old.session → HoldsFed probes n m fed (given ++ take result room.new) handle.new.session }
    ensures played { (probes : Bool) (n : Network) (m : Template) (whole given : List ℕ)
        → HoldsPlayed probes n m whole given handle.old.session → HoldsPlayed probes n m whole (given ++ take result room.new) handle.new.session }
    ensures live { HoldsRun handle.old.session → HoldsRun handle.new.session }
{
    let mut run = handle.take(alloc);
    let taken = run.take(room);
    handle.put(run);
    taken
}

/// Lets the run in a handle go, with all its memory. The handle holds nothing then.
#[unsafe(no_mangle)]
pub extern "C" fn gezmulda_free(alloc: Global, handle: &mut Handle)
    requires { IsSome handle.old.session }
    ensures { handle.new.session ≡ None }
{
    drop(handle.take(alloc));
}
