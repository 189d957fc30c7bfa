//! Sessions.
ghost use Rattle.std.specs.Prelude.{◌≡◌, ℕ, ◌<◌, ◌≤◌, ◌^◌, List, [], ◌++◌, length, take, drop, min, Bool, IfOk, IfErr};
ghost use Rattle.sf_refusal.specs.Refusals.{OrMemory};
ghost use Rattle.sf_term.specs.Trees.{Template};
ghost use Rattle.sf_mean.specs.Meaning.{Network};
ghost use Rattle.sf_accept.specs.Refusals.{IsRefusedFor};
ghost use Rattle.sf_player.specs.Playing.{IsForgotten, gathered};
ghost use Rattle.sf_session.specs.Phases.{phase_line};

use crate::nothing::NoFunctions;
use crate::phase::Phase;
use crate::room::{copy_both, copy_front};
use sf_accept::read_accepted;
use sf_engine::{Engine, Mode};
use sf_func::Registry;
use sf_player::Player;
use sf_refusal::Refusal;
use std::alloc::Global;

/// A run of a network that calls no stored functions. It is fed its input piece by piece, and keeps what that gives until it
/// is taken.
#[derive(Drop)]
pub struct Session {
    player: Player<NoFunctions>,
    phase: Phase,
    // how much was taken of what the player has gathered, and of the line that says how the run has stopped
    handed: usize,
    told: usize,
    ghost of_gathered: { handed ≤ length (gathered player) },
    ghost of_end: { told ≤ length (phase_line phase) },
}

impl Session {
    ghost use Rattle.sf_session.specs.Feeding.{IsStarted, IsLive, IsFed, IsPlayed, HasEnded, IsTaken, session_waiting, session_status};

    /// A session at its start, of the network that a text is. It says what probes record, or doesn't. It refuses what
    /// `read_accepted` refuses where there are no functions; `Memory` says nothing of the text.
    pub fn new(alloc: Global, net: &[u8], probes: bool) -> Result<Session, Refusal>
        ensures started { IfOk result (IsStarted probes net.now) }
        ensures live { IfOk result IsLive }
        ensures refused { IfErr result (OrMemory (IsRefusedFor [] net.now)) }
    {
        let functions = Registry::new(alloc);
        let checked = read_accepted(alloc, net, &functions)?;
        let Ok(engine) = Engine::new(alloc, checked, NoFunctions, Mode::Optimised) else {
            return Err(Refusal::Memory);
        };
        match Player::new(alloc, engine, probes) {
            Ok(player) => Ok(Session {
                player,
                phase: Phase::Running,
                handed: 0,
                told: 0,
            }),
            Err(_) => Err(Refusal::Memory),
        }
    }

    /// Plays a piece of the input, up to a line that ends the run. From then on it changes nothing.
    pub fn feed(&mut self, piece: &[u8])
        requires { IsLive self.old }
        ensures feeds { (probes : Bool) (n : Network) (m : Template) (fed given : List ℕ)
            → IsFed probes n m fed given self.old → IsFed probes n m (fed ++ piece.now) given self.new }
        ensures live { IsLive self.new }
        ensures ended { HasEnded self.old → self.new ≡ self.old }
    {
        let Phase::Running = self.phase else {
            return;
        };
        self.forget_taken();
        if let Some(stop) = self.player.feed(piece) {
            self.phase = Phase::Stopped(stop);
        }
    }

    /// Plays what is left at the end of the input: its last line may have no line feed. From then on nothing changes the run.
    pub fn finish(&mut self)
        requires { IsLive self.old }
        ensures finishes { (probes : Bool) (n : Network) (m : Template) (fed given : List ℕ)
            → IsFed probes n m fed given self.old → IsPlayed probes n m fed given self.new }
        ensures live { IsLive self.new }
        ensures ended { HasEnded self.old → self.new ≡ self.old }
    {
        let Phase::Running = self.phase else {
            return;
        };
        self.forget_taken();
        self.phase = match self.player.finish() {
            Some(stop) => Phase::Stopped(stop),
            None => Phase::Finished,
        };
    }

    /// How many bytes wait to be taken.
    pub fn waiting(&self) -> usize
        ensures { result ≡ length (session_waiting self.now) }
    {
        let of_gathered = self.player.gathered().len() - self.handed;
        match self.phase {
            Phase::Stopped(stop) => of_gathered + (stop.line().as_bytes().len() - self.told),
            Phase::Running | Phase::Finished => of_gathered,
        }
    }

    /// Writes as much of what waits as the room takes, and lets it go. How many bytes that is.
    pub fn take(&mut self, room: &mut [u8]) -> usize
        ensures taken { IsTaken self.old result room.new self.new }
        ensures fed { (probes : Bool) (n : Network) (m : Template) (fed given : List ℕ)
            → IsFed probes n m fed given self.old → IsFed probes n m fed (given ++ take result room.new) self.new }
        ensures played { (probes : Bool) (n : Network) (m : Template) (whole given : List ℕ)
            → IsPlayed probes n m whole given self.old → IsPlayed probes n m whole (given ++ take result room.new) self.new }
        ensures live { IsLive self.old → IsLive self.new }
    {
        let taken = self.copy_out(room);
        let of_gathered = taken.min(self.player.gathered().len() - self.handed);
        self.handed += of_gathered;
        self.told += taken - of_gathered;
        taken
    }

    /// The status of the run: 0 while it goes on, or the one with which it has ended.
    pub fn status(&self) -> u8
        ensures { result ≡ session_status self.now }
    {
        match self.phase {
            Phase::Stopped(stop) => stop.end().status(),
            Phase::Running | Phase::Finished => 0,
        }
    }

    /// Writes as much of what waits as the room takes. How many bytes that is.
    fn copy_out(&self, room: &mut [u8]) -> usize
        ensures count { result ≡ min (length (session_waiting self.now)) (length room.new) }
        ensures front { take result room.new ≡ take result (session_waiting self.now) }
        ensures end { length (phase_line self.now.phase) < 2 ^ 63 }
    {
        let gathered = &self.player.gathered()[self.handed..];
        match self.phase {
            Phase::Stopped(stop) => {
                let line = stop.line();
                copy_both(gathered, &line.as_bytes()[self.told..], room)
            }
            Phase::Running | Phase::Finished => copy_front(gathered, room),
        }
    }

    /// Has the player forget what was taken.
    fn forget_taken(&mut self)
        ensures forgotten { IsForgotten self.old.handed self.old.player self.new.player }
        ensures handed { self.new.handed ≡ 0 }
        ensures told { self.new.told ≡ self.old.told }
        ensures phase { self.new.phase ≡ self.old.phase }
    {
        self.player.forget(self.handed);
        self.handed = 0;
    }
}
