//! The player.
ghost use Rattle.std.specs.Prelude.{◌≡◌, ◌≢◌, ℕ, ◌+◌, ◌*◌, ◌<◌, ◌≤◌, ◌^◌, ◌-◌, length, Bool, List, [], IfOk, take};

use crate::counted::Counted;
use crate::end::PlayEnd;
use crate::gather::gather;
use crate::save_refusal::refusal_of;
use crate::stop::Stop;
use sf_engine::{Engine, Sample};
use sf_func::Holds;
use sf_lines::{Command, Cut, Cutter, LineRefusal, read_line};
use sf_value::Fault;
use std::alloc::{AllocError, Global};
use std::io::Write;

/// A run of a network over an input. What is to be written is gathered.
#[derive(Drop)]
pub struct Player<F: Holds> {
    alloc: Global,
    cutter: Cutter,
    engine: Engine<F>,
    taken: u32,
    probes: bool,
    out: Vec<u8>,
    ghost few: { taken ≤ 1000000 },
}

impl<F: Holds + Drop> Player<F> {
    ghost use Rattle.sf_term.specs.Trees.{Template};
    ghost use Rattle.sf_mean.specs.Lives.{time};
    ghost use Rattle.sf_mean.specs.Meaning.{Network};
    ghost use Rattle.sf_engine.specs.Running.{Runs};
    ghost use Rattle.sf_engine.specs.Sampling.{Sampled};
    ghost use Rattle.sf_lines.specs.Asking.{Asked};
    ghost use Rattle.sf_lines.specs.Cutting.{line_cut};
    ghost use Rattle.sf_player.specs.Scripts.{Moment, life_after, IsSample, Asks};
    ghost use Rattle.sf_player.specs.Counting.{inner_of, failures_of, MayCountWrites};
    ghost use Rattle.sf_player.specs.Playing.{SavesLastAtMost, IsAt, AwaitsLine, PlaysLine, Played, IsPlaying, PlaysPart, Feeds, EndsInput, WritesOut, gathered, IsForgotten};

    /// A run at its start, which says what probes record, or doesn't.
    pub fn new(alloc: Global, engine: Engine<F>, probes: bool) -> Result<Player<F>, AllocError>
        ensures { IfOk result (λ p. (n : Network) (m : Template) → Runs engine n m [] []
            → Played probes n m [] [] p × (p.out.items ≡ [])) }
    {
        let cutter = Cutter::new(alloc)?;
        Ok(Player {
            alloc,
            cutter,
            engine,
            taken: 0,
            probes,
            out: Vec::new(alloc),
        })
    }

    /// Plays a piece of the input.
    pub fn feed(&mut self, piece: &[u8]) -> Option<Stop>
        requires { IsPlaying self.old }
        ensures { (probes : Bool) (n : Network) (m : Template) (read written : List ℕ)
            → Played probes n m read written self.old
            → Feeds probes n m read written self.old piece.now result self.new }
    {
        let mut at = 0;
        while at < piece.len() {
            match self.advance(&piece[at..]) {
                Ok(used) => at += used,
                Err(stop) => return Some(stop),
            }
        }
        None
    }

    /// What is gathered.
    pub fn gathered(&self) -> &[u8]
        ensures { result.now ≡ gathered self.now }
    {
        self.out.as_slice()
    }

    /// Forgets so many of the first bytes that are gathered.
    pub fn forget(&mut self, count: usize)
        requires { count ≤ length (gathered self.old) }
        ensures { IsForgotten count self.old self.new }
    {
        let len = self.out.len();
        self.out.copy_within(count..len, 0);
        self.out.truncate(len - count);
    }

    /// Plays what is left at the end of the input. How the run stops, if it doesn't end with its input.
    pub fn finish(&mut self) -> Option<Stop>
        requires { IsPlaying self.old }
        ensures { (probes : Bool) (n : Network) (m : Template) (read written : List ℕ)
            → Played probes n m read written self.old → EndsInput probes n m read written result self.new }
    {
        match self.cutter.finish() {
            Ok(Cut::Line(used)) => self.play_line(Cut::Line(used)),
            Ok(Cut::Part) => None,
            Ok(Cut::Whole(_)) | Err(_) => unreachable!(),
        }
    }

    /// Plays a line of the piece, if it completes one, or else its bytes. How many bytes were played.
    fn advance(&mut self, piece: &[u8]) -> Result<usize, Stop>
        requires { IsPlaying self.old }
        ensures within { IfOk result (λ used. used ≤ length piece.now) }
        ensures some { IfOk result (λ used. length piece.now ≢ 0 → 0 < used) }
        ensures advances { (probes : Bool) (n : Network) (m : Template) (read written : List ℕ)
            → Played probes n m read written self.old
            → PlaysPart probes n m read written self.old piece.now result self.new }
    {
        match self.cutter.take(piece) {
            Ok(Cut::Whole(line)) => match self.play_line(Cut::Whole(line)) {
                None => Ok(line.len() + 1),
                Some(stop) => Err(stop),
            },
            Ok(Cut::Line(used)) => match self.play_line(Cut::Line(used)) {
                None => Ok(used),
                Some(stop) => Err(stop),
            },
            Ok(Cut::Part) => Ok(piece.len()),
            Err(refusal) => Err(self.refuse(refusal)),
        }
    }

    /// Plays the line that the cutter completed.
    #[inline(always)]
    fn play_line(&mut self, cut: Cut<'_>) -> Option<Stop>
        requires { AwaitsLine self.old cut }
        ensures { (n : Network) (m : Template) (now : Moment) → IsAt n m self.old now
            → PlaysLine n m now (line_cut self.old.cutter cut.entry) self.old result self.new }
    {
        let started = self.engine.is_started();
        let line = self.cutter.line(cut);
        match read_line(self.alloc, line, started, self.engine.input()) {
            Ok(Command::Nothing) => {
                self.taken += 1;
                None
            }
            Ok(Command::Start(value)) => {
                let sampled = self.engine.first_sample(value);
                self.say(0, &sampled)
            }
            Ok(Command::Step { dt, input }) => {
                let time = self.engine.time() + dt;
                let sampled = self.engine.next_sample(dt, input);
                self.say(time, &sampled)
            }
            Ok(Command::Save(name)) => match self.engine.save(name) {
                Ok(()) => {
                    self.taken += 1;
                    None
                }
                Err(error) => Some(self.refuse(refusal_of(error))),
            },
            Ok(Command::Back(name)) => match self.engine.back(name) {
                Ok(()) => {
                    self.taken += 1;
                    None
                }
                Err(error) => Some(self.refuse(refusal_of(error))),
            },
            Err(refusal) => Some(self.refuse(refusal)),
        }
    }

    /// Gathers the lines of a sample at a time.
    #[inline(always)]
    fn say(&mut self, sample_time: u64, sampled: &Result<Sample, Fault>) -> Option<Stop>
        requires { self.old.taken < 1000000 }
        ensures { (n : Network) (m : Template) (now : Moment) (line : List ℕ) (a : Asked)
            → Asks n m now line a → IsSample a
            → Sampled n m (life_after a now.lived) now.saved sampled.now self.old.engine
            → sample_time ≡ time (life_after a now.lived) → sample_time ≤ 3600000 * (now.taken + 1)
            → SavesLastAtMost now.taken now.saved → self.old.taken ≡ now.taken → self.old.probes ≡ now.probes → PlaysLine n m now line self.old result self.new }
    {
        match sampled {
            Ok(sample) => match gather(self.probes, sample, &mut self.out) {
                Ok(()) => {
                    self.taken += 1;
                    None
                }
                Err(_) => Some(Stop::Faulted(sample_time, Fault::Memory)),
            },
            Err(fault) => Some(Stop::Faulted(sample_time, *fault)),
        }
    }

    /// The refusal of the next line.
    fn refuse(&self, refusal: LineRefusal) -> Stop
        ensures { result ≡ Stop.Refused (self.now.taken + 1) refusal }
    {
        Stop::Refused(u64::from(self.taken) + 1, refusal)
    }

    /// Writes what is gathered, and then the line of a stop. How the run ends, if it does.
    pub(crate) fn write_out<W: Write>(
        &mut self,
        stop: Option<Stop>,
        writer: &mut Counted<W>,
    ) -> Option<PlayEnd>
        requires { failures_of writer.old < 2 ^ 64 - 1 }
        ensures writes { WritesOut self.old (W.contents (inner_of writer.old))
            (W.contents (inner_of writer.new)) stop result self.new }
        ensures failures { MayCountWrites result (failures_of writer.old) (failures_of writer.new) }
    {
        if !writer.put(self.out.as_slice()) {
            return Some(PlayEnd::WriteFault);
        }
        self.out.clear();
        match stop {
            None => None,
            Some(stop) => {
                if !writer.put(stop.line().as_bytes()) {
                    return Some(PlayEnd::WriteFault);
                }
                Some(stop.end())
            }
        }
    }
}
