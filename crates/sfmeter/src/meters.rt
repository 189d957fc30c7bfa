//! The two plans of a network, side by side.
ghost use Rattle.std.specs.Prelude.{◌≡◌, ◌≤◌, [], ◌∷◌, IfOk};
ghost use Rattle.sf_func.specs.Registries.{AnswersByName};
ghost use Rattle.sf_law.specs.declared.plan.Plan as plan_forms;
ghost use Rattle.sf_mean.specs.Lives.{step, Life};
ghost use Rattle.sfmeter.specs.Abreast.{HaveComeTo, AreAbreast};

use crate::stop::Stop;
use indexmap::IndexMap;
use sf_check::Checked;
use sf_func::{Holds, Registry};
use sf_law::Plan;
use sf_lines::{Command, LineRefusal, read_line};
use sf_optimise::{optimise, plain};
use sf_state::State;
use sf_step::{Meter, step};
use sf_value::{Fault, Ty, Value};
use std::alloc::{AllocError, Global};

const MOST_SAVES: usize = 64;

/// How many nodes a sample enters.
#[derive(Clone, Copy, Debug, PartialEq, Eq)]
pub(crate) struct Counts {
    /// As the network is written.
    pub(crate) plain: u64,
    /// As it is rewritten.
    pub(crate) rewritten: u64,
}

/// What the two plans have come to, and the last input.
#[derive(Drop)]
struct Moment {
    plain: State,
    rewritten: State,
    last: Option<Value>,
}

impl Moment {
    /// The same, over the same nodes of the states.
    fn share(&self, alloc: Global) -> Result<Moment, AllocError>
        ensures { IfOk result (λ same. (φ : AnswersByName) (p q : plan_forms.Plan) (L : Life) → HaveComeTo φ p q self.now L → HaveComeTo φ p q same L) }
    {
        Ok(Moment {
            plain: self.plain.share(alloc)?,
            rewritten: self.rewritten.share(alloc)?,
            last: self.repeated(alloc)?,
        })
    }

    /// A copy of the last input, if there was one.
    fn repeated(&self, alloc: Global) -> Result<Option<Value>, AllocError> {
        match &self.last {
            Some(last) => Ok(Some(last.clone_in(alloc)?)),
            None => Ok(None),
        }
    }
}

/// The plan of a network as it is written and the rewritten one, which have come through the same samples.
#[derive(Drop)]
pub(crate) struct Meters {
    alloc: Global,
    functions: Registry,
    input: Ty,
    plain: Plan,
    rewritten: Plan,
    now: Moment,
    saves: IndexMap<String, Moment>,
}

impl Meters {
    /// An accepted network before its first sample.
    pub(crate) fn new(
        alloc: Global,
        checked: &Checked,
        functions: Registry,
    ) -> Result<Meters, AllocError>
        ensures { IfOk result (λ m. AreAbreast (⟦<Registry as Holds>⟧.answers functions) m []) }
    {
        let input = checked.input().clone_in(alloc)?;
        let written = plain(alloc, checked)?;
        let rewritten = optimise(alloc, checked)?;
        let now = Moment {
            plain: State::unborn(written.main()),
            rewritten: State::unborn(rewritten.main()),
            last: None,
        };
        Ok(Meters {
            alloc,
            functions,
            input,
            plain: written,
            rewritten,
            now,
            saves: IndexMap::new(alloc),
        })
    }

    /// Plays a line of the input. There are counts where it is a sample.
    pub(crate) fn play(&mut self, line: &[u8]) -> Result<Option<Counts>, Stop> {
        match read_line(self.alloc, line, self.now.last.is_some(), &self.input)? {
            Command::Nothing => Ok(None),
            Command::Start(input) => Ok(Some(self.sample(0, input)?)),
            Command::Step { dt, input } => {
                let input = match input {
                    Some(given) => given,
                    None => self.last()?,
                };
                Ok(Some(self.sample(dt, input)?))
            }
            Command::Save(name) => {
                self.save(name)?;
                Ok(None)
            }
            Command::Back(name) => {
                self.back(name)?;
                Ok(None)
            }
        }
    }

    /// The next sample, `dt` milliseconds after the one before. After an error there is no further one.
    fn sample(&mut self, dt: u64, input: Value) -> Result<Counts, Fault>
        // Rewritten it enters no more nodes.
        ensures { (L : Life) → AreAbreast (⟦<Registry as Holds>⟧.answers self.old.functions) self.old L →
            IfOk result (λ counts. (counts.rewritten ≤ counts.plain) × AreAbreast (⟦<Registry as Holds>⟧.answers self.new.functions) self.new (step dt input ∷ L)) }
    {
        let alloc = self.alloc;
        let again = input.clone_in(alloc)?;
        let last = input.clone_in(alloc)?;
        let mut meter = Meter::new(alloc);
        let plain = &mut self.now.plain;
        step(
            alloc,
            plain,
            &self.plain,
            &self.functions,
            dt,
            input,
            &mut meter,
        )?;
        let plain = meter.entered();
        let rewritten = &mut self.now.rewritten;
        step(
            alloc,
            rewritten,
            &self.rewritten,
            &self.functions,
            dt,
            again,
            &mut meter,
        )?;
        let rewritten = meter.entered();
        self.now.last = Some(last);
        Ok(Counts { plain, rewritten })
    }

    /// A copy of the last input.
    fn last(&self) -> Result<Value, Stop> {
        match self.now.repeated(self.alloc)? {
            Some(last) => Ok(last),
            None => Err(Stop::Line(LineRefusal::NotStarted)),
        }
    }

    /// Keeps what the plans have come to under a name.
    fn save(&mut self, name: &str) -> Result<(), Stop> {
        if !self.saves.contains_key(name) && self.saves.len() >= MOST_SAVES {
            return Err(Stop::Line(LineRefusal::TooManySaves));
        }
        let key = String::from_str(self.alloc, name)?;
        let moment = self.now.share(self.alloc)?;
        self.saves.insert(key, moment)?;
        Ok(())
    }

    /// Returns to what is kept under a name.
    fn back(&mut self, name: &str) -> Result<(), Stop> {
        let Some(moment) = self.saves.get(name) else {
            return Err(Stop::Line(LineRefusal::NoSave));
        };
        self.now = moment.share(self.alloc)?;
        Ok(())
    }
}
