//! Input lines.
ghost use Rattle.std.specs.Prelude.{◌≡◌, ◌≢◌, IfOk, IfErr, IsTrue, ◌↔◌, MatchOption, codes, Ok, Err};
ghost use Rattle.sf_value.specs.Values.{Data};
ghost use Rattle.sf_spelling.specs.Reading.{Refusal, Reads};
ghost use Rattle.sf_lines.specs.declared.refusal.LineRefusal.TheVariants.{Memory};
ghost use Rattle.sf_lines.specs.Asking.{LineForm, blank, HasForm, step_refusal, value_refusal, sample_asked, Says, HasTimelyValue};
ghost use Rattle.sf_lines.specs.Commands.{command_asked};
ghost use Rattle.sf_lines.specs.Parsing.{NumberThen, BeginsNoNumber, StepThen, BeginsNoStep, NameBehind, NoNameBehind, HasParts};

use crate::refusal::LineRefusal;
use crate::word::word_of;
use sf_decimal::digits_at;
use sf_spelling::read_value;
use sf_value::{Ty, Value};
use std::alloc::Global;

/// What an input line asks for.
#[derive(Drop)]
pub enum Command<'a> {
    /// Nothing: the line is empty or a comment.
    Nothing,
    /// A start with this value.
    Start(Value),
    /// A step of so many milliseconds, 1 to 3,600,000. Without a value the input is unchanged.
    Step { dt: u64, input: Option<Value> },
    /// To keep the state under this name.
    Save(&'a str),
    /// To return to the state that was kept under this name.
    Back(&'a str),
}

/// The parts of a line, its time step up to the cap.
#[derive(Clone, Copy)]
pub(crate) enum Parts<'a> {
    Blank,
    Sampled(u64, &'a [u8]),
    Repeated(u64),
    Save(&'a str),
    Back(&'a str),
}

/// The command of an input line, its line feed apart, where an engine has started or not and its input has this type.
///
/// The form of a line is looked at first, then its time, then its value: `BadLine`; `NotStarted` or `Started`; `BadStep`;
/// `BadValue`, `OutOfRange` or `DuplicateKey`. `Memory` is answered only where memory runs out, and only of a line with
/// a time step and a value whose time step is not refused: no other line takes memory.
pub fn read_line<'a>(
    alloc: Global,
    bytes: &'a [u8],
    started: bool,
    ty: &Ty,
) -> Result<Command<'a>, LineRefusal>
    ensures ok { IfOk result (λ c. Says started ty.now bytes.now (Ok (command_asked c))) }
    ensures refused { IfErr result (λ e. e ≢ Memory → Says started ty.now bytes.now (Err e)) }
    // Memory is taken for a value alone.
    ensures memory { IfErr result (λ e. e ≡ Memory → HasTimelyValue started bytes.now) }
{
    match parts_of(bytes) {
        None => Err(LineRefusal::BadLine),
        Some(Parts::Blank) => Ok(Command::Nothing),
        Some(Parts::Sampled(step, value)) => match refusal_of_step(started, step) {
            Some(refusal) => Err(refusal),
            None => sample_at(alloc, step, value, ty),
        },
        Some(Parts::Repeated(step)) => match refusal_of_step(started, step) {
            Some(refusal) => Err(refusal),
            None => Ok(Command::Step {
                dt: step,
                input: None,
            }),
        },
        Some(Parts::Save(name)) => {
            if started {
                Ok(Command::Save(name))
            } else {
                Err(LineRefusal::NotStarted)
            }
        }
        Some(Parts::Back(name)) => {
            if started {
                Ok(Command::Back(name))
            } else {
                Err(LineRefusal::NotStarted)
            }
        }
    }
}

/// The start or the step with a value.
fn sample_at(
    alloc: Global,
    step: u64,
    value: &[u8],
    ty: &Ty,
) -> Result<Command<'static>, LineRefusal>
    ensures ok { IfOk result (λ c. (x : Data) × Reads ty.now value.now (Ok x)
        × (command_asked c ≡ sample_asked step x)) }
    ensures err { IfErr result (λ e. e ≢ Memory →
        (r : Refusal) × Reads ty.now value.now (Err r) × (e ≡ value_refusal r)) }
{
    match read_value(alloc, ty, value) {
        Ok(x) => {
            if step == 0 {
                Ok(Command::Start(x))
            } else {
                Ok(Command::Step {
                    dt: step,
                    input: Some(x),
                })
            }
        }
        Err(refusal) => Err(LineRefusal::from(refusal)),
    }
}

const LONGEST_STEP: u64 = 3_600_000;

/// The refusal of a time step.
fn refusal_of_step(started: bool, step: u64) -> Option<LineRefusal>
    ensures { result ≡ step_refusal started step }
{
    if !started {
        if step == 0 {
            None
        } else {
            Some(LineRefusal::NotStarted)
        }
    } else if step == 0 {
        Some(LineRefusal::Started)
    } else if step > LONGEST_STEP {
        Some(LineRefusal::BadStep)
    } else {
        None
    }
}

/// The parts of a line, where it has a form.
fn parts_of(bytes: &[u8]) -> Option<Parts<'_>>
    ensures { MatchOption result
        ((form : LineForm) → HasForm bytes.now form → ⊥)
        (HasParts bytes.now) }
{
    if is_blank(bytes) {
        return Some(Parts::Blank);
    }
    if let Some((step, value)) = step_at(bytes) {
        return if !is_unchanged(value) {
            Some(Parts::Sampled(step, value))
        } else if step > 0 {
            Some(Parts::Repeated(step))
        } else {
            None
        };
    }
    if let Some(name) = name_behind(b"save ", bytes) {
        return Some(Parts::Save(name));
    }
    if let Some(name) = name_behind(b"back ", bytes) {
        return Some(Parts::Back(name));
    }
    None
}

/// Whether what stands for a value says that the input is unchanged.
fn is_unchanged(value: &[u8]) -> bool
    ensures { IsTrue result ↔ (value.now ≡ codes "=") }
{
    match value {
        [c] => *c == b'=',
        _ => false,
    }
}

/// Whether a line is empty or a comment.
fn is_blank(bytes: &[u8]) -> bool
    ensures { IsTrue result ↔ HasForm bytes.now blank }
{
    match bytes {
        [] => true,
        [c, ..] => *c == b'#',
    }
}

/// The name of a save, where it is all that is behind these first bytes.
fn name_behind<'a>(front: &[u8], bytes: &'a [u8]) -> Option<&'a str>
    ensures { MatchOption result (NoNameBehind front.now bytes.now)
        (λ name. NameBehind front.now bytes.now name.now) }
{
    word_of(bytes.strip_prefix(front)?)
}

/// The time step at the front, up to the cap, and what is after the space behind it.
fn step_at(bytes: &[u8]) -> Option<(u64, &[u8])>
    ensures { MatchOption result (BeginsNoStep bytes.now) (λ x. StepThen bytes.now x.0 x.1.now) }
{
    match number_at(bytes) {
        None => None,
        Some((step, rest)) => match rest {
            [] => None,
            [c, value @ ..] => {
                if *c == b' ' {
                    Some((step, value))
                } else {
                    None
                }
            }
        },
    }
}

/// The number at the front, up to the cap, and what is after it.
fn number_at(bytes: &[u8]) -> Option<(u64, &[u8])>
    ensures { MatchOption result (BeginsNoNumber bytes.now) (λ x. NumberThen bytes.now x.0 x.1.now) }
{
    match bytes {
        [] => None,
        [c, rest @ ..] => {
            if *c == b'0' {
                Some((0, rest))
            } else if c.is_ascii_digit() {
                let run = digits_at(bytes);
                Some((run.number, run.rest))
            } else {
                None
            }
        }
    }
}
