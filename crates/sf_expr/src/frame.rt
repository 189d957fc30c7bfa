//! Names that are put around an expression together.
ghost use Rattle.std.specs.Prelude.{◌≡◌, ◌∷◌, ◌++◌, [], true, not, IfOk, OnOk, IfErr, IfSome, IfNone, Some, None, Ok, bytes_eq};
ghost use Rattle.std.specs.HashMap.{get_by};
ghost use Rattle.sf_value.specs.Values.{Name};
ghost use Rattle.sf_value.specs.KindView.{key_kind_of};
ghost use Rattle.sf_refusal.specs.Refusals.{OrMemory};
ghost use Rattle.sf_expr.specs.Patterns.{pattern_of};
ghost use Rattle.sf_expr.specs.Typing.{Fits, AddsNames, Binds, only_functions};
ghost use Rattle.sf_expr.specs.Inference.{is_among};
ghost use Rattle.sf_expr.specs.Judging.{judged_seen, Stops};
ghost use Rattle.sf_expr.specs.Refusals.{BindRefused, PatternRefused};
ghost use Rattle.sf_expr.specs.Meanings.{of_value, of_process, of_collection, meant, found_in, value_names, names_seen, last_place};

use crate::meaning::{Meaning, Named};
use crate::pat::{Pat, PatForm};
use indexmap::IndexSet;
use sf_refusal::{Refusal, Rule, Spot};
use sf_value::{KeyType, Ty};
use std::alloc::{AllocError, Global};
use std::collections::HashMap;

/// Names that are put around an expression together, one behind another, each with what it stands for. The last of a name
/// is found by a map.
pub struct Frame<'a> {
    names: Vec<Named<'a>>,
    places: HashMap<&'a str, usize>,
    ghost placed: { (x : Name) → get_by (λ k. bytes_eq x k.now) places ≡ last_place x names.items },
}

impl<'a> Drop for Frame<'a> {
    fn drop(self) {
        let Frame { names, places } = self;
        drop(names);
        drop(places);
    }
}

impl<'a> Frame<'a> {
    ghost use Rattle.sf_expr.specs.Scopes.{frame_entries};

    /// No name.
    pub fn new(alloc: Global) -> Frame<'a>
        ensures { frame_entries result ≡ [] }
    {
        Frame {
            names: Vec::new(alloc),
            places: HashMap::new(alloc),
        }
    }

    /// Puts a name behind the names that are there, with what it stands for.
    fn add(&mut self, name: &'a str, meaning: Meaning<'a>) -> Result<(), AllocError>
        ensures { OnOk result (frame_entries self.new ≡ (name.now, meant meaning.entry) ∷ frame_entries self.old) }
    {
        let place = self.names.len();
        self.names.push(Named { name, meaning })?;
        match self.places.insert(name, place) {
            Ok(_) => Ok(()),
            Err(_) => {
                self.names.pop();
                Err(AllocError)
            }
        }
    }

    /// Puts a name behind the names that are there that stands for a value of a type.
    pub fn add_value(&mut self, name: &'a str, ty: &'a Ty) -> Result<(), AllocError>
        ensures { OnOk result (frame_entries self.new ≡ (name.now, of_value ty.now) ∷ frame_entries self.old) }
    {
        self.add(name, Meaning::Value(ty))
    }

    /// Puts a name behind the names that are there that stands for a process from a type to a type.
    pub fn add_process(&mut self, name: &'a str, from: &'a Ty, to: &'a Ty) -> Result<(), AllocError>
        ensures { OnOk result (frame_entries self.new ≡ (name.now, of_process from.now to.now) ∷ frame_entries self.old) }
    {
        self.add(name, Meaning::Process(from, to))
    }

    /// Puts a name behind the names that are there that stands for a collection with keys of a type, of members from a type to
    /// a type.
    pub fn add_collection(
        &mut self,
        name: &'a str,
        keys: KeyType,
        from: &'a Ty,
        to: &'a Ty,
    ) -> Result<(), AllocError>
        ensures { OnOk result (frame_entries self.new ≡ (name.now, of_collection (key_kind_of keys) from.now to.now) ∷ frame_entries self.old) }
    {
        self.add(name, Meaning::Collection(keys, from, to))
    }

    /// What the last of a name stands for; none where it is not there.
    pub(crate) fn find(&self, name: &str) -> Option<Meaning<'a>>
        ensures found { IfSome result (λ m. found_in name.now (frame_entries self.now) ≡ Some (meant m)) }
        ensures absent { IfNone result (found_in name.now (frame_entries self.now) ≡ None) }
    {
        let place = *self.places.get(name)?;
        Some(self.names[place].meaning)
    }

    /// Puts the names of a pattern behind the names that are there, with the types of the parts of a type. Refused with
    /// `Mismatch` at `at` where the pattern does not fit the type, and with `Memory`; only some of the names may be
    /// there then.
    fn bind(&mut self, pattern: &'a Pat, ty: &'a Ty, at: Spot) -> Result<(), Refusal>
        ensures ok { OnOk result (AddsNames (pattern_of pattern.now) ty.now (value_names (frame_entries self.old)) (value_names (frame_entries self.new))) }
        ensures err { IfErr result (OrMemory (BindRefused (pattern_of pattern.now) ty.now at)) }
        ensures fits { Fits ty.now }
    {
        match (pattern.form(), ty.parts()) {
            (PatForm::Unnamed, _) => Ok(()),
            (PatForm::Name(name, _), _) => {
                self.add_value(name.as_str(), ty)?;
                Ok(())
            }
            (PatForm::Both(first, second), Some((left, right))) => {
                self.bind(first, left, at)?;
                self.bind(second, right, at)
            }
            (PatForm::Both(_, _), None) => Err(Refusal::broken(Rule::Mismatch, at)),
        }
    }

    /// The names of a pattern for the parts of a type. Refused with `DuplicateName` where two of them are the same, with
    /// the place of the later one, then with `Mismatch` at `at` where the pattern does not fit the type, and with `Memory`.
    pub fn of_pattern(
        alloc: Global,
        pattern: &'a Pat,
        ty: &'a Ty,
        at: Spot,
    ) -> Result<Frame<'a>, Refusal>
        ensures bound { IfOk result (λ frame. Binds (pattern_of pattern.now) ty.now (only_functions []) (value_names (frame_entries frame))) }
        ensures fits { OnOk result (Fits ty.now) }
        ensures err { IfErr result (OrMemory (PatternRefused pattern.now ty.now at)) }
    {
        see(pattern, &mut IndexSet::new(alloc))?;
        let mut frame = Frame::new(alloc);
        frame.bind(pattern, ty, at)?;
        Ok(frame)
    }
}

/// Puts a name behind those that were seen, if it is none of them, and answers whether it is none.
fn note<'a>(seen: &mut IndexSet<&'a str>, name: &'a str) -> Result<bool, AllocError>
    ensures new { IfOk result (λ new. new ≡ not (is_among name.now (names_seen seen.old.keys))) }
    ensures put { IfOk result (λ new. new ≡ true → names_seen seen.new.keys ≡ names_seen seen.old.keys ++ name.now ∷ []) }
{
    Ok(seen.insert(name)?)
}

/// Puts the names of a pattern behind those that were seen. Refused with `DuplicateName` at the first name that was seen
/// before, and with `Memory`; only some of the names may be there then.
fn see<'a>(pattern: &'a Pat, seen: &mut IndexSet<&'a str>) -> Result<(), Refusal>
    ensures ok { OnOk result (judged_seen (names_seen seen.old.keys) pattern.now ≡ Ok (names_seen seen.new.keys)) }
    ensures err { IfErr result (λ r. Stops r (judged_seen (names_seen seen.old.keys) pattern.now)) }
{
    match pattern.form() {
        PatForm::Unnamed => Ok(()),
        PatForm::Name(name, spot) => {
            let new = note(seen, name.as_str())?;
            if new {
                Ok(())
            } else {
                Err(Refusal::broken(Rule::DuplicateName, *spot))
            }
        }
        PatForm::Both(first, second) => {
            see(first, seen)?;
            see(second, seen)?;
            Ok(())
        }
    }
}
