//! Functions by name.
ghost use Rattle.std.specs.Prelude.{◌≡◌, ◌≢◌, Option, OnOk, IfOk, IfErr, IfSome, IfNone, [], ◌∷◌, ◌++◌};
ghost use Rattle.sf_func.specs.Callees.{callee_name};
ghost use Rattle.sf_func.specs.Signatures.{named_types, signatures_in};
ghost use Rattle.sf_func.specs.Storing.{stored_answers};
ghost use Rattle.std.specs.Option.{option_map, option_and_then};
ghost use Rattle.sf_value.specs.Values.{Name, Data, int_kind, pair_kind};
ghost use Rattle.sf_func.specs.Meaning.{Applied};
ghost use Rattle.sf_func.specs.Numbers.{on_number, on_numbers};
ghost use Rattle.sf_func.specs.Registries.{FunctionTypes, TypesByName, AnswersByName, KeepsTypes, KeepTheirTypes, types_shown, types_of, registered_types, answers_in, types_named, HasRoomFor, IsCause};

use crate::adapter::{OnNumber, OnNumbers};
use crate::callee::Callee;
use crate::function::{Function, FunctionFault};
use crate::signatures::{Signature, Signatures};
use crate::stored::{Answers, Stored};
use indexmap::IndexMap;
use sf_value::{Ty, Value};
use std::alloc::{AllocError, Global};
use thiserror::Error;

/// A function with its types.
pub struct Entry {
    from: Ty,
    to: Ty,
    function: Stored,
}

impl Drop for Entry {
    fn drop(self) {
        let Entry { from, to, function } = self;
        drop(from);
        drop(to);
        drop(function);
    }
}

/// Functions by name, at most 256, in the order in which they were added.
pub struct Registry {
    entries: IndexMap<String, Entry>,
}

impl Drop for Registry {
    fn drop(self) {
        let Registry { entries } = self;
        drop(entries);
    }
}

/// Why a function is not added, in the order in which the causes are looked at.
#[derive(Clone, Copy, Debug, PartialEq, Eq, Error)]
pub enum AddRefusal {
    /// There is a function of that name.
    #[error("F1 DuplicateName")]
    DuplicateName,
    /// There are 256 functions.
    #[error("F2 Full")]
    Full,
    /// Memory ran out.
    #[error("out of memory")]
    Memory,
}

/// What has types.
pub trait HasFunctionTypes {
    ghost types: { Self → FunctionTypes };
}

impl HasFunctionTypes for Entry {
    ghost types = { types_of };
}

impl Answers for Entry {
    ghost answers = { λ e. stored_answers (λ f. (Function-box f).answers f.value) (λ f. (OnNumber-box f).answer f.value) (λ f. (OnNumbers-box f).answer f.value) e.function };
}

/// What holds functions by name.
pub trait Holds {
    ghost types: { Self → TypesByName };

    ghost answers: { Self → AnswersByName };

    /// The types of the function of that name: that of its arguments and that of its answers.
    fn types_of<'r>(&'r self, name: &str) -> Option<(&'r Ty, &'r Ty)>
        ensures { option_map (λ t. types_shown t.0.now t.1.now) result ≡ types_named name.now (types self.now) };

    /// What the function of the callee's name answers to an argument. It is refused where there is none of that name.
    fn call(&self, alloc: Global, callee: &Callee, value: &Value) -> Result<Value, FunctionFault>
        ensures { Applied (answers self.now (callee_name callee.now) value.now) result };
}

impl Holds for Registry {
    ghost types = { registered_types };

    ghost answers = { answers_in (stored_answers (λ f. (Function-box f).answers f.value) (λ f. (OnNumber-box f).answer f.value) (λ f. (OnNumbers-box f).answer f.value)) };

    fn types_of<'r>(&'r self, name: &str) -> Option<(&'r Ty, &'r Ty)> {
        match self.find(name) {
            Some(entry) => Some((entry.from(), entry.to())),
            None => None,
        }
    }

    fn call(&self, alloc: Global, callee: &Callee, value: &Value) -> Result<Value, FunctionFault> {
        match self.called(callee) {
            Some(entry) => entry.apply(alloc, value),
            None => Err(FunctionFault::Refused),
        }
    }
}

impl Entry {
    /// The type of its arguments.
    pub fn from(&self) -> &Ty
        ensures { result.now ≡ (⟦<Entry as HasFunctionTypes>⟧.types self.now).from }
    {
        &self.from
    }

    /// The type of its answers.
    pub fn to(&self) -> &Ty
        ensures { result.now ≡ (⟦<Entry as HasFunctionTypes>⟧.types self.now).to }
    {
        &self.to
    }

    // Its types, with a name.
    fn signature(&self, alloc: Global, name: &str) -> Result<Signature, AllocError>
        ensures { IfOk result (λ s. named_types s ≡ (name.now, types_of self.now)) }
    {
        let name = String::from_str(alloc, name)?;
        let from = self.from.clone_in(alloc)?;
        let to = self.to.clone_in(alloc)?;
        Ok(Signature { name, from, to })
    }

    // The function, without its types.
    fn into_stored(self) -> Stored
        ensures { result ≡ self.function }
    {
        let Entry { from, to, function } = self;
        drop(from);
        drop(to);
        function
    }

    /// What it answers to an argument. The error is its refusal, or `Memory`.
    pub fn apply(&self, alloc: Global, value: &Value) -> Result<Value, FunctionFault>
        ensures { Applied (⟦<Entry as Answers>⟧.answers self.now value.now) result }
    {
        self.function.apply(alloc, value)
    }
}

impl Registry {
    /// No functions.
    pub fn new(alloc: Global) -> Registry
        ensures types { ⟦<Registry as Holds>⟧.types result ≡ [] }
        ensures typed { KeepTheirTypes (⟦<Registry as Holds>⟧.types result) (⟦<Registry as Holds>⟧.answers result) }
    {
        Registry {
            entries: IndexMap::new(alloc),
        }
    }

    /// The function of that name, with its types.
    pub fn find<'r>(&'r self, name: &str) -> Option<&'r Entry>
        ensures types { option_map (λ e. ⟦<Entry as HasFunctionTypes>⟧.types e.now) result ≡ types_named name.now (⟦<Registry as Holds>⟧.types self.now) }
        ensures answers { (d : Data) → option_and_then (λ e. ⟦<Entry as Answers>⟧.answers e.now d) result ≡ ⟦<Registry as Holds>⟧.answers self.now name.now d }
    {
        self.entries.get(name)
    }

    // The function that is called: where it was found the last time, if it stands there, else where its name is found.
    #[inline(always)]
    fn called(&self, callee: &Callee) -> Option<&Entry>
        ensures { (d : Data) → option_and_then (λ e. ⟦<Entry as Answers>⟧.answers e.now d) result ≡ ⟦<Registry as Holds>⟧.answers self.now (callee_name callee.now) d }
    {
        let name = callee.name();
        if let Some((key, entry)) = self.entries.get_index(callee.place()) {
            if key.as_str() == name {
                return Some(entry);
            }
        }
        if let Some(place) = self.entries.get_index_of(name) {
            callee.found(place);
        }
        self.find(name)
    }

    /// The types of its functions by name.
    pub fn signatures(&self, alloc: Global) -> Result<Signatures, AllocError>
        ensures { IfOk result (λ s. signatures_in s ≡ ⟦<Registry as Holds>⟧.types self.now) }
    {
        let mut entries = Vec::new(alloc);
        for (name, entry) in &self.entries {
            entries.push(entry.signature(alloc, name.as_str())?)?;
        }
        Ok(Signatures { entries })
    }

    // Why no function of that name may be added, if not for want of memory.
    fn refusal(&self, name: &str) -> Option<AddRefusal>
        ensures refused { IfSome result (λ r. IsCause r name.now (⟦<Registry as Holds>⟧.types self.now)) }
        ensures room { IfNone result (HasRoomFor name.now (⟦<Registry as Holds>⟧.types self.now)) }
    {
        if self.entries.contains_key(name) {
            Some(AddRefusal::DuplicateName)
        } else if self.entries.len() >= 256 {
            Some(AddRefusal::Full)
        } else {
            None
        }
    }

    // Adds an entry that there is room for. Want of memory hands it back and changes nothing.
    fn insert(&mut self, alloc: Global, name: &str, entry: Entry) -> Result<(), Entry>
        requires room { HasRoomFor name.now (⟦<Registry as Holds>⟧.types self.old) }
        requires keeps { KeepsTypes entry.from entry.to (⟦<Entry as Answers>⟧.answers entry) }
        ensures types { OnOk result (⟦<Registry as Holds>⟧.types self.new ≡ ⟦<Registry as Holds>⟧.types self.old ++ (name.now, types_of entry) ∷ []) }
        ensures answers { OnOk result ((d : Data) → ⟦<Registry as Holds>⟧.answers self.new name.now d ≡ ⟦<Entry as Answers>⟧.answers entry d) }
        ensures others { (n : Name) (d : Data) → n ≢ name.now → ⟦<Registry as Holds>⟧.answers self.new n d ≡ ⟦<Registry as Holds>⟧.answers self.old n d }
        ensures typed { KeepTheirTypes (⟦<Registry as Holds>⟧.types self.old) (⟦<Registry as Holds>⟧.answers self.old) → KeepTheirTypes (⟦<Registry as Holds>⟧.types self.new) (⟦<Registry as Holds>⟧.answers self.new) }
        ensures refused { IfErr result (λ e. e ≡ entry) }
        ensures unchanged { IfErr result (λ e. (⟦<Registry as Holds>⟧.types self.new ≡ ⟦<Registry as Holds>⟧.types self.old) × ((n : Name) (d : Data) → ⟦<Registry as Holds>⟧.answers self.new n d ≡ ⟦<Registry as Holds>⟧.answers self.old n d)) }
    {
        let Ok(key) = String::from_str(alloc, name) else {
            return Err(entry);
        };
        match self.entries.insert(key, entry) {
            Ok(_) => Ok(()),
            Err(failed) => {
                let (_name, entry) = failed.value;
                Err(entry)
            }
        }
    }

    /// Adds a function that takes values of one type to values of another, or refuses them. A refused call hands it
    /// back and changes nothing. The refusals, in this order: `DuplicateName`, `Full`, `Memory`.
    pub fn add(
        &mut self,
        alloc: Global,
        name: &str,
        from: Ty,
        to: Ty,
        function: Box<dyn Function>,
    ) -> Result<(), (AddRefusal, Box<dyn Function>)>
        requires { KeepsTypes from to (answers function) }
        ensures room { OnOk result (HasRoomFor name.now (⟦<Registry as Holds>⟧.types self.old)) }
        ensures types { OnOk result (⟦<Registry as Holds>⟧.types self.new ≡ ⟦<Registry as Holds>⟧.types self.old ++ (name.now, types_shown from to) ∷ []) }
        ensures answers { OnOk result ((d : Data) → ⟦<Registry as Holds>⟧.answers self.new name.now d ≡ answers function d) }
        ensures others { (n : Name) (d : Data) → n ≢ name.now → ⟦<Registry as Holds>⟧.answers self.new n d ≡ ⟦<Registry as Holds>⟧.answers self.old n d }
        ensures typed { KeepTheirTypes (⟦<Registry as Holds>⟧.types self.old) (⟦<Registry as Holds>⟧.answers self.old) → KeepTheirTypes (⟦<Registry as Holds>⟧.types self.new) (⟦<Registry as Holds>⟧.answers self.new) }
        ensures refused { IfErr result (λ e. (e.1 ≡ function) × IsCause e.0 name.now (⟦<Registry as Holds>⟧.types self.old)) }
        ensures unchanged { IfErr result (λ e. (⟦<Registry as Holds>⟧.types self.new ≡ ⟦<Registry as Holds>⟧.types self.old) × ((n : Name) (d : Data) → ⟦<Registry as Holds>⟧.answers self.new n d ≡ ⟦<Registry as Holds>⟧.answers self.old n d)) }
    {
        if let Some(refusal) = self.refusal(name) {
            return Err((refusal, function));
        }
        let function = Stored::OfValues(function);
        match self.insert(alloc, name, Entry { from, to, function }) {
            Ok(()) => Ok(()),
            Err(entry) => Err((AddRefusal::Memory, entry.into_stored().into_function())),
        }
    }

    /// Adds a function that takes a number to a number, or refuses it. A refused call hands it back and changes
    /// nothing. The refusals, in this order: `DuplicateName`, `Full`, `Memory`.
    pub fn add_on_number(
        &mut self,
        alloc: Global,
        name: &str,
        function: Box<dyn OnNumber>,
    ) -> Result<(), (AddRefusal, Box<dyn OnNumber>)>
        ensures room { OnOk result (HasRoomFor name.now (⟦<Registry as Holds>⟧.types self.old)) }
        ensures types { OnOk result (⟦<Registry as Holds>⟧.types self.new ≡ ⟦<Registry as Holds>⟧.types self.old ++ (name.now, types_shown int_kind int_kind) ∷ []) }
        ensures answers { OnOk result ((d : Data) → ⟦<Registry as Holds>⟧.answers self.new name.now d ≡ on_number ((OnNumber-box function).answer function.value) d) }
        ensures others { (n : Name) (d : Data) → n ≢ name.now → ⟦<Registry as Holds>⟧.answers self.new n d ≡ ⟦<Registry as Holds>⟧.answers self.old n d }
        ensures typed { KeepTheirTypes (⟦<Registry as Holds>⟧.types self.old) (⟦<Registry as Holds>⟧.answers self.old) → KeepTheirTypes (⟦<Registry as Holds>⟧.types self.new) (⟦<Registry as Holds>⟧.answers self.new) }
        ensures refused { IfErr result (λ e. (e.1 ≡ function) × IsCause e.0 name.now (⟦<Registry as Holds>⟧.types self.old)) }
        ensures unchanged { IfErr result (λ e. (⟦<Registry as Holds>⟧.types self.new ≡ ⟦<Registry as Holds>⟧.types self.old) × ((n : Name) (d : Data) → ⟦<Registry as Holds>⟧.answers self.new n d ≡ ⟦<Registry as Holds>⟧.answers self.old n d)) }
    {
        if let Some(refusal) = self.refusal(name) {
            return Err((refusal, function));
        }
        let entry = Entry {
            from: Ty::int(),
            to: Ty::int(),
            function: Stored::OfNumber(function),
        };
        match self.insert(alloc, name, entry) {
            Ok(()) => Ok(()),
            Err(entry) => Err((AddRefusal::Memory, entry.into_stored().into_on_number())),
        }
    }

    /// Adds a function that takes two numbers, as a pair, to a number, or refuses them. A refused call hands it back
    /// and changes nothing. The refusals, in this order: `DuplicateName`, `Full`, `Memory`.
    pub fn add_on_numbers(
        &mut self,
        alloc: Global,
        name: &str,
        function: Box<dyn OnNumbers>,
    ) -> Result<(), (AddRefusal, Box<dyn OnNumbers>)>
        ensures room { OnOk result (HasRoomFor name.now (⟦<Registry as Holds>⟧.types self.old)) }
        ensures types { OnOk result (⟦<Registry as Holds>⟧.types self.new ≡ ⟦<Registry as Holds>⟧.types self.old ++ (name.now, types_shown (pair_kind int_kind int_kind) int_kind) ∷ []) }
        ensures answers { OnOk result ((d : Data) → ⟦<Registry as Holds>⟧.answers self.new name.now d ≡ on_numbers ((OnNumbers-box function).answer function.value) d) }
        ensures others { (n : Name) (d : Data) → n ≢ name.now → ⟦<Registry as Holds>⟧.answers self.new n d ≡ ⟦<Registry as Holds>⟧.answers self.old n d }
        ensures typed { KeepTheirTypes (⟦<Registry as Holds>⟧.types self.old) (⟦<Registry as Holds>⟧.answers self.old) → KeepTheirTypes (⟦<Registry as Holds>⟧.types self.new) (⟦<Registry as Holds>⟧.answers self.new) }
        ensures refused { IfErr result (λ e. (e.1 ≡ function) × IsCause e.0 name.now (⟦<Registry as Holds>⟧.types self.old)) }
        ensures unchanged { IfErr result (λ e. (⟦<Registry as Holds>⟧.types self.new ≡ ⟦<Registry as Holds>⟧.types self.old) × ((n : Name) (d : Data) → ⟦<Registry as Holds>⟧.answers self.new n d ≡ ⟦<Registry as Holds>⟧.answers self.old n d)) }
    {
        if let Some(refusal) = self.refusal(name) {
            return Err((refusal, function));
        }
        let Ok(from) = Ty::pair(alloc, Ty::int(), Ty::int()) else {
            return Err((AddRefusal::Memory, function));
        };
        let entry = Entry {
            from,
            to: Ty::int(),
            function: Stored::OfNumbers(function),
        };
        match self.insert(alloc, name, entry) {
            Ok(()) => Ok(()),
            Err(entry) => Err((AddRefusal::Memory, entry.into_stored().into_on_numbers())),
        }
    }
}
