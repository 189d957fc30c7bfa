//! Types.
ghost use Rattle.std.specs.Prelude.{◌≡◌, ◌≤◌, ◌<◌, ◌↔◌, Err, IsTrue, IfOk, IfSome, IfNone};
ghost use Rattle.sf_value.specs.Values.{unit_kind, bool_kind, int_kind, text_kind, pair_kind, event_kind, table_kind, nodes, IsNoPair};
ghost use Rattle.sf_value.specs.KindView.{kind_of, key_kind_of};
ghost use Rattle.sf_value.specs.declared.ty.TyRefusal.TheVariants.{TypeTooLarge, Memory};

use std::alloc::{AllocError, AllocFailed, Global};
use std::marker::Model;
use std::rc::Rc;
use thiserror::Error;

/// Why a type is not made.
#[derive(Clone, Copy, Debug, PartialEq, Eq, Error)]
pub enum TyRefusal {
    /// It would be made of more than 256 types.
    #[error("type too large")]
    TypeTooLarge,
    /// Memory ran out.
    #[error("out of memory")]
    Memory,
}

impl<T: Drop> From<AllocFailed<T>> for TyRefusal {
    ghost from_gives = { λ _ e. e ≡ Memory };

    fn from(_: AllocFailed<T>) -> TyRefusal {
        TyRefusal::Memory
    }
}

/// A type of the keys of a table.
#[derive(Clone, Copy, Debug, PartialEq, Eq)]
pub enum KeyType {
    /// Whole numbers within signed 64 bits.
    Int,
    /// Texts.
    Text,
}

/// A type of values, made of at most 256 types.
///
/// What it is made of is shared: a copy of a type copies no content.
#[cycle(ty)]
pub struct Ty {
    pub(crate) form: TyForm,
}

// Written out, so that the crates above let go of a type by one call.
impl Drop for Ty {
    #[cycle(ty)]
    fn drop(self) {
        let Ty { form } = self;
        drop(form);
    }
}

/// What a type is made of.
#[derive(Drop)]
#[cycle(ty)]
pub enum TyForm {
    /// The type with one value.
    Unit,
    /// True and false.
    Bool,
    /// Whole numbers within signed 64 bits.
    Int,
    /// Texts.
    Text,
    /// Pairs of values of two types.
    Pair(Rc<Ty>, Rc<Ty>),
    /// Events with a payload of a type, or none.
    Event(Rc<Ty>),
    /// Tables of values of a type, under keys.
    Table(KeyType, Rc<Ty>),
}

impl Model for Ty {
    ghost use Rattle.std.specs.Prelude.{◌≤◌, List};
    ghost use Rattle.sf_value.specs.Values.{Kind, nodes};
    ghost use Rattle.std.specs.Coded.{code_by, codes};
    ghost use Rattle.sf_value.specs.KindCodes.{KindMark, kind_marks_of, decoded_kind, decoded_kind-kind_marks_of};

    ghost Value = { Kind };

    ghost coded = { code_by (List KindMark) (Prim.hlevel codes) kind_marks_of decoded_kind decoded_kind-kind_marks_of };

    ghost use Rattle.sf_value.specs.KindView.{kind_of};

    ghost view = { λ a. kind_of a.form };

    ghost invariant = { λ a. nodes (kind_of a.form) ≤ 256 };

    ghost size = { nodes };

    ghost use Rattle.sf_value.specs.KindFalls.{deep_le-nodes};

    ghost size_decreases = { λ a h. deep_le-nodes a.form };
}

impl Ty {
    /// The type with one value.
    pub fn unit() -> Ty
        ensures { result ≡ unit_kind }
    {
        Ty { form: TyForm::Unit }
    }

    /// The type of true and false.
    pub fn bool() -> Ty
        ensures { result ≡ bool_kind }
    {
        Ty { form: TyForm::Bool }
    }

    /// The type of whole numbers.
    pub fn int() -> Ty
        ensures { result ≡ int_kind }
    {
        Ty { form: TyForm::Int }
    }

    /// The type of texts.
    pub fn text() -> Ty
        ensures { result ≡ text_kind }
    {
        Ty { form: TyForm::Text }
    }

    /// The type of pairs of a value of the first type and a value of the second.
    ///
    /// `TypeTooLarge` where it would be made of more than 256 types, else `Memory` only where memory runs out.
    pub fn pair(alloc: Global, first: Ty, second: Ty) -> Result<Ty, TyRefusal>
        ensures ok { IfOk result (λ t. t ≡ pair_kind first second) }
        ensures large { result ≡ Err TypeTooLarge ↔ (256 < nodes (pair_kind first second)) }
    {
        if first.nodes() + second.nodes() >= 256 {
            return Err(TyRefusal::TypeTooLarge);
        }
        let first = Rc::new(alloc, first)?;
        let second = Rc::new(alloc, second)?;
        Ok(Ty {
            form: TyForm::Pair(first, second),
        })
    }

    /// The type of events with a payload of a type.
    ///
    /// `TypeTooLarge` where it would be made of more than 256 types, else `Memory` only where memory runs out.
    pub fn event(alloc: Global, payload: Ty) -> Result<Ty, TyRefusal>
        ensures ok { IfOk result (λ t. t ≡ event_kind payload) }
        ensures large { result ≡ Err TypeTooLarge ↔ (256 < nodes (event_kind payload)) }
    {
        if payload.nodes() >= 256 {
            return Err(TyRefusal::TypeTooLarge);
        }
        let payload = Rc::new(alloc, payload)?;
        Ok(Ty {
            form: TyForm::Event(payload),
        })
    }

    /// The type of tables of values of a type, under keys.
    ///
    /// `TypeTooLarge` where it would be made of more than 256 types, else `Memory` only where memory runs out.
    pub fn table(alloc: Global, keys: KeyType, values: Ty) -> Result<Ty, TyRefusal>
        ensures ok { IfOk result (λ t. t ≡ table_kind (key_kind_of keys) values) }
        ensures large { result ≡ Err TypeTooLarge ↔ (256 < nodes (table_kind (key_kind_of keys) values)) }
    {
        if values.nodes() >= 256 {
            return Err(TyRefusal::TypeTooLarge);
        }
        let values = Rc::new(alloc, values)?;
        Ok(Ty {
            form: TyForm::Table(keys, values),
        })
    }

    /// How many types the type is made of.
    pub fn nodes(&self) -> u32
        ensures count { result ≡ nodes self.now }
        ensures small { result ≤ 256 }
    {
        match &self.form {
            TyForm::Unit | TyForm::Bool | TyForm::Int | TyForm::Text => 1,
            TyForm::Pair(first, second) => first.nodes() + second.nodes() + 1,
            TyForm::Event(inner) | TyForm::Table(_, inner) => inner.nodes() + 1,
        }
    }

    /// What the type is made of.
    pub fn form(&self) -> &TyForm
        ensures kind { kind_of result.now ≡ self.now }
        ensures small { nodes self.now ≤ 256 }
    {
        &self.form
    }

    /// What the type is made of, taken out of it.
    pub fn into_form(self) -> TyForm
        ensures kind { kind_of result ≡ self }
        ensures small { nodes self ≤ 256 }
    {
        let Ty { form } = self;
        form
    }

    /// The types of the two parts, where it is a type of pairs.
    pub fn parts(&self) -> Option<(&Ty, &Ty)>
        ensures pair { IfSome result (λ parts. self.now ≡ pair_kind parts.0.now parts.1.now) }
        ensures other { IfNone result (IsNoPair self.now) }
        ensures small { nodes self.now ≤ 256 }
    {
        match &self.form {
            TyForm::Pair(first, second) => Some((first, second)),
            TyForm::Unit => None,
            TyForm::Bool => None,
            TyForm::Int => None,
            TyForm::Text => None,
            TyForm::Event(_) => None,
            TyForm::Table(_, _) => None,
        }
    }

    /// A copy of the type, which shares what it is made of. It takes no memory.
    pub fn clone_in(&self, _alloc: Global) -> Result<Ty, AllocError>
        ensures same { IfOk result (λ t. t ≡ self.now) }
        ensures small { nodes self.now ≤ 256 }
    {
        let form = match &self.form {
            TyForm::Unit => TyForm::Unit,
            TyForm::Bool => TyForm::Bool,
            TyForm::Int => TyForm::Int,
            TyForm::Text => TyForm::Text,
            TyForm::Pair(first, second) => TyForm::Pair(first.clone()?, second.clone()?),
            TyForm::Event(payload) => TyForm::Event(payload.clone()?),
            TyForm::Table(keys, values) => TyForm::Table(*keys, values.clone()?),
        };
        Ok(Ty { form })
    }
}

/// Whether two types are the same.
pub fn same_type(a: &Ty, b: &Ty) -> bool
    ensures { IsTrue result ↔ (a.now ≡ b.now) }
{
    match (&a.form, &b.form) {
        (TyForm::Unit, TyForm::Unit) => true,
        (TyForm::Bool, TyForm::Bool) => true,
        (TyForm::Int, TyForm::Int) => true,
        (TyForm::Text, TyForm::Text) => true,
        (TyForm::Pair(t, u), TyForm::Pair(r, s)) => same_type(t, r) && same_type(u, s),
        (TyForm::Event(t), TyForm::Event(u)) => same_type(t, u),
        (TyForm::Table(k, t), TyForm::Table(l, u)) => *k == *l && same_type(t, u),
        _ => false,
    }
}
