//! Comparisons of values with values and with types.
ghost use Rattle.std.specs.Prelude.{◌≡◌, ◌↔◌, IsTrue, map};
ghost use Rattle.std.specs.List.{AllByRecursion};
ghost use Rattle.sf_value.specs.Values.{unit, number_key, text_key, HasKind, HasKeyKind};
ghost use Rattle.sf_value.specs.View.{key_of};
ghost use Rattle.sf_value.specs.KindView.{key_kind_of};

use crate::ty::{KeyType, Ty, TyForm};
use crate::value::{Form, Key, Value};

/// Whether two values are equal; tables are where they have the same keys and values in the same order.
#[cycle(same)]
pub fn same(a: &Value, b: &Value) -> bool
    ensures { IsTrue result ↔ (a.now ≡ b.now) }
{
    match (&a.form, &b.form) {
        (Form::Unit, Form::Unit) => true,
        (Form::Bool(x), Form::Bool(y)) => *x == *y,
        (Form::Int(x), Form::Int(y)) => *x == *y,
        (Form::Text(x), Form::Text(y)) => x.as_str() == y.as_str(),
        (Form::Pair(x), Form::Pair(y)) => same(&x.first, &y.first) && same(&x.second, &y.second),
        (Form::NoEvent, Form::NoEvent) => true,
        (Form::UnitEvent, Form::UnitEvent) => true,
        (Form::Event(x), Form::Event(y)) => same(x, y),
        (Form::Table(x), Form::Table(y)) => {
            same_keys(x.keys.all(), y.keys.all()) && same_values(&x.values, &y.values)
        }
        _ => false,
    }
}

#[cycle(same)]
fn same_values(a: &[Value], b: &[Value]) -> bool
    ensures { IsTrue result ↔ (a.now ≡ b.now) }
{
    match a {
        [] => match b {
            [] => true,
            [_, ..] => false,
        },
        [v, x @ ..] => match b {
            [] => false,
            [w, y @ ..] => same(v, w) && same_values(x, y),
        },
    }
}

fn same_keys(a: &[Key], b: &[Key]) -> bool
    ensures { IsTrue result ↔ (map key_of a.now ≡ map key_of b.now) }
{
    match a {
        [] => match b {
            [] => true,
            [_, ..] => false,
        },
        [k, x @ ..] => match b {
            [] => false,
            [l, y @ ..] => same_key(k, l) && same_keys(x, y),
        },
    }
}

/// Whether two keys are equal.
pub fn same_key(a: &Key, b: &Key) -> bool
    ensures { IsTrue result ↔ (key_of a.now ≡ key_of b.now) }
{
    match (a, b) {
        (Key::Int(x), Key::Int(y)) => *x == *y,
        (Key::Text(x), Key::Text(y)) => x.as_str() == y.as_str(),
        _ => false,
    }
}

/// Whether a value has a type.
#[cycle(has_type)]
pub fn has_type(value: &Value, ty: &Ty) -> bool
    ensures { IsTrue result ↔ HasKind value.now ty.now }
{
    match (&value.form, &ty.form) {
        (Form::Unit, TyForm::Unit) => true,
        (Form::Bool(_), TyForm::Bool) => true,
        (Form::Int(_), TyForm::Int) => true,
        (Form::Text(_), TyForm::Text) => true,
        (Form::Pair(x), TyForm::Pair(t, u)) => has_type(&x.first, t) && has_type(&x.second, u),
        (Form::NoEvent, TyForm::Event(_)) => true,
        (Form::UnitEvent, TyForm::Event(t)) => is_unit_type(t),
        (Form::Event(x), TyForm::Event(t)) => has_type(x, t),
        (Form::Table(x), TyForm::Table(k, t)) => {
            have_key_type(x.keys.all(), *k) && have_type(&x.values, t)
        }
        _ => false,
    }
}

// Whether the unit has a type.
fn is_unit_type(ty: &Ty) -> bool
    ensures { IsTrue result ↔ HasKind unit ty.now }
{
    match &ty.form {
        TyForm::Unit => true,
        _ => false,
    }
}

#[cycle(has_type)]
fn have_type(values: &[Value], ty: &Ty) -> bool
    ensures { IsTrue result ↔ AllByRecursion (λ x. HasKind x ty.now) values.now }
{
    match values {
        [] => true,
        [value, rest @ ..] => has_type(value, ty) && have_type(rest, ty),
    }
}

fn have_key_type(keys: &[Key], ty: KeyType) -> bool
    ensures { IsTrue result ↔ AllByRecursion (λ k. HasKeyKind (key_of k) (key_kind_of ty)) keys.now }
{
    match keys {
        [] => true,
        [key, rest @ ..] => has_key_type(key, ty) && have_key_type(rest, ty),
    }
}

/// Whether a key has a type of keys.
pub fn has_key_type(key: &Key, keys: KeyType) -> bool
    ensures { IsTrue result ↔ HasKeyKind (key_of key.now) (key_kind_of keys) }
{
    match key {
        Key::Int(n) => is_int_key(*n, keys),
        Key::Text(s) => is_text_key(s.as_str(), keys),
    }
}

#[tactic(auto, using(crate::proofs::Typing::int_key_typed))]
fn is_int_key(n: i64, keys: KeyType) -> bool
    ensures { IsTrue result ↔ HasKeyKind (number_key n) (key_kind_of keys) }
{
    keys == KeyType::Int
}

#[tactic(auto, using(crate::proofs::Typing::text_key_typed))]
fn is_text_key(s: &str, keys: KeyType) -> bool
    ensures { IsTrue result ↔ HasKeyKind (text_key s.now) (key_kind_of keys) }
{
    keys == KeyType::Text
}
