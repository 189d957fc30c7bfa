//! Types and values.
#![tactic(auto)]

mod equal;
mod fault;
mod index;
mod keys;
mod lookup;
mod make;
mod pair;
mod table;
mod ty;
mod value;

pub use equal::{has_key_type, has_type, same, same_key};
pub use fault::{Fault, ValueFault};
pub use keys::Keys;
pub use table::TableRefusal;
pub use ty::{KeyType, Ty, TyForm, TyRefusal, same_type};
pub use value::{Form, Key, Pair, Rows, Table, Value};
