//! What differs where types do not fit.

use sf_refusal::Spot;
use sf_value::Ty;

/// Which types are wanted in a place.
#[derive(Drop)]
pub enum Wanted {
    /// This one alone.
    Exactly(Ty),
    /// Those of pairs.
    Pair,
    /// Those of pairs whose second part is of a type.
    PairWith(Ty),
    /// Those of events.
    Event,
    /// Those of pairs of a value and an event.
    EventBeside,
    /// Those of tables.
    Table,
    /// Those of values with an order: numbers and texts.
    Ordered,
}

/// At a spot a type was found in whose place others are wanted.
#[derive(Drop)]
pub struct Difference {
    /// Where the form stands whose types do not fit.
    pub spot: Spot,
    /// The type that was found.
    pub found: Ty,
    /// Which types are wanted in its place.
    pub wanted: Wanted,
}
