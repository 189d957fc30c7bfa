//! Functions as calls know them.
ghost use Rattle.std.specs.Prelude.{◌≡◌, string_bytes};
ghost use Rattle.sf_func.specs.Callees.{callee_name};

use std::cell::Cell;

/// A function that is called: its name, and the place in a registry where it was found the last time. The place is a guess, at
/// which the name is looked at before the function is called.
#[derive(Drop)]
pub struct Callee {
    name: String,
    place: Cell<usize>,
}

impl Callee {
    /// The function of that name, before it is looked for.
    pub fn new(name: String) -> Callee
        ensures { callee_name result ≡ string_bytes name }
    {
        Callee {
            name,
            place: Cell::new(0),
        }
    }

    /// Its name.
    pub fn name(&self) -> &str
        ensures { result.now ≡ callee_name self.now }
    {
        self.name.as_str()
    }

    /// Where it may stand.
    pub(crate) fn place(&self) -> usize {
        self.place.get()
    }

    /// It was found there.
    pub(crate) fn found(&self, place: usize) {
        self.place.set(place);
    }
}
