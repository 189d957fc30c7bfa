//! The types of functions.
ghost use Rattle.std.specs.Prelude.{◌≡◌, Some, None, IfSome, IfNone};
ghost use Rattle.sf_func.specs.Registries.{types_named};
ghost use Rattle.sf_func.specs.Signatures.{signature_types, signatures_in};

use sf_value::Ty;

/// The types of a function, with its name.
pub struct Signature {
    pub(crate) name: String,
    pub(crate) from: Ty,
    pub(crate) to: Ty,
}

impl Drop for Signature {
    fn drop(self) {
        let Signature { name, from, to } = self;
        drop(name);
        drop(from);
        drop(to);
    }
}

impl Signature {
    /// The type of its arguments.
    pub fn from(&self) -> &Ty
        ensures { result.now ≡ (signature_types self.now).from }
    {
        &self.from
    }

    /// The type of its answers.
    pub fn to(&self) -> &Ty
        ensures { result.now ≡ (signature_types self.now).to }
    {
        &self.to
    }
}

/// The types of functions by name, without the functions.
pub struct Signatures {
    pub(crate) entries: Vec<Signature>,
}

impl Drop for Signatures {
    fn drop(self) {
        let Signatures { entries } = self;
        drop(entries);
    }
}

impl Signatures {
    /// The types of the function of that name.
    pub fn find(&self, name: &str) -> Option<&Signature>
        ensures found { IfSome result (λ s. types_named name.now (signatures_in self.now) ≡ Some (signature_types s.now)) }
        ensures absent { IfNone result (types_named name.now (signatures_in self.now) ≡ None) }
    {
        let mut rest = self.entries.as_slice();
        while let [first, after @ ..] = rest {
            if name == first.name.as_str() {
                return Some(first);
            }
            rest = after;
        }
        None
    }
}
