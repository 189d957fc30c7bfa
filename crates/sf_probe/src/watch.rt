//! Which probes are watched.
ghost use Rattle.std.specs.Prelude.{◌≡◌, ◌↔◌, IsTrue, None, Some, map, string_bytes};
ghost use Rattle.std.specs.List.{list_any};
ghost use Rattle.std.specs.Str.{bytes_eq};
ghost use Rattle.sf_probe.specs.Watching.{watched, Wants};

/// All probes, or those of some names.
pub struct Watch {
    // none: all of them
    names: Option<Vec<String>>,
}

impl Drop for Watch {
    fn drop(self) {
        let Watch { names } = self;
        drop(names);
    }
}

impl Watch {
    /// All probes.
    pub fn all() -> Watch
        ensures { watched result ≡ None }
    {
        Watch { names: None }
    }

    /// The probes of these names.
    pub fn only(names: Vec<String>) -> Watch
        ensures { watched result ≡ Some (map string_bytes names.items) }
    {
        Watch { names: Some(names) }
    }

    /// Whether the probes of that name are watched.
    pub fn wants(&self, name: &str) -> bool
        ensures { IsTrue result ↔ Wants (watched self.now) name.now }
    {
        match &self.names {
            None => true,
            Some(names) => is_among(name, names),
        }
    }
}

fn is_among(name: &str, names: &[String]) -> bool
    ensures { result ≡ list_any (λ n. bytes_eq name.now (string_bytes n)) names.now }
{
    names.iter().any(|own| name == own.as_str())
}
