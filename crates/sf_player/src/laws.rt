//! Laws of scripts, in functions without effect.
ghost use Rattle.std.specs.Prelude.{◌≡◌, ℕ, List, ◌++◌};
ghost use Rattle.sf_term.specs.Trees.{Template};
ghost use Rattle.sf_mean.specs.Meaning.{Network};
ghost use Rattle.sf_player.specs.Scripts.{Moment, Ending, Script, Agree};

/// From a moment on, lines have one script at most, with one ending.
pub fn one_script()
    ensures { (n : Network) (m : Template) (now : Moment) (lines : List (List ℕ)) (x y : List ℕ) (d e : Ending)
        → Script n m now lines x d → Script n m now lines y e → (x ≡ y) × (d ≡ e) }
{}

/// Two inputs with the same first lines have scripts that agree on what these lines give.
pub fn prefix_law()
    ensures { (n : Network) (m : Template) (now : Moment) (front others more : List (List ℕ)) (x y : List ℕ) (d e : Ending)
        → Script n m now (front ++ others) x d → Script n m now (front ++ more) y e
        → Agree n m now front others more x d y e }
{}
