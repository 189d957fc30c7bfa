//! Laws of names, in functions without effect.
ghost use Rattle.std.specs.Prelude.{◌↔◌, Bool, IsTrue};
ghost use Rattle.sf_value.specs.Values.{Name};
ghost use Rattle.sf_term.specs.Trees.{Term};
ghost use Rattle.sf_mean.specs.Lives.{Life, Process, closure, Environment};
ghost use Rattle.sf_mean.specs.Meaning.{Network, Outcome, Cost, Gives};
ghost use Rattle.sf_coincidence.specs.Mentions.{Mentions};
ghost use Rattle.sf_coincidence.specs.Alike.{Alike, restricted};

/// A process gives the same, at the same cost, whatever the names around it stand for that its term does not mention.
pub fn coincidence()
    ensures { (n : Network) (P Q : Process) (L : Life) (o : Outcome) (c : Cost) → Alike P Q → Gives n P L o c ↔ Gives n Q L o c }
{}

/// So it gives the same where only some names around it are left, those that its term mentions among them.
pub fn only_mentioned()
    ensures { (n : Network) (t : Term) (e : Environment) (wanted : Name → Bool) (L : Life) (o : Outcome) (c : Cost) →
        ((x : Name) → Mentions t x → IsTrue (wanted x)) → Gives n (closure t (restricted wanted e)) L o c ↔ Gives n (closure t e) L o c }
{}

/// Being alike is an equivalence.
pub fn equivalence()
    ensures itself { (P : Process) → Alike P P }
    ensures back { (P Q : Process) → Alike P Q → Alike Q P }
    ensures through { (P Q R : Process) → Alike P Q → Alike Q R → Alike P R }
{}
