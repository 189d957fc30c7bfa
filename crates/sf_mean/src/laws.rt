//! Laws of the meaning, in functions without effect.
ghost use Rattle.std.specs.Prelude.{◌≡◌, ◌↔◌, ℕ, List, [], ◌∷◌, Some};
ghost use Rattle.sf_value.specs.Values.{Data, Kind};
ghost use Rattle.sf_term.specs.Trees.{Chain, Primitive, Term};
ghost use Rattle.sf_mean.specs.Contexts.{Context};
ghost use Rattle.sf_mean.specs.Typing.{ChainTakes, PrimitiveTakes, Takes};
ghost use Rattle.sf_mean.specs.Inference.{chain_output, primitive_output, term_output};
ghost use Rattle.sf_mean.specs.Lives.{Step, Life, Process, resumed, after};
ghost use Rattle.sf_mean.specs.Meaning.{Network, Outcome, Cost, Gives, Outputs};
ghost use Rattle.sf_mean.specs.Soundness.{HasNoCalls, HasLived, ProcessTakes, LifeHas, OutcomeHas};

/// A process gives one outcome at most on a life, at one cost.
pub fn one_outcome()
    ensures { (n : Network) (P : Process) (L : Life) (a b : Outcome) (c d : Cost) → Gives n P L a c → Gives n P L b d → (a ≡ b) × (c ≡ d) }
{}

/// Where a life gives an outcome, each life before it gives a value.
pub fn prefix_law()
    ensures { (n : Network) (P : Process) (s : Step) (L : Life) (o : Outcome) (c : Cost) → Gives n P (s ∷ L) o c → (ys : List Data) × Outputs n P L ys }
{}

/// A typed process gives values of its output type on lives of typed inputs.
pub fn typed_process()
    ensures { (n : Network) (P : Process) (L : Life) (o : Outcome) (c : Cost) (a b : Kind) → Gives n P L o c → ProcessTakes n P a b → LifeHas L a → OutcomeHas o b }
{}

/// Where each life before gives a value, a process has an outcome, if what is frozen in it had lived so, and if it calls no
/// template. Templates that call each other in the bodies of switches, without end at one sample, have none.
pub fn some_outcome()
    ensures { (n : Network) (P : Process) (s : Step) (L : Life) (ys : List Data) → HasNoCalls P → HasLived n P → Outputs n P L ys → (o : Outcome) × ((c : Cost) × Gives n P (s ∷ L) o c) }
{}

/// A process that was frozen after a life, and again after another one, goes on exactly as itself after both.
pub fn restart()
    ensures { (n : Network) (P : Process) (h g L : Life) (d e : ℕ) (s : Step) (o : Outcome) (c : Cost) → Gives n (resumed (resumed P h d) g e) (s ∷ L) o c ↔ Gives n P (after h d (after g e (s ∷ L))) o c }
{}

/// Under each context, a term takes inputs of a type to outputs of the type that `term_output` finds for it, and of no
/// other; so do primitives and functions made into one with `primitive_output` and `chain_output`.
pub fn found_output()
    ensures terms { (Γ : Context) (t : Term) (a b : Kind) → Takes Γ t a b ↔ (term_output Γ t a ≡ Some b) }
    ensures primitives { (Γ : Context) (p : Primitive) (a b : Kind) → PrimitiveTakes Γ p a b ↔ (primitive_output Γ p a ≡ Some b) }
    ensures chains { (Γ : Context) (f : Chain) (a b : Kind) → ChainTakes Γ f a b ↔ (chain_output Γ f a ≡ Some b) }
{}
