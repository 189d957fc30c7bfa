//! Laws of plans, in functions without effect. A plan of a term is made by the twelve laws of `specs/Laws`, in its parts,
//! in the bodies of its switches and in the terms of its templates.
ghost use Rattle.std.specs.Prelude.{◌≡◌, ◌≤◌, [], ◌∷◌, IsTrue};
ghost use Rattle.sf_value.specs.Values.{Data, Kind};
ghost use Rattle.sf_func.specs.Registries.{TypesByName};
ghost use Rattle.sf_term.specs.Trees.{Term, Templates};
ghost use Rattle.sf_mean.specs.Lives.{Step, Life, Process, closure, Environment};
ghost use Rattle.sf_mean.specs.Meaning.{Network, Outcome, gave, Cost, count, height, text_cost, Gives};
ghost use Rattle.sf_mean.specs.Contexts.{Context, outer_context, Bindings};
ghost use Rattle.sf_mean.specs.Typing.{Takes};
ghost use Rattle.sf_rewrite.specs.Quiet.{is_quiet};
ghost use Rattle.sf_rewrite.specs.Plans.{Plans, PlansProcess, PlansAll, PlansNetwork};
ghost use Rattle.sf_rewrite.specs.Normal.{IsPlan, is_written};

/// On every life, a process with plans of its terms, in the plan of a network with the same stored functions, gives the
/// outcome that the process gives in the network: the same value with the same readings, or the same fault. It steps no more
/// terms and stands no higher. Where the process gives no outcome, neither does the one with plans.
pub fn plan_law()
    ensures gives { (n m : Network) (P Q : Process) (L : Life) (o : Outcome) (c : Cost) →
        PlansNetwork n m → PlansProcess P Q → Gives n P L o c →
        (d : Cost) × Gives m Q L o d × (count d ≤ count c) × (height d ≤ height c) }
    ensures no_more { (n m : Network) (P Q : Process) (L : Life) (o : Outcome) (d : Cost) →
        PlansNetwork n m → PlansProcess P Q → Gives m Q L o d →
        (c : Cost) × Gives n P L o c }
{}

/// Under each context, a plan takes inputs of each type that its term takes, to outputs of the same type. The templates of
/// a plan make the contexts that those of its network make.
pub fn plan_types()
    ensures terms { (Γ : Context) (t u : Term) (a b : Kind) → Plans t u → Takes Γ t a b → Takes Γ u a b }
    ensures contexts { (fs : TypesByName) (bs : Bindings) (ss ts : Templates) → PlansAll ss ts → outer_context fs bs ss ≡ outer_context fs bs ts }
{}

/// A quiet term gives a value without readings at each step of every life, never a fault, and steps each term of its text.
pub fn quiet_law()
    ensures { (n : Network) (t : Term) (e : Environment) (s : Step) (L : Life) → IsTrue (is_quiet t) →
        (y : Data) × Gives n (closure t e) (s ∷ L) (gave y []) (text_cost t) }
{}

/// Each term of a network has a plan without `>>>`, whose pipelines have no stage that is a pipeline or `identity`, and no
/// two neighbouring stages that are both `arr`; and so have the bodies of its switches.
pub fn normal_plan()
    ensures { (t : Term) → IsTrue (is_written t) → (u : Term) × Plans t u × IsPlan u }
{}
