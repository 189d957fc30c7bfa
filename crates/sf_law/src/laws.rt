//! What holds of the names for which plans ask.
ghost use Rattle.std.specs.Prelude.{◌≡◌, false};
ghost use Rattle.sf_value.specs.Values.{Name};
ghost use Rattle.sf_law.specs.declared.plan.Plan.{Plan};
ghost use Rattle.sf_law.specs.Arena.{plan_asked, plan_asks, IsEnough, AsksOnly};

/// A plan that asks for no more names than it has to asks for none where no process begins anew: where no names at all are
/// enough for its terms.
pub fn asks_for_none()
    ensures { (p : Plan) → AsksOnly p (plan_asked p) → IsEnough p (λ x. false) → (x : Name) → plan_asks p x ≡ false }
{}
