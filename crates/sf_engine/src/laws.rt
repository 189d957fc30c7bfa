//! What holds of the work that a sample takes.
ghost use Rattle.std.specs.Prelude.{Result};
ghost use Rattle.sf_value.specs.Values.{Data};
ghost use Rattle.sf_value.specs.declared.fault.Fault.{Fault};
ghost use Rattle.sf_func.specs.Registries.{AnswersByName};
ghost use Rattle.sf_check.specs.declared.checked.Checked.{Checked};
ghost use Rattle.sf_law.specs.declared.plan.Plan.{Plan};
ghost use Rattle.sf_optimise.specs.Plans.{IsPlainPlan};
ghost use Rattle.sf_mean.specs.Lives.{Life};
ghost use Rattle.sf_optimise.specs.Optimised.{IsOptimisedPlan};
ghost use Rattle.sf_meter.specs.declared.meter.Meter.{Meter};
ghost use Rattle.sf_probe.specs.declared.reading.Readings.{Readings};
ghost use Rattle.sf_state.specs.declared.state.State.{State};
ghost use Rattle.sf_state.specs.Machine.{machine};
ghost use Rattle.sf_step.specs.Stepping.{Steps};
ghost use Rattle.sf_engine.specs.Planned.{main_of_plan, TakesNoMore};

/// Whatever a sample answers in a plan, as the network was written or rewritten: by its meter it entered at most the nodes that
/// the network's meaning counts, where it has an outcome, and no more of them one inside another than the meaning has.
pub fn counted_work()
    ensures written { (φ : AnswersByName) (c : Checked) (p : Plan) (L : Life) (r : Result (Data × Readings) Fault) (s : State) (m : Meter) →
        IsPlainPlan c p → Steps (machine φ p) (main_of_plan p) L r s m → TakesNoMore φ c L m }
    ensures rewritten { (φ : AnswersByName) (c : Checked) (p : Plan) (L : Life) (r : Result (Data × Readings) Fault) (s : State) (m : Meter) →
        IsOptimisedPlan c p → Steps (machine φ p) (main_of_plan p) L r s m → TakesNoMore φ c L m }
{}
