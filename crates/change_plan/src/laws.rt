//! What plans keep, stated for the proofs above.
ghost use Rattle.change_plan.specs.Laws.{PlansAreLeast};

/// If no fault holds of a batch, its planned steps are lawful, and no lawful plan has fewer steps.
pub fn plans_are_least()
    ensures { PlansAreLeast }
{}
