use top_down_sweep::{Choice, Operation, Product, Quantified, Restricted, StepOperation};

/// An operation that a step is, by which the table is known that it makes.
pub trait TableOperation: Operation {
    ghost use Rattle.std.specs.Prelude.{◌≡◌};
    ghost use Rattle.sweep_operations.specs.Operations.{rule_of, begins_of};
    ghost use Rattle.sweep_operations.specs.declared.steps.StepOperation.{StepOperation};

    /// The operation among those that a step may be.
    ghost step: { Self → StepOperation };

    ghost same_rule: { (operation : Self) → Self.rule operation ≡ rule_of (step operation) };

    ghost same_begins: { (operation : Self) → Self.begins operation ≡ begins_of (step operation) };
}

impl TableOperation for StepOperation {
    ghost use Rattle.std.specs.Prelude.{refl};

    ghost step = { λ o. o };

    ghost same_rule = { λ o. refl };

    ghost same_begins = { λ o. refl };
}

impl TableOperation for Product {
    ghost use Rattle.std.specs.Prelude.{refl};
    ghost use Rattle.sweep_operations.specs.declared.steps.StepOperation.TheVariants as steps;

    ghost step = { λ o. steps.Operator o.op };

    ghost same_rule = { λ o. refl };

    ghost same_begins = { λ o. refl };
}

impl TableOperation for Choice {
    ghost use Rattle.std.specs.Prelude.{refl};
    ghost use Rattle.sweep_operations.specs.declared.steps.StepOperation.TheVariants as steps;

    ghost step = { λ o. steps.Choice };

    ghost same_rule = { λ o. refl };

    ghost same_begins = { λ o. refl };
}

impl TableOperation for Quantified {
    ghost use Rattle.std.specs.Prelude.{refl};
    ghost use Rattle.sweep_operations.specs.declared.steps.StepOperation.TheVariants as steps;

    ghost step = { λ o. steps.Quantifier o.kind o.variable };

    ghost same_rule = { λ o. refl };

    ghost same_begins = { λ o. refl };
}

impl TableOperation for Restricted {
    ghost use Rattle.std.specs.Prelude.{refl};
    ghost use Rattle.sweep_operations.specs.declared.steps.StepOperation.TheVariants as steps;

    ghost step = { λ o. steps.Restriction o.variable o.value };

    ghost same_rule = { λ o. refl };

    ghost same_begins = { λ o. refl };
}
