//! The words of operations.
ghost use Rattle.std.specs.Prelude.{◌≡◌};
ghost use Rattle.sweep_operations.specs.OperationWords as words;

use crate::{Choice, Product, Quantified, Restricted, StepOperation};
use bool_tables::{Bin, Quant};
use saved_words::{Carried, Words};

// An operator's four values.
type Values = ((bool, bool), (bool, bool));

impl Carried for Product {
    ghost use Rattle.sweep_operations.specs.OperationWords.{product_spelling};

    ghost count = { product_spelling.count };

    ghost words = { product_spelling.words };

    ghost is_value = { product_spelling.is_value };

    fn put(&self, into: &mut Words) {
        let Bin { v00, v01, v10, v11 } = self.op;
        ((v00, v01), (v10, v11)).put(into);
    }

    fn put_none(into: &mut Words) {
        Values::put_none(into);
    }

    fn get(from: &mut Words) -> Option<Product> {
        let ((v00, v01), (v10, v11)) = Values::get(from)?;
        Some(Product {
            op: Bin { v00, v01, v10, v11 },
        })
    }

    fn get_none(from: &mut Words) -> bool {
        Values::get_none(from)
    }

    ghost long = { product_spelling.long };

    ghost fits = { product_spelling.fits };

    ghost differ = { product_spelling.differ };
}

impl Carried for Choice {
    ghost use Rattle.sweep_operations.specs.OperationWords.{choice_spelling};

    ghost count = { choice_spelling.count };

    ghost words = { choice_spelling.words };

    ghost is_value = { choice_spelling.is_value };

    fn put(&self, into: &mut Words) {}

    fn put_none(into: &mut Words) {}

    fn get(from: &mut Words) -> Option<Choice> {
        Some(Choice)
    }

    fn get_none(from: &mut Words) -> bool {
        true
    }

    ghost long = { choice_spelling.long };

    ghost fits = { choice_spelling.fits };

    ghost differ = { choice_spelling.differ };
}

// Whether there is some value, or each has to be one; and the variable.
type QuantifiedParts = (bool, u32);

impl Carried for Quantified {
    ghost use Rattle.sweep_operations.specs.OperationWords.{quantified_spelling};

    ghost count = { quantified_spelling.count };

    ghost words = { quantified_spelling.words };

    ghost is_value = { quantified_spelling.is_value };

    fn put(&self, into: &mut Words) {
        (is_exists(self.kind), self.variable).put(into);
    }

    fn put_none(into: &mut Words) {
        QuantifiedParts::put_none(into);
    }

    fn get(from: &mut Words) -> Option<Quantified> {
        let (exists, variable) = QuantifiedParts::get(from)?;
        let kind = if exists { Quant::Exists } else { Quant::Forall };
        Some(Quantified { kind, variable })
    }

    fn get_none(from: &mut Words) -> bool {
        QuantifiedParts::get_none(from)
    }

    ghost long = { quantified_spelling.long };

    ghost fits = { quantified_spelling.fits };

    ghost differ = { quantified_spelling.differ };
}

// Whether there has to be some value.
fn is_exists(kind: Quant) -> bool
    ensures { result ≡ words.is_exists kind }
{
    match kind {
        Quant::Exists => true,
        Quant::Forall => false,
    }
}

type RestrictedParts = (u32, bool);

impl Carried for Restricted {
    ghost use Rattle.sweep_operations.specs.OperationWords.{restricted_spelling};

    ghost count = { restricted_spelling.count };

    ghost words = { restricted_spelling.words };

    ghost is_value = { restricted_spelling.is_value };

    fn put(&self, into: &mut Words) {
        (self.variable, self.value).put(into);
    }

    fn put_none(into: &mut Words) {
        RestrictedParts::put_none(into);
    }

    fn get(from: &mut Words) -> Option<Restricted> {
        let (variable, value) = RestrictedParts::get(from)?;
        Some(Restricted { variable, value })
    }

    fn get_none(from: &mut Words) -> bool {
        RestrictedParts::get_none(from)
    }

    ghost long = { restricted_spelling.long };

    ghost fits = { restricted_spelling.fits };

    ghost differ = { restricted_spelling.differ };
}

// One of three is there, or none where it is a choice.
type Operations = (Option<Product>, (Option<Quantified>, Option<Restricted>));

impl StepOperation {
    ghost use Rattle.std.specs.Prelude.{◌≡◌};
    ghost use Rattle.sweep_operations.specs.OperationWords.{step_parts, step_of_parts};

    fn parts(&self) -> Operations
        ensures { result ≡ step_parts self.now }
    {
        match *self {
            StepOperation::Operator(op) => (Some(Product { op }), (None, None)),
            StepOperation::Choice => (None, (None, None)),
            StepOperation::Quantifier { kind, level } => {
                let variable = level;
                (None, (Some(Quantified { kind, variable }), None))
            }
            StepOperation::Restriction { level, value } => {
                let variable = level;
                (None, (None, Some(Restricted { variable, value })))
            }
        }
    }

    // The operation that is there, where it is one.
    fn of(parts: Operations) -> Option<StepOperation>
        ensures { result ≡ step_of_parts parts }
    {
        match parts {
            (Some(o), (None, None)) => Some(StepOperation::Operator(o.op)),
            (None, (Some(o), None)) => Some(StepOperation::Quantifier {
                kind: o.kind,
                level: o.variable,
            }),
            (None, (None, Some(o))) => Some(StepOperation::Restriction {
                level: o.variable,
                value: o.value,
            }),
            (None, (None, None)) => Some(StepOperation::Choice),
            _ => None,
        }
    }
}

impl Carried for StepOperation {
    ghost use Rattle.sweep_operations.specs.OperationWords.{step_spelling};

    ghost count = { step_spelling.count };

    ghost words = { step_spelling.words };

    ghost is_value = { step_spelling.is_value };

    fn put(&self, into: &mut Words) {
        self.parts().put(into);
    }

    fn put_none(into: &mut Words) {
        Operations::put_none(into);
    }

    fn get(from: &mut Words) -> Option<StepOperation> {
        let parts = Operations::get(from)?;
        StepOperation::of(parts)
    }

    fn get_none(from: &mut Words) -> bool {
        Operations::get_none(from)
    }

    ghost long = { step_spelling.long };

    ghost fits = { step_spelling.fits };

    ghost differ = { step_spelling.differ };
}
