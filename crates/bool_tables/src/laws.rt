//! Laws of the tables of steps, each the contract of a function that does nothing.
ghost use Rattle.std.specs.Prelude.{◌≡◌, ◌<◌, ◌^◌, ℕ, suc, Bool, List, length, map};
ghost use Rattle.bool_tables.specs.Tables.{low_half, high_half, half_where, value_at, table_with};
ghost use Rattle.bool_tables.specs.Steps.{quant_value, table_of_step, step_table};
ghost use Rattle.bool_tables.specs.declared.steps.Bin.{Bin};
ghost use Rattle.bool_tables.specs.declared.steps.Quant.{Quant};
ghost use Rattle.bool_tables.specs.declared.steps.Step.TheVariants.{Pair, Ite, Quantify, Restrict};

/// An operation on two diagrams works on each half of their tables alone.
pub fn pairs_by_halves()
    ensures low { (h : ℕ) (tables : List (List Bool)) (op : Bin) (left right : ℕ)
        → low_half h (step_table (suc h) tables (Pair op left right)) ≡ step_table h (map (low_half h) tables)
        (Pair op left right) }
    ensures high { (h : ℕ) (tables : List (List Bool)) (op : Bin) (left right : ℕ)
        → high_half h (step_table (suc h) tables (Pair op left right)) ≡ step_table h (map (high_half h) tables)
        (Pair op left right) }
{}

/// So does the choice between two diagrams by a third.
pub fn choices_by_halves()
    ensures low { (h : ℕ) (tables : List (List Bool)) (test if_one if_zero : ℕ)
        → low_half h (step_table (suc h) tables (Ite test if_one if_zero)) ≡ step_table h (map (low_half h) tables)
        (Ite test if_one if_zero) }
    ensures high { (h : ℕ) (tables : List (List Bool)) (test if_one if_zero : ℕ)
        → high_half h (step_table (suc h) tables (Ite test if_one if_zero)) ≡ step_table h (map (high_half h) tables)
        (Ite test if_one if_zero) }
{}

/// So does the restriction of a variable behind the first, which is one level less deep in the halves.
pub fn restricts_by_halves()
    ensures low { (h : ℕ) (tables : List (List Bool)) (operand level : ℕ) (value : Bool) → level < h
        → low_half h (step_table (suc h) tables (Restrict operand (suc level) value)) ≡ step_table h
        (map (low_half h) tables) (Restrict operand level value) }
    ensures high { (h : ℕ) (tables : List (List Bool)) (operand level : ℕ) (value : Bool) → level < h
        → high_half h (step_table (suc h) tables (Restrict operand (suc level) value)) ≡ step_table h
        (map (high_half h) tables) (Restrict operand level value) }
{}

/// So does a quantifier over a variable behind the first.
pub fn quantifies_by_halves()
    ensures low { (h : ℕ) (tables : List (List Bool)) (kind : Quant) (operand level : ℕ) → level < h
        → low_half h (step_table (suc h) tables (Quantify kind operand (suc level))) ≡ step_table h
        (map (low_half h) tables) (Quantify kind operand level) }
    ensures high { (h : ℕ) (tables : List (List Bool)) (kind : Quant) (operand level : ℕ) → level < h
        → high_half h (step_table (suc h) tables (Quantify kind operand (suc level))) ≡ step_table h
        (map (high_half h) tables) (Quantify kind operand level) }
{}

/// A restriction of the first variable leaves in both halves the half in which the variable has that value.
pub fn restricts_the_first()
    ensures low { (h : ℕ) (tables : List (List Bool)) (operand : ℕ) (value : Bool) →
        length (table_of_step tables operand) ≡ 2 ^ suc h
        → low_half h (step_table (suc h) tables (Restrict operand 0 value)) ≡ half_where h value
        (table_of_step tables operand) }
    ensures high { (h : ℕ) (tables : List (List Bool)) (operand : ℕ) (value : Bool) →
        length (table_of_step tables operand) ≡ 2 ^ suc h
        → high_half h (step_table (suc h) tables (Restrict operand 0 value)) ≡ half_where h value
        (table_of_step tables operand) }
{}

/// A quantifier over the first variable leaves in both halves what it makes of the two halves, value by value.
pub fn quantifies_the_first()
    ensures low { (h : ℕ) (tables : List (List Bool)) (kind : Quant) (operand : ℕ) →
        let t = table_of_step tables operand in
        low_half h (step_table (suc h) tables (Quantify kind operand 0))
        ≡ table_with h (λ p. quant_value kind (value_at (low_half h t) p) (value_at (high_half h t) p)) }
    ensures high { (h : ℕ) (tables : List (List Bool)) (kind : Quant) (operand : ℕ) →
        let t = table_of_step tables operand in
        high_half h (step_table (suc h) tables (Quantify kind operand 0))
        ≡ table_with h (λ p. quant_value kind (value_at (low_half h t) p) (value_at (high_half h t) p)) }
{}
