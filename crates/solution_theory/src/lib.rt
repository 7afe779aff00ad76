//! Solutions of linear equations over any field, by the columns that have no pivot. Definitions stand in specs/, lemmas in
//! proofs/; each function here does nothing, and its contract is a theorem.
#![tactic(auto)]

ghost use Rattle.std.specs.Prelude.{ℕ};
ghost use Rattle.field_theory.specs.Field.{IsField};
ghost use Rattle.solution_theory.specs.Solutions.{SolutionsLaw};

/// Of homogeneous equations, a free column has a solution that is 1 there and 0 after it. Past the last free column all
/// solutions of equations are the same; where no column is free there is one at most. The contract is the theorem.
pub fn free_columns_decide_solutions()
    ensures { (size : ℕ) (mul : ℕ → ℕ → ℕ) → IsField size mul → SolutionsLaw size mul }
{}
