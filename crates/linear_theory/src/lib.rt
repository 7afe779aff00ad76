//! Linear algebra over any finite field of characteristic 2. Start at specs/Linear, which has the words; specs/Laws states
//! the theorems. Each function below does nothing: its contract is a theorem. The lemmas stand in proofs/.
#![tactic(auto)]

ghost use Rattle.std.specs.Prelude.{ℕ};
ghost use Rattle.field_theory.specs.Field.{IsField};
ghost use Rattle.linear_theory.specs.Laws.{ExchangeLaw, RowOperationsLaw, RankLaw, PartsLaw, ProductsLaw, ResidueLaw, DualLaw, InverseLaw, EquationsLaw, ReducedLaw};

/// Independent lists are no more than lists of which they are combinations (the exchange lemma of Steinitz), so n + 1 lists
/// of length n are dependent.
pub fn independent_lists_are_few()
    ensures { (size : ℕ) (mul : ℕ → ℕ → ℕ) → IsField size mul → ExchangeLaw size mul }
{}

/// Row operations keep the combinations of the rows, and rows with the same combinations have the same rank.
pub fn row_operations_keep_combinations()
    ensures { (size : ℕ) (mul : ℕ → ℕ → ℕ) → IsField size mul → RowOperationsLaw size mul }
{}

/// The rank is the greatest number of independent rows, and of independent columns.
pub fn rank_is_the_greatest_number()
    ensures { (size : ℕ) (mul : ℕ → ℕ → ℕ) → IsField size mul → RankLaw size mul }
{}

/// One more row or column adds 0 or 1 to the rank of the first rows and columns, and what a row adds never falls as columns
/// are added.
pub fn ranks_of_parts_step_by_one()
    ensures { (size : ℕ) (mul : ℕ → ℕ → ℕ) → IsField size mul → PartsLaw size mul }
{}

/// A sum of k products of a column and a row has rank k at most; so the matrix of syndromes has at most the rank of the
/// error's weight.
pub fn sums_of_products_have_small_rank()
    ensures { (size : ℕ) (mul : ℕ → ℕ → ℕ) → IsField size mul → ProductsLaw size mul }
{}

/// At a candidate exactly one value keeps the rank.
pub fn one_value_keeps_the_rank()
    ensures { (size : ℕ) (mul : ℕ → ℕ → ℕ) → IsField size mul → ResidueLaw size mul }
{}

/// n independent lists of length n have exactly one dual list, and every list is the combination of the dual list by its
/// products with them.
pub fn independent_lists_have_one_dual()
    ensures { (size : ℕ) (mul : ℕ → ℕ → ℕ) → IsField size mul → DualLaw size mul }
{}

/// A square matrix has a left inverse exactly where its rows are independent.
pub fn inverses_belong_to_independent_rows()
    ensures { (size : ℕ) (mul : ℕ → ℕ → ℕ) → IsField size mul → InverseLaw size mul }
{}

/// Equations that have a solution have exactly one that is 0 at the free columns: those that are combinations of the
/// columns before them.
pub fn equations_have_one_chosen_solution()
    ensures { (size : ℕ) (mul : ℕ → ℕ → ℕ) → IsField size mul → EquationsLaw size mul }
{}

/// There is at most one reduced row echelon form with given combinations; its pivots are the columns that are not free.
pub fn reduced_form_is_unique()
    ensures { (size : ℕ) (mul : ℕ → ℕ → ℕ) → IsField size mul → ReducedLaw size mul }
{}
