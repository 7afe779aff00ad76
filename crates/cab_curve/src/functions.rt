//! The functions of a curve: the monomials `x^i·y^j` with `j < a`, by rising weight.

ghost use Rattle.std.specs.Prelude.{◌≡◌, ℕ, ◌+◌, ◌<◌, ◌≤◌, IfOk};
ghost use Rattle.curve_theory.specs.Semigroup.{function_count, weight_at, place_of, x_exponent, y_exponent};
ghost use Rattle.cab_curve.specs.Functions.{IsFunctionTable};

use std::alloc::{AllocError, Global};
use weight_semi::Semi;

/// The function `x^i·y^j`, and its weight.
#[derive(Clone, Copy)]
pub struct Function {
    pub weight: u32,
    pub i: u32,
    pub j: u32,
}

/// The functions up to a weight, and for each weight up to it how many functions stand before it.
#[derive(Drop)]
pub struct FunctionTable {
    pub rows: Vec<Function>,
    pub places: Vec<u32>,
}

/// The functions whose weights are at most `top`.
pub fn functions_up_to(alloc: Global, semi: &Semi, top: u32) -> Result<FunctionTable, AllocError>
    requires { top ≤ 65535 }
    ensures { IfOk result (λ t.
        IsFunctionTable semi.now.a semi.now.b top t.rows.items t.places.items) }
{
    let mut rows = Vec::new(alloc);
    let mut places = Vec::new(alloc);
    for weight in 0..top + 1 {
        places.push(rows.len() as u32)?;
        if let Some((i, j)) = semi.exps(weight) {
            rows.push(Function { weight, i, j })?;
        }
    }
    Ok(FunctionTable { rows, places })
}
