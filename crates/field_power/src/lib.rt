//! Powers of the elements of a field, in as many steps as the exponent has bits.
#![tactic(auto)]

ghost use Rattle.std.specs.Prelude.{◌≡◌, ℕ, ◌<◌, ◌^◌};
ghost use Rattle.gf_theory.specs.Field.{gf_mul};
ghost use Rattle.curve_theory.specs.Curve.{power};

use gf_field::Field;

/// `x` to the power `k`, by squares. `0` to the power 0 is 1.
pub fn power<F: Field>(f: &F, x: u8, k: u32) -> u8
    requires { x < 2 ^ F.bits_of f.now }
    ensures power { result ≡ power (gf_mul (F.bits_of f.now) (F.modulus_of f.now)) x k }
    ensures symbol { result < 2 ^ F.bits_of f.now }
{
    // a symbol has two bits at least
    f.bits();
    let mut product = 1;
    let mut square = x;
    let mut rest = k;
    while rest > 0 {
        if rest % 2 == 1 {
            product = f.mul(product, square);
        }
        square = f.mul(square, square);
        rest /= 2;
    }
    product
}

#[cfg(test)]
mod tests {
    use super::power;
    use gf_field::PolyField;

    #[test]
    fn takes_powers(rt: HostRuntime) {
        let f = PolyField::new(2, 7).expect(&rt, "irreducible");
        assert_eq!(rt; power(&f, 2, 2), 3);
        assert_eq!(rt; power(&f, 0, 0), 1);
        assert_eq!(rt; power(&f, 0, 5), 0);
        // 65,535 is 0 modulo the order 3 of 2.
        assert_eq!(rt; power(&f, 2, 65_535), 1);
    }
}
