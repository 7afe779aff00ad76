//! The table as a text.

ghost use Rattle.std.specs.Prelude.{ℕ, ◌≡◌, ◌<◌, ◌∷◌, ◌++◌, OnOk, IfOk, length};
ghost use Rattle.std.specs.Fmt.{decimal};
ghost use Rattle.std.specs.List.{flat_map};
ghost use Rattle.order_theory.specs.Codes.{AreAllMarked};
ghost use Rattle.order_bound.specs.TableText.{title, head_line, mark_text, entry_line, entry_of, IsTableOf};

use crate::distance::bound;
use ag_texts::LineBuf;
use eval_basis::{Checked, EvalBasis};
use gf_field::Field;
use std::alloc::{AllocError, Global};

/// The table of a basis: its order bound, and for each member its label, its pairs, its mark and its dual list, so that
/// `check_table` can check them without the basis. Some member is not checked.
pub fn table_text<F: Field>(
    alloc: Global,
    basis: &EvalBasis<F>,
    checked: &Checked,
) -> Result<Vec<u8>, AllocError>
    requires marks { length checked.now ≡ basis.now.n }
    requires some_free { AreAllMarked basis.now checked.now → ⊥ }
    ensures { IfOk result (λ v. IsTableOf basis.now checked.now v.items) }
{
    let Some(least) = bound(basis, checked) else {
        unreachable!()
    };
    let mut writer = Writer {
        text: Vec::new(alloc),
        piece: LineBuf::new(),
    };
    writer.head(basis.n(), checked.size(), least)?;
    for k in 0..basis.n() {
        writer.entry(basis, checked, k)?;
    }
    Ok(writer.text)
}

/// A text that grows, with a line to make its numbers in.
#[derive(Drop)]
struct Writer {
    text: Vec<u8>,
    piece: LineBuf,
}

impl Writer {
    /// A text.
    fn word(&mut self, word: &str) -> Result<(), AllocError>
        ensures { OnOk result (self.new.text.items ≡ self.old.text.items ++ word.now) }
    {
        self.text.extend_from_slice(word.as_bytes())
    }

    /// A space and a number.
    #[tactic(auto, using(ag_texts::proofs::Digits::twenty_digits))]
    fn number(&mut self, v: u64) -> Result<(), AllocError>
        ensures { OnOk result (self.new.text.items ≡ self.old.text.items ++ 32 ∷ decimal v) }
    {
        self.piece.clear();
        self.piece.word(" ");
        self.piece.number(v);
        self.text.extend_from_slice(self.piece.bytes())
    }

    /// A space and a mark.
    fn mark(&mut self, mark: bool) -> Result<(), AllocError>
        ensures { OnOk result (self.new.text.items ≡ self.old.text.items ++ 32 ∷ mark_text mark) }
    {
        if mark {
            self.word(" c")
        } else {
            self.word(" f")
        }
    }

    /// The symbols, a space before each.
    fn symbols(&mut self, symbols: &[u8]) -> Result<(), AllocError>
        ensures { OnOk result (self.new.text.items
            ≡ self.old.text.items ++ flat_map (λ x. 32 ∷ decimal x) symbols.now) }
    {
        for symbol in symbols {
            self.number(u64::from(*symbol))?;
        }
        Ok(())
    }

    /// The first two lines.
    fn head(&mut self, n: u32, checked: u32, least: u32) -> Result<(), AllocError>
        ensures { OnOk result (self.new.text.items
            ≡ self.old.text.items ++ (title ++ head_line n checked least)) }
    {
        self.word("agcode-bound 1\nn")?;
        self.number(u64::from(n))?;
        self.word(" checked")?;
        self.number(u64::from(checked))?;
        self.word(" bound")?;
        self.number(u64::from(least))?;
        self.word("\n")
    }

    /// The line of member k.
    fn entry<F: Field>(
        &mut self,
        basis: &EvalBasis<F>,
        checked: &Checked,
        k: u32,
    ) -> Result<(), AllocError>
        requires member { k < basis.now.n }
        requires marks { length checked.now ≡ basis.now.n }
        ensures { OnOk result (self.new.text.items
            ≡ self.old.text.items ++ entry_line (entry_of basis.now checked.now k)) }
    {
        self.word("label")?;
        self.number(u64::from(basis.label(k)))?;
        self.number(u64::from(basis.pairs(k)))?;
        self.mark(checked.holds(k))?;
        self.symbols(basis.dual(k))?;
        self.word("\n")
    }
}
