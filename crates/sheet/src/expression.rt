//! The leaves that come first, last and next in an expression (the construction of Berry and Sethi).

ghost use Rattle.std.specs.Prelude.{◌≡◌, ◌<◌, ◌&&◌, ◌||◌, length, if◌then◌else◌, bit_or};
ghost use Rattle.sheet.specs.Shapes.{Grown, Shaped};
ghost use Rattle.rows.specs.Steps.{Next};

use super::numbered::NumberedRows;
use super::sets::link;
use super::shape::Shape;
use rows::Row;

/// The shape of one part and then another.
fn in_turn(a: Shape, b: Shape) -> Shape
    ensures empty { result.empty ≡ (a.empty && b.empty) }
    ensures opening { result.opening ≡ (if a.empty then bit_or a.opening b.opening else a.opening) }
    ensures closing { result.closing ≡ (if b.empty then bit_or a.closing b.closing else b.closing) }
{
    let opening = if a.empty {
        a.opening | b.opening
    } else {
        a.opening
    };
    let closing = if b.empty {
        a.closing | b.closing
    } else {
        b.closing
    };
    Shape {
        empty: a.empty && b.empty,
        opening,
        closing,
    }
}

/// The shape of one part or another.
fn either(a: Shape, b: Shape) -> Shape
    ensures empty { result.empty ≡ (a.empty || b.empty) }
    ensures opening { result.opening ≡ bit_or a.opening b.opening }
    ensures closing { result.closing ≡ bit_or a.closing b.closing }
{
    Shape {
        empty: a.empty || b.empty,
        opening: a.opening | b.opening,
        closing: a.closing | b.closing,
    }
}

impl<'a> NumberedRows<'a> {
    /// The shape of row `e`; for each leaf, the leaves that it can come right after in that row are added to `before`.
    #[tactic(auto, using(crate::proofs::Growing::seq_below, crate::proofs::Growing::alt_below, crate::proofs::Growing::many_below, crate::proofs::Growing::def_below))]
    pub fn expression(self, e: usize, before: &mut [u64; 64]) -> Shape
        requires { e < length self.rows.now }
        ensures shaped { Shaped self.entry.rows.now e result }
        ensures grown { Grown self.entry.rows.now before.old before.new (λ q p. Next self.entry.rows.now q p e) }
    {
        match self.rows[e] {
            Row::Empty => Shape {
                empty: true,
                opening: 0,
                closing: 0,
            },
            Row::Text | Row::Named(_, _) | Row::Any(_) => {
                let own = self.place(e);
                Shape {
                    empty: false,
                    opening: own,
                    closing: own,
                }
            }
            Row::Seq(a, b) => {
                let first = self.expression(usize::from(a), before);
                let second = self.expression(usize::from(b), before);
                link(before, first.closing, second.opening);
                in_turn(first, second)
            }
            Row::Alt(a, b) => {
                let first = self.expression(usize::from(a), before);
                let second = self.expression(usize::from(b), before);
                either(first, second)
            }
            Row::Many(a) => {
                let part = self.expression(usize::from(a), before);
                link(before, part.closing, part.opening);
                Shape {
                    empty: true,
                    opening: part.opening,
                    closing: part.closing,
                }
            }
            Row::Def(a) => self.expression(usize::from(a), before),
        }
    }
}
