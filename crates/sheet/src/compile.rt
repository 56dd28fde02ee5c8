//! Working out the tables of a sheet.

ghost use Rattle.std.specs.Prelude.{◌≡◌, ℕ, length, slice_index};
ghost use Rattle.sheet.specs.Compiled.{AnyAt, Compiled, Homes, IsKind, Labels, NamedAt, Tabled, TextAt};
ghost use Rattle.sheet.specs.Shapes.{EndsAt, EndsBelow, Grown, Holds, LeadsAt, LeadsBelow};
ghost use Rattle.rows.specs.Sheet.{at};
ghost use Rattle.rows.specs.declared.row.Row.TheVariants.{Def as def};
ghost use Rattle.sheet.specs.Standing.{SetOf};
ghost use Rattle.std.proofs.Math.Option.{some};

use super::numbered::NumberedRows;
use super::sets::{bit, link};
use super::tables::{LeafKind, Tables};
use rows::Row;

/// The kind of leaf that a row is, if it is a leaf.
fn kind_of(row: Row) -> Option<LeafKind>
    ensures { IsKind row result }
{
    match row {
        Row::Text => Some(LeafKind::Text),
        Row::Named(_, _) => Some(LeafKind::Named),
        Row::Any(_) => Some(LeafKind::Any),
        _ => None,
    }
}

// The loops over the rows go by index, since a row's number is what its place is looked up by.

impl<'a> NumberedRows<'a> {
    /// What the definition at row `e` with expression `x` adds to `before`, and the places after which it can end.
    fn define(self, e: usize, x: usize, before: &mut [u64; 64]) -> u64
        requires { at self.rows.now e ≡ some (def x) }
        ensures ends { SetOf self.entry.rows.now result (EndsAt self.entry.rows.now e x) }
        ensures grown { Grown self.entry.rows.now before.old before.new (LeadsAt self.entry.rows.now e x) }
    {
        let shape = self.expression(x, before);
        let own = self.place(e);
        link(before, own, shape.opening);
        if shape.empty {
            own | shape.closing
        } else {
            shape.closing
        }
    }

    /// What all definitions add to `before`, and the places after which one can end.
    fn define_all(self, before: &mut [u64; 64]) -> u64
        requires { (j : ℕ) → slice_index before.old j ≡ 0 }
        ensures ends { SetOf self.entry.rows.now result (EndsBelow self.entry.rows.now (length self.entry.rows.now)) }
        ensures before { Tabled self.entry.rows.now before.new (LeadsBelow self.entry.rows.now (length self.entry.rows.now)) }
    {
        let mut ends = 0;
        for (e, row) in self.rows.iter().enumerate() {
            if let Row::Def(x) = *row {
                ends |= self.define(e, usize::from(x), before);
            }
        }
        ends
    }

    /// The leaves for one text, for a node with a label, and for a node of any label.
    fn leaves(self) -> (u64, u64, u64)
        ensures texts { SetOf self.entry.rows.now result.0 (TextAt self.entry.rows.now) }
        ensures named { SetOf self.entry.rows.now result.1 (NamedAt self.entry.rows.now) }
        ensures anys { SetOf self.entry.rows.now result.2 (AnyAt self.entry.rows.now) }
    {
        let mut texts = 0;
        let mut named = 0;
        let mut anys = 0;
        for (p, row) in self.rows.iter().enumerate() {
            match kind_of(*row) {
                Some(LeafKind::Text) => texts |= self.place(p),
                Some(LeafKind::Named) => named |= self.place(p),
                Some(LeafKind::Any) => anys |= self.place(p),
                None => {}
            }
        }
        (texts, named, anys)
    }

    /// The labels of the leaves that have one.
    fn fill_labels(self, labels: &mut [u16; 64])
        ensures { Labels self.entry.rows.now (length self.entry.rows.now) labels.new }
    {
        for (p, row) in self.rows.iter().enumerate() {
            if let Row::Named(label, _) = *row {
                labels[usize::from(self.numbers[p])] = label;
            }
        }
    }

    /// The places of the definitions.
    fn fill_homes(self, homes: &mut [u8; 64])
        ensures { Homes self.entry.rows.now homes.new }
    {
        // Counted by hand: tried `for (d, (_, number)) in rows.iter().zip(numbers).filter(..).enumerate()`, where a proof
        // lacks that `d` stays below 64, and at the end that the items were the definitions, each at its number.
        // Written by index, since a proof knows no element that was written through `iter_mut`.
        let mut count: usize = 0;
        for (e, row) in self.rows.iter().enumerate() {
            if row.is_definition() {
                homes[count] = self.numbers[e];
                count += 1;
            }
        }
    }

    /// The leaves that have each definition as their content.
    fn fill_holders(self, homes: &[u8; 64], holders: &mut [u64; 64])
        requires homes { Homes self.rows.now homes.now }
        requires none { (j : ℕ) → slice_index holders.old j ≡ 0 }
        ensures { Tabled self.entry.rows.now holders.new (Holds self.entry.rows.now) }
    {
        for (p, row) in self.rows.iter().enumerate() {
            if let Row::Named(_, d) | Row::Any(d) = *row {
                link(holders, self.place(p), bit(homes[usize::from(d)]));
            }
        }
    }

    /// The tables of the sheet.
    pub fn tables(self) -> Tables
        ensures { Compiled self.entry.rows.now result }
    {
        let mut before = [0u64; 64];
        let ends = self.define_all(&mut before);
        let (texts, named, anys) = self.leaves();
        let mut labels = [0u16; 64];
        self.fill_labels(&mut labels);
        let mut homes = [0u8; 64];
        self.fill_homes(&mut homes);
        let mut holders = [0u64; 64];
        self.fill_holders(&homes, &mut holders);
        Tables {
            ends,
            before,
            texts,
            named,
            anys,
            labels,
            holders,
            top: bit(homes[0]),
        }
    }
}
