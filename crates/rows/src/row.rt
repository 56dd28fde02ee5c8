//! The rows of a sheet.

ghost use Rattle.rows.specs.Kinds.{is_definition_row, is_place_row};
ghost use Rattle.std.specs.Prelude.{◌≡◌};

/// What one row of a sheet says.
///
/// Parts are row numbers; a content is the number of a definition, counted over the definitions alone.
#[derive(Clone, Copy)]
pub enum Row {
    /// The empty forest.
    Empty,
    /// One text.
    Text,
    /// One node with this label, its content of this definition.
    Named(u16, u8),
    /// One node of any label, its content of this definition.
    Any(u8),
    /// The first part, then the second.
    Seq(u8, u8),
    /// One part or the other.
    Alt(u8, u8),
    /// The part, zero or more times.
    Many(u8),
    /// A definition with this part as its expression.
    Def(u8),
}

impl Row {
    /// Whether the row is a definition.
    pub fn is_definition(&self) -> bool
        ensures { result ≡ is_definition_row self.now }
    {
        matches!(self, Row::Def(_))
    }

    /// Whether the row is a place: a definition or a leaf.
    pub fn is_place(&self) -> bool
        ensures { result ≡ is_place_row self.now }
    {
        matches!(
            self,
            Row::Def(_) | Row::Text | Row::Named(_, _) | Row::Any(_)
        )
    }
}
