//! Which definitions stand right below one another.

ghost use Rattle.std.specs.Prelude.{◌≡◌, ◌≢◌, ◌↔◌, IsTrue};
ghost use Rattle.weedle_layout.specs.Statements.{MayFollow};

/// What a definition is for the layout.
#[derive(Clone, Copy, Debug, PartialEq, Eq)]
pub enum Statement {
    /// A callback.
    Callback,
    /// A name for a type.
    Typedef,
    /// The use of a mixin.
    Includes,
    /// The older form of it.
    Implements,
    /// Any other definition, or one that takes more than one line.
    Other,
}

impl Statement {
    ghost use Rattle.weedle_layout.specs.declared.statement.Statement.TheVariants.{Other};

    /// Whether it may be right below a definition: a statement of one line below another such,
    /// and the use of a mixin below any. So a text keeps it there.
    pub fn may_follow(self, before: Statement) -> bool
        ensures { IsTrue result ↔ MayFollow self before }
    {
        match self {
            Statement::Includes | Statement::Implements => true,
            _ => self != Statement::Other && before != Statement::Other,
        }
    }

    /// Whether it is written right below a definition: below a statement of its kind. Where it is,
    /// it may be there.
    pub fn is_written_below(self, before: Statement) -> bool
        ensures alike { IsTrue result ↔ ((self ≡ before) × (self ≢ Other)) }
        ensures kept { IsTrue result → MayFollow self before }
    {
        self == before && self != Statement::Other
    }
}
