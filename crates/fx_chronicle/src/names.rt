use std::marker::Brand;

/// Names one opening, for contracts alone: the session that is traded, and the table of one `Blank`. All values with one
/// such type parameter are of that session and that opening. A program passes `Brand` for it, and its proof says what it
/// names there.
pub trait Naming {
    ghost use Rattle.atomic_table.specs.Seated.{TableId};
    ghost use Rattle.fx_rules.specs.Session.{Header};

    ghost session: { Header };

    ghost table: { TableId };
}

impl Naming for Brand {
    ghost use Rattle.fx_chronicle.specs.Faces.{no_session, no_table};

    ghost session = { no_session };

    ghost table = { no_table };
}
