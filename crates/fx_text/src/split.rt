ghost use Rattle.std.specs.Prelude.{◌≡◌};
ghost use Rattle.fx_text.specs.Fields.{fields_of};

use crate::field::Fields;

/// The fields of a line, which blanks separate. Takes no memory, and looks at each byte once.
pub fn fields(line: &[u8]) -> Fields<'_>
    ensures { result ≡ fields_of line.now }
{
    Fields::of(line)
}
