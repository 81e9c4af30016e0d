ghost use Rattle.std.specs.Prelude.{◌≡◌};
ghost use Rattle.kept_call.specs.Ending.{ending_of};

use reply_lines::Ending;
use session_script::{EarlyEnd, TextEnd};

/// The last line of the output of a text that ended so.
pub fn ending_of(end: TextEnd) -> Ending
    ensures { result ≡ ending_of end }
{
    match end {
        TextEnd::EndLine => Ending::End,
        TextEnd::Early(EarlyEnd::Cut) => Ending::Cut,
        TextEnd::Early(EarlyEnd::ReadFault) => Ending::Read,
        TextEnd::Early(EarlyEnd::TooMuch) => Ending::Much,
    }
}
