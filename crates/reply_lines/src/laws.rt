ghost use Rattle.reply_lines.specs.Laws.{DesksAreTold, OneOutput, OutputFromBooks};

/// A legal history has one output with a number of strays and an ending: there is one, and any other is equal to it.
pub fn one_output()
    ensures agree { OneOutput }
{}

/// The whole output is header, journal and desks, and then what `write_from_books` writes.
pub fn output_from_books()
    ensures agree { OutputFromBooks }
{}

/// What one sender is told of a history is what its desk has, line by line, but for the sender's name in front.
pub fn desks_are_told()
    ensures agree { DesksAreTold }
{}
