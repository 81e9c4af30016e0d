ghost use Rattle.journal_check.specs.Laws.{OutputsAgree, OutputsList, VerdictsAgree};

/// An output tells its history: two legal histories with one output are one, with their sessions, strays and endings.
pub fn outputs_agree()
    ensures agree { OutputsAgree }
{}

/// An output lists its own session and history: what is read of its header and journal are the session and the entries' banks
/// and commands, where these are at most 2^28.
pub fn outputs_list()
    ensures lists { OutputsList }
{}

/// The definition of the verdict leaves no choice: a text has one verdict.
pub fn verdicts_agree()
    ensures agree { VerdictsAgree }
{}
