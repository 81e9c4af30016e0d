ghost use Rattle.program_calls.specs.LoadSummary.{SummariesAgree};

/// The numbers that a session is made from determine its summary: neither workers nor threads have a part in it.
pub fn summaries_agree()
    ensures agree { SummariesAgree }
{}
