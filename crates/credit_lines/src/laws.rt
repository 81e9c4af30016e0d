ghost use Rattle.credit_lines.specs.Laws.{SweepsArePaid, TurnsArePaid, StepsArePaid};

/// The lines pay for a sweep's fills in order. One take for each of them leaves the lines of the swept state.
pub fn sweeps_are_paid()
    ensures paid { SweepsArePaid }
{}

/// The lines pay for the fills that a credit change makes in a pair, in order. One take for each of them leaves the lines of
/// the state that they lead to.
pub fn turns_are_paid()
    ensures paid { TurnsArePaid }
{}

/// The lines pay for the fills of each step of the market, in order, once its command has set the limit or the total, or given back
/// the units, that it asks for. One take for each of them leaves the lines of the state after the step.
pub fn steps_are_paid()
    ensures paid { StepsArePaid }
{}
