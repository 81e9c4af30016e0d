//! Laws of the definitions, for those who read them.
ghost use Rattle.client_desk.specs.Clients.{ClientsAreWithin, SidesHaveOneEntry};
ghost use Rattle.client_desk.specs.Draws.{FillsAreDrawn, StepsSettle};

/// After a legal history whose client commands passed no client has more filled and reserved than its limit.
pub fn clients_stay_within()
    ensures within { ClientsAreWithin }
{}

/// Each side of a fill of a legal history is of an order that one of its entries sent, so that it has the owner of that order and no
/// other.
pub fn sides_have_one_entry()
    ensures one { SidesHaveOneEntry }
{}

/// Each fill of a step draws on two orders: both rest, or one of them comes in with the step, and both have the lots that are
/// traded.
pub fn fills_are_drawn()
    ensures drawn { FillsAreDrawn }
{}

/// What rests after a step is what its fills leave, less what its outcome takes out.
pub fn steps_settle()
    ensures settles { StepsSettle }
{}
