//! Laws of the definitions, for those who read them.
ghost use Rattle.net_settle.specs.Payments.{LeastDay, LeastEachTwo, FlowsAreNets};

/// A list that settles a day pays of each currency at least what its banks are owed.
pub fn least_day()
    ensures least { LeastDay }
{}

/// A list that settles each two banks pays of each currency at least what `bilateral` pays.
pub fn least_each_two()
    ensures least { LeastEachTwo }
{}

/// What a bank is to get from each other one adds up to its net.
pub fn flows_are_nets()
    ensures nets { FlowsAreNets }
{}
