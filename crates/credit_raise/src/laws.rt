ghost use Rattle.credit_raise.specs.Laws.{LimitsSetOthersApart, RaisesBegin, RaisesGoOn, TwoBanksTurn};

/// Where nothing rests crossed in a pair but between two banks, only their orders can meet: the fills of their turns are
/// those of all orders' turns.
pub fn two_banks_turn()
    ensures turn { TwoBanksTurn }
{}

/// A limit that one bank sets on another brings only orders of these two together, where nothing rested crossed before.
pub fn limits_set_others_apart()
    ensures apart { LimitsSetOthersApart }
{}

/// A credit change begins in the state of any legal history, in any pair: its limit is set, and nothing rests crossed but
/// between its two banks.
pub fn raises_begin()
    ensures begin { RaisesBegin }
{}

/// A credit change goes from pair to pair: once the fills of one pair are made, the next one's turn comes with what they
/// leave of the line.
pub fn raises_go_on()
    ensures go_on { RaisesGoOn }
{}
