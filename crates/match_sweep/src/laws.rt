ghost use Rattle.match_sweep.specs.Laws.{SweepsAreCarried, TurnsAreCarried};

/// A sweep's fills are those of its pair's book: each maker rests with the fill's lots at least. Carried out, they leave
/// the book of the swept state.
pub fn sweeps_are_carried()
    ensures carried { SweepsAreCarried }
{}

/// The fills that a credit change makes in a pair are those of its book: each maker rests, and each taker, with the fill's
/// lots at least. Carried out, they leave the book of the state that they lead to.
pub fn turns_are_carried()
    ensures carried { TurnsAreCarried }
{}
