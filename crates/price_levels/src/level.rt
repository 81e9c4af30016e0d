ghost use Rattle.std.specs.Prelude.{◌≡◌, ◌+◌, ◌-◌, ◌≤◌, ◌<◌, ◌^◌};
ghost use Rattle.price_levels.specs.Ticks.{first_left, last_left, mark_of, with_order, without_order};

use fx_amounts::Lots;

/// The resting orders of one owner and side at one price: the lots that they have left, and the ends of the chain in which they are
/// linked by arrival. It has 16 bytes.
#[derive(Clone, Copy, Debug, PartialEq, Eq)]
pub struct Level {
    /// The lots that its orders have left; 0 where there is none.
    pub lots: u64,
    /// The place of the order that arrived first, in the list of orders; 0 where there is none.
    pub first: u32,
    /// The place of the order that arrived last; 0 where there is none.
    pub last: u32,
}

impl Level {
    /// A level without orders.
    pub const NONE: Level = Level {
        lots: 0,
        first: 0,
        last: 0,
    };

    /// 1 where it has orders, else 0.
    pub(crate) fn mark(self) -> usize
        ensures { result ≡ mark_of self }
    {
        if self.lots == 0 { 0 } else { 1 }
    }

    /// With one order more, behind all others.
    pub(crate) fn with(self, place: u32, lots: Lots) -> Level
        requires fits { self.lots + lots < 2 ^ 64 }
        ensures { result ≡ with_order self place lots }
    {
        Level {
            lots: self.lots + u64::from(lots.count()),
            first: if self.lots == 0 { place } else { self.first },
            last: place,
        }
    }

    /// With so many lots less, and the same orders.
    pub(crate) fn lowered(self, lots: Lots) -> Level
        requires above { lots < self.lots }
        ensures { result ≡ record self { lots = self.lots - lots } }
    {
        Level {
            lots: self.lots - u64::from(lots.count()),
            first: self.first,
            last: self.last,
        }
    }

    /// Without one of its orders, which had so many lots left and stood between two others, where there are such.
    pub(crate) fn without(self, lots: Lots, before: Option<u32>, behind: Option<u32>) -> Level
        requires has { lots ≤ self.lots }
        ensures { result ≡ without_order self lots before behind }
    {
        let left = self.lots - u64::from(lots.count());
        if left == 0 {
            return Level::NONE;
        }
        Level {
            lots: left,
            first: self.first_left(before, behind),
            last: self.last_left(before, behind),
        }
    }

    /// The place of the order that is first once one between two others is gone.
    fn first_left(self, before: Option<u32>, behind: Option<u32>) -> u32
        ensures { result ≡ first_left self before behind }
    {
        match (before, behind) {
            (None, Some(behind)) => behind,
            _ => self.first,
        }
    }

    /// The place of the order that is last once one between two others is gone.
    fn last_left(self, before: Option<u32>, behind: Option<u32>) -> u32
        ensures { result ≡ last_left self before behind }
    {
        match (before, behind) {
            (Some(before), None) => before,
            _ => self.last,
        }
    }
}
