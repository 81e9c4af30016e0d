ghost use Rattle.std.specs.Prelude.{◌≡◌};
ghost use Rattle.fx_amounts.specs.Side.{opposite};

/// The side of an order: whether its owner buys or sells the base currency.
#[derive(Clone, Copy, Debug, PartialEq, Eq, Hash)]
pub enum Side {
    Buy,
    Sell,
}

impl Side {
    /// The side that this one trades with.
    pub fn opposite(self) -> Side
        ensures { result ≡ opposite self }
    {
        match self {
            Side::Buy => Side::Sell,
            Side::Sell => Side::Buy,
        }
    }
}
