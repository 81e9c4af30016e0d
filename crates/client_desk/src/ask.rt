use fx_amounts::Units;

/// What a client's command is answered before it is sent.
#[derive(Clone, Copy, Debug, PartialEq, Eq)]
pub enum Ask {
    /// It may be sent.
    Pass,
    /// The order costs more than the client has free, in credit units.
    Short { free: Units },
    /// It is not a command about an order of the client's own.
    Barred,
}
