ghost use Rattle.std.specs.Prelude.{◌≡◌, ◌<◌, ◌+◌, ◌^◌, OnErr, OnOk, length, vec_capacity};
ghost use Rattle.fx_rules.specs.Lists.{total};
ghost use Rattle.fx_rules.specs.Depth.{any_price, fill_added};

use crate::orders::{Fill, Level};
use fx_amounts::{Memory, Price, Side};

/// How many levels of a side a local book shows at most.
pub const SHOWN_LEVELS: usize = 10;

/// The price at which an order of a side takes any price. It takes no memory.
pub fn any_price(side: Side) -> Price
    ensures value { result ≡ any_price side }
{
    match side {
        Side::Buy => Price::new(Price::MOST).unwrap(),
        Side::Sell => Price::new(Price::LEAST).unwrap(),
    }
}

/// Adds a fill behind levels: more lots at the last price, or one more level. At `Memory` there was none for that level,
/// and the levels are as they were.
pub fn add_fill(levels: &mut Vec<Level>, fill: &Fill) -> Result<(), Memory>
    requires lots { total (λ level. level.lots) levels.old.items + fill.now.lots < 2 ^ 64 }
    ensures levels { OnOk result (levels.new.items ≡ fill_added levels.old.items fill.now) }
    ensures memory { OnErr result (levels.new.items ≡ levels.old.items) }

    // It is out of memory only where the levels that are due have no room in the list.
    ensures wanted { OnErr result (vec_capacity levels.old < length (fill_added levels.old.items fill.now)) }
{
    let price = fill.price;
    let lots = u64::from(fill.lots.count());
    match levels.pop() {
        Some(last) if last.price == price => levels.push_reserved(Level {
            price,
            lots: last.lots + lots,
        }),
        Some(last) => {
            levels.push_reserved(last);
            levels.push(Level { price, lots })?;
        }
        None => levels.push(Level { price, lots })?,
    }
    Ok(())
}
