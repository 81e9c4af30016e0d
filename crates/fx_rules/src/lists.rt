ghost use Rattle.std.specs.Prelude.{◌≡◌, ◌<◌, length, IfOk, OnErr};

use fx_amounts::Memory;
use std::marker::Model;

/// Items in order, over a `Vec`. Contracts see the list of the items alone.
#[derive(Debug, Drop)]
pub struct ListOf<T> {
    items: Vec<T>,
}

impl<T> Model for ListOf<T> {
    ghost use Rattle.std.specs.Prelude.{List};

    ghost Value = { List T };

    ghost view = { λ l. l.items.items };
}

impl<T> ListOf<T> {
    /// The list of these items. It takes no memory.
    pub fn from_vec(items: Vec<T>) -> Self
        ensures items { result ≡ items.items }
    {
        ListOf { items }
    }

    /// The items, in order. It takes no memory.
    pub fn as_slice(&self) -> &[T]
        ensures items { result.now ≡ self.now }
    {
        self.items.as_slice()
    }
}

impl<T: Copy> ListOf<T> {
    /// A list of the same items, in memory of its own; one without items takes none. At `Memory` there is no new list, and
    /// this one is as it was.
    pub fn copy(&self) -> Result<Self, Memory>
        ensures equal { IfOk result (λ l. l ≡ self.now) }
        ensures wanted { OnErr result (0 < length self.now) }
    {
        let mut copied = Vec::new(*self.items.allocator());
        copied.reserve(self.items.len())?;
        for item in self.items.as_slice() {
            copied.push_reserved(*item);
        }
        Ok(ListOf { items: copied })
    }
}
