ghost use Rattle.std.specs.Prelude.{◌≡◌, List};

use std::marker::Model;

/// A list that was made once, over a vector. Contracts see the list.
#[derive(Drop)]
pub struct Items<T> {
    list: Vec<T>,
}

impl<T> Model for Items<T> {
    ghost Value = { List T };

    ghost view = { λ s. s.list.items };
}

impl<T> Items<T> {
    /// The list of a vector's items.
    pub fn of(list: Vec<T>) -> Items<T>
        ensures { result ≡ list.items }
    {
        Items { list }
    }

    /// The items, in order.
    pub fn items(&self) -> &[T]
        ensures { result.now ≡ self.now }
    {
        self.list.as_slice()
    }
}
