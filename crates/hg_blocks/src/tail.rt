ghost use Rattle.std.specs.Prelude.{◌≡◌, ◌≤◌, length};

use std::marker::Model;

/// At most 64 items, which contracts see as a list.
#[derive(Drop)]
pub struct Tail<T> {
    items: Vec<T>,
}

impl<T> Model for Tail<T> {
    ghost use Rattle.std.specs.Prelude.{List, ◌≤◌, length};

    ghost Value = { List T };

    ghost view = { λ s. s.items.items };

    ghost invariant = { λ s. length s.items.items ≤ 64 };
}

impl<T> Tail<T> {
    /// These items. Takes no memory.
    pub fn of(items: Vec<T>) -> Tail<T>
        requires { length items.items ≤ 64 }
        ensures { result ≡ items.items }
    {
        Tail { items }
    }

    /// The items as a `Vec`, which takes over the memory.
    pub fn into_vec(self) -> Vec<T>
        ensures value { result.items ≡ self }
        ensures few { length self ≤ 64 }
    {
        self.items
    }
}
