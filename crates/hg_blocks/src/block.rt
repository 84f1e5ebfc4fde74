ghost use Rattle.std.specs.Prelude.{◌≡◌, length};

/// 64 items that no longer change.
#[derive(Drop)]
pub struct Block<T> {
    items: Vec<T>,
    pub ghost full: { length items.items ≡ 64 },
}

impl<T> Block<T> {
    /// These 64 items. Takes no memory.
    pub fn of(items: Vec<T>) -> Block<T>
        requires { length items.items ≡ 64 }
        ensures { result.items ≡ items }
    {
        Block { items }
    }

    /// The items, in order.
    pub fn as_slice(&self) -> &[T]
        ensures value { result.now ≡ self.now.items.items }
        ensures len { length result.now ≡ 64 }
    {
        self.items.as_slice()
    }

    /// The items, out of their block.
    pub fn into_vec(self) -> Vec<T>
        ensures { result ≡ self.items }
    {
        self.items
    }
}
