ghost use Rattle.std.specs.Prelude.{◌≡◌, ◌≤◌, [], ◌∷◌, ◌++◌, length, take, drop, set, slice_get};
ghost use Rattle.keypad.specs.Rows.{listed};

use crate::row::Row;

impl<T: Copy, const N: usize> Row<T, N> {
    // No item yet. Until they are used, the places hold the filler.
    pub fn of(filler: T) -> Row<T, N>
        ensures { listed result ≡ [] }
    {
        Row {
            items: [filler; N],
            len: 0,
        }
    }

    pub fn len(&self) -> usize
        ensures value { result ≡ length (listed self.now) }
        ensures bound { result ≤ N }
    {
        self.as_slice().len()
    }

    pub fn as_slice(&self) -> &[T]
        ensures value { result.now ≡ listed self.now }
        ensures bound { length result.now ≤ N }
    {
        &self.items[..self.len]
    }

    // The item with so many before it.
    pub fn get(&self, index: usize) -> Option<T>
        ensures { result ≡ slice_get (listed self.now) index }
    {
        self.as_slice().get(index).copied()
    }

    // One item more at the end.
    pub fn push(&mut self, item: T)
        ensures { listed self.new ≡ take N (listed self.old ++ item ∷ []) }
    {
        if self.len < N {
            self.items[self.len] = item;
            self.len += 1;
        }
    }

    // More items at the end, as many as there is room for.
    pub fn extend_from_slice(&mut self, more: &[T])
        ensures { listed self.new ≡ take N (listed self.old ++ more.now) }
    {
        for item in more {
            self.push(*item);
        }
    }

    // Another item in the place of one. Where none stands, nothing is changed.
    pub fn set(&mut self, index: usize, item: T)
        ensures { listed self.new ≡ set (listed self.old) index item }
    {
        if index < self.len {
            self.items[index] = item;
        }
    }

    // Takes so many items off the front.
    pub fn discard_front(&mut self, most: usize)
        ensures { listed self.new ≡ drop most (listed self.old) }
    {
        let off = most.min(self.len);
        self.items.rotate_left(off);
        self.len -= off;
    }
}
