ghost use Rattle.std.specs.Prelude.{◌≡◌, ◌≤◌, length, ⊤};

use std::alloc::AllocError;

pub mod listing;

// At most `N` items, one behind another, in memory of its own. What finds no place in it is left out. The kit's
// ArrayVec is not Copy, and maps, reports and dial strings are. Copy and Clone are written out, since Clone has
// no derive beside ghost fields of a generic struct.
pub struct Row<T, const N: usize> {
    items: [T; N],
    len: usize,
    ghost full: { length items ≡ N },
    ghost within: { len ≤ N },
}

impl<T: Copy, const N: usize> Clone for Row<T, N> {
    ghost is_clone = { λ x y. y ≡ x };

    ghost is_infallible = { λ _. ⊤ };

    fn clone(&self) -> Result<Row<T, N>, AllocError> {
        Ok(*self)
    }
}

impl<T: Copy, const N: usize> Copy for Row<T, N> {}
