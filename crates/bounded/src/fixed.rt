// A list that grows no more.
ghost use Rattle.std.specs.Prelude.{◌≡◌, ◌==◌, ◌≤◌, length, take, slice_get};
ghost use Rattle.bounded.specs.Fixed.{elements};

/// A list of at most N elements that grows no more, as plain data: it is copied where a `Bounded` is moved.
// No model, since a copy takes every slot, and a model of the elements forgets those past the last; and no ghost
// field, over which `Clone` is not derived here. So the length is held to the slots where it is read.
#[derive(Clone, Copy)]
pub struct Fixed<T, const N: usize> {
    slots: [T; N],
    len: usize,
}

impl<T: Copy, const N: usize> Fixed<T, N> {
    // The first so many of the slots.
    pub(crate) fn of(slots: [T; N], len: usize) -> Fixed<T, N>
        ensures { elements result ≡ take len slots }
    {
        Fixed { slots, len }
    }

    /// The elements, in order.
    pub fn as_slice(&self) -> &[T]
        ensures value { result.now ≡ elements self.now }
        ensures few { length result.now ≤ N }
    {
        &self.slots[..self.len.min(N)]
    }

    /// How many elements there are.
    pub fn len(&self) -> usize
        ensures value { result ≡ length (elements self.now) }
        ensures few { result ≤ N }
    {
        self.as_slice().len()
    }

    pub fn is_empty(&self) -> bool
        ensures { result ≡ (length (elements self.now) == 0) }
    {
        self.len() == 0
    }

    /// The k-th element from 0.
    pub fn get(&self, k: usize) -> Option<T>
        ensures { result ≡ slice_get (elements self.now) k }
    {
        self.as_slice().get(k).copied()
    }
}
