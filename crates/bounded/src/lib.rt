// A list of at most so many elements, in an array: fixed memory, and no heap.
#![tactic(auto)]

ghost use Rattle.std.specs.Prelude.{◌≡◌, ◌==◌, ◌≤◌, Bool, [], length, take, filter, slice_get};
ghost use Rattle.std.specs.List.{prefix_len};
ghost use Rattle.bounded.specs.Bounds.{add_answer, push_within, insert_within};
ghost use Rattle.bounded.specs.Fixed.{elements};

use crate::fixed::Fixed;
use std::marker::Model;

pub mod fixed;
#[cfg(test)]
mod tests;

// There is no room for one more.
#[derive(Clone, Copy, PartialEq, Eq, Debug)]
pub struct Full;

// Which elements stay. No closure, since a caller would have to vouch that it may be called.
pub trait Choice<T>: Copy {
    ghost chooses: { Self → T → Bool };

    fn chooses(self, element: T) -> bool
        ensures { result ≡ chooses self element };
}

// An array and a length: what std has of this kind lies on the heap.
#[derive(Clone, Drop)]
pub struct Bounded<T, const N: usize> {
    slots: [T; N],
    len: usize,
}

// Clauses see the elements, in order.
impl<T, const N: usize> Model for Bounded<T, N> {
    ghost use Rattle.std.specs.Prelude.{◌≤◌, List, take};

    ghost Value = { List T };

    ghost view = { λ b. take b.len b.slots };

    ghost invariant = { λ b. b.len ≤ N };
}

impl<T: Copy, const N: usize> Bounded<T, N> {
    // An empty one. The filler stands in the array where no element is yet.
    pub fn new(filler: T) -> Self
        ensures { result ≡ [] }
    {
        Bounded {
            slots: [filler; N],
            len: 0,
        }
    }

    // Those of the elements for which there is room.
    pub fn from_slice(elements: &[T], filler: T) -> Self
        ensures { result ≡ take N elements.now }
    {
        let mut slots = [filler; N];
        let len = elements.len().min(N);
        slots[..len].copy_from_slice(&elements[..len]);
        Bounded { slots, len }
    }

    pub fn len(&self) -> usize
        ensures value { result ≡ length self.now }
        ensures few { result ≤ N }
    {
        self.as_slice().len()
    }

    pub fn is_empty(&self) -> bool
        ensures { result ≡ (length self.now == 0) }
    {
        self.len == 0
    }

    pub fn as_slice(&self) -> &[T]
        ensures value { result.now ≡ self.now }
        ensures few { length result.now ≤ N }
    {
        &self.slots[..self.len]
    }

    // The same elements, in a list that can be copied.
    pub fn fixed(&self) -> Fixed<T, N>
        ensures { elements result ≡ self.now }
    {
        Fixed::of(self.slots, self.len)
    }

    // The k-th element from 0.
    pub fn get(&self, k: usize) -> Option<T>
        ensures { result ≡ slice_get self.now k }
    {
        self.as_slice().get(k).copied()
    }

    // Refused, with nothing changed, where there are N.
    pub fn push(&mut self, element: T) -> Result<(), Full>
        ensures value { result ≡ add_answer N self.old }
        ensures after { self.new ≡ push_within N self.old element }
    {
        self.insert(self.len, element)
    }

    // Puts the element before the k-th, or at the end where there is none.
    // Refused, with nothing changed, where there are N.
    pub fn insert(&mut self, k: usize, element: T) -> Result<(), Full>
        ensures value { result ≡ add_answer N self.old }
        ensures after { self.new ≡ insert_within N self.old k element }
    {
        if self.len == N {
            return Err(Full);
        }
        let k = k.min(self.len);
        self.slots.copy_within(k..self.len, k + 1);
        self.slots[k] = element;
        self.len += 1;
        Ok(())
    }

    // Keeps the chosen elements, in their order.
    pub fn retain<C: Choice<T>>(&mut self, choice: C)
        ensures { self.new ≡ filter (C.Choice.chooses choice) self.old }
    {
        let kept = to_front(&mut self.slots[..self.len], choice);
        self.len = kept;
    }

    // Keeps only the first n elements.
    pub fn truncate(&mut self, n: usize)
        ensures { self.new ≡ take n self.old }
    {
        if n < self.len {
            self.len = n;
        }
    }
}

// How many elements are chosen at the front, before the first that is not.
fn chosen_front<T: Copy, C: Choice<T>>(elements: &[T], choice: C) -> usize
    ensures { result ≡ prefix_len (C.Choice.chooses choice) elements.now }
{
    for (k, element) in elements.iter().enumerate() {
        if !choice.chooses(*element) {
            return k;
        }
    }
    elements.len()
}

// Moves the chosen elements to the front, in their order, and counts them.
// By index, since what it reads and what it writes lie in one slice.
fn to_front<T: Copy, C: Choice<T>>(elements: &mut [T], choice: C) -> usize
    ensures chosen { take result elements.new ≡ filter (C.Choice.chooses choice) elements.old }
    ensures bound { result ≤ length elements.old }
{
    // where nothing is dropped, nothing is moved
    let front = chosen_front(elements, choice);
    let mut kept = front;
    for k in front..elements.len() {
        if choice.chooses(elements[k]) {
            elements[kept] = elements[k];
            kept += 1;
        }
    }
    kept
}
