// The rows of a sheet: at most 320 numbers of one width, which lie in the row itself.
ghost use Rattle.std.specs.Prelude.{◌≡◌, ◌<◌, ◌≤◌, List, [], ◌∷◌, ◌++◌, length, take, ℤ, pos, ⊤};
ghost use Rattle.sheet_words.specs.Number.{Range};
ghost use Rattle.sheet_form.specs.Sections.{i8, i16, i32};
ghost use Rattle.sheet_form.specs.Found.{range, Within};
ghost use Rattle.sheet_form.specs.Rows.{filled};

use crate::number::Bounds;
use std::alloc::AllocError;
use std::marker::Model;

// The numbers that a section can have, at most.
pub const MOST: usize = 320;

// A number that can stand in a row.
pub trait Word: Copy {
    // What the places hold in which no number stands.
    ghost zero: { Self };

    fn zero() -> Self
        ensures { result ≡ zero };
}

impl Word for i8 {
    ghost zero = { pos 0 };

    fn zero() -> Self {
        0
    }
}

impl Word for i16 {
    ghost zero = { pos 0 };

    fn zero() -> Self {
        0
    }
}

impl Word for i32 {
    ghost zero = { pos 0 };

    fn zero() -> Self {
        0
    }
}

// The places of a row, in a struct of their own, since the first of them are lent.
#[derive(Clone, Copy)]
struct Places<T> {
    words: [T; MOST],
}

// A row: its numbers, and zeros after them. A contract sees the list of its numbers. The kit's `ArrayVec` is no `Copy`.
pub struct Words<T: Word> {
    places: Places<T>,
    count: usize,
}

impl<T: Word> Model for Words<T> {
    ghost use Rattle.std.specs.Prelude.{◌≡◌, ◌≤◌, length, take};
    ghost use Rattle.std.proofs.Common.{sym};
    ghost use Rattle.sheet_form.specs.Rows.{Words as Numbers, words_code, filled};

    ghost Value = { Numbers T };

    ghost coded = { words_code T.code };

    ghost view = { λ r. record { items = take r.count r.places.words } };

    ghost invariant = { λ r. (r.count ≤ 320) × (length (take r.count r.places.words) ≡ r.count)
        × (r.places.words ≡ filled T.zero (take r.count r.places.words)) };

    ghost inverse = { λ v. record { places = record { words = filled T.zero v.items }; count = length v.items } };

    ghost inverse_ok = { λ r h i. record { places = record { words = sym h.2 i }; count = h.1 i } };
}

// The same row, and there is always memory for it.
impl<T: Word> Clone for Words<T> {
    ghost is_clone = { λ row copy. copy ≡ row };

    ghost is_infallible = { λ _. ⊤ };

    fn clone(&self) -> Result<Self, AllocError> {
        Ok(*self)
    }
}

impl<T: Word> Copy for Words<T> {}

impl<T: Word> Words<T> {
    // A row with no number.
    pub fn new() -> Self
        ensures { result.items ≡ [] }
    {
        Words {
            places: Places {
                words: [T::zero(); MOST],
            },
            count: 0,
        }
    }

    // These numbers.
    pub fn of(numbers: &[T]) -> Self
        requires { length numbers.now ≤ 320 }
        ensures { result.items ≡ numbers.now }
    {
        let mut row = Words::new();
        for x in numbers {
            row.push(*x);
        }
        row
    }

    pub fn len(&self) -> usize
        ensures value { result ≡ length self.now.items }
        ensures fits { result ≤ 320 }
    {
        self.count
    }

    // The numbers.
    pub fn as_slice(&self) -> &[T]
        ensures value { result.now ≡ self.now.items }
        ensures fits { length result.now ≤ 320 }
    {
        &self.places.words[..self.count]
    }

    // The numbers, and zeros up to 320 places.
    pub fn words(&self) -> [T; MOST]
        ensures { result ≡ filled T.zero self.now.items }
    {
        self.places.words
    }

    // One number more. There must be room.
    pub fn push(&mut self, x: T)
        requires { length self.old.items < 320 }
        ensures { self.new.items ≡ self.old.items ++ x ∷ [] }
    {
        let n = self.count;
        self.places.words[n] = x;
        self.count = n + 1;
    }

    // Only the first n numbers.
    pub fn truncate(&mut self, n: usize)
        ensures { self.new.items ≡ take n self.old.items }
    {
        if n < self.count {
            *self = Words::of(&self.as_slice()[..n]);
        }
    }
}

pub type Row8 = Words<i8>;

pub type Row16 = Words<i16>;

pub type Row32 = Words<i32>;

// A row that is filled from the front.
pub(crate) trait Row: Drop {
    // What its numbers may be.
    ghost words: { Range };

    // Its numbers, in order.
    ghost numbers: { Self → List ℤ };

    fn empty() -> Self
        ensures { numbers result ≡ [] };

    fn bounds() -> Bounds
        ensures { range result ≡ words };

    // One number more.
    fn add(&mut self, z: i64)
        requires room { length (numbers self.old) < 320 }
        requires fits { Within words z }
        ensures { numbers self.new ≡ numbers self.old ++ z ∷ [] };
}

impl Row for Words<i8> {
    ghost words = { i8 };

    ghost numbers = { λ row. row.items };

    fn empty() -> Self {
        Words::new()
    }

    fn bounds() -> Bounds {
        Bounds {
            low: -128,
            high: 127,
        }
    }

    fn add(&mut self, z: i64) {
        self.push(z as i8);
    }
}

impl Row for Words<i16> {
    ghost words = { i16 };

    ghost numbers = { λ row. row.items };

    fn empty() -> Self {
        Words::new()
    }

    fn bounds() -> Bounds {
        Bounds {
            low: -32768,
            high: 32767,
        }
    }

    fn add(&mut self, z: i64) {
        self.push(z as i16);
    }
}

impl Row for Words<i32> {
    ghost words = { i32 };

    ghost numbers = { λ row. row.items };

    fn empty() -> Self {
        Words::new()
    }

    fn bounds() -> Bounds {
        Bounds {
            low: -2147483648,
            high: 2147483647,
        }
    }

    fn add(&mut self, z: i64) {
        self.push(z as i32);
    }
}
