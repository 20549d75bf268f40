// What the first n numbers have, one by one: the greatest of their values, the word of those that pass a test, and the table of
// their values. Closures need a `requires`, and no public call has one, so these functions are private to the crate.
ghost use Rattle.std.specs.Prelude.{◌≡◌, ◌≤◌, ◌<◌, ℕ, Bool, cond, ltb};
ghost use Rattle.schedule.specs.Bounded.{greatest, table, word_of};

use crate::columns::Places;

// The greatest value, 0 where there is none.
pub(crate) fn greatest<F: Fn(u8) -> u32>(n: u8, value: F) -> u32
    requires { (a : ℕ) → a < n → F.pre value a }
    ensures { (f : ℕ → ℕ) → ((a y : ℕ) → a < n → F.post value a y → y ≡ f a) → result ≡ greatest n f }
{
    let mut most: u32 = 0;
    for a in 0..n {
        most = most.max(value(a));
    }
    most
}

// The word of the activities that pass.
pub(crate) fn word<F: Fn(u8) -> bool>(places: Places, test: F) -> u32
    requires { (a : ℕ) → a < places.n → F.pre test a }
    ensures { (p : ℕ → Bool) → ((a : ℕ) (y : Bool) → a < places.n → F.post test a y → y ≡ p a) → result ≡ word_of places.n p }
{
    let mut word: u32 = 0;
    for a in 0..places.n {
        word = bits::mark(word, a as u32, test(a));
    }
    word
}

// A table with the values, and 0 from there on.
pub(crate) fn table<const N: usize, F: Fn(u8) -> u32>(n: u8, value: F) -> [u32; N]
    requires few { n ≤ N }
    requires callable { (a : ℕ) → a < n → F.pre value a }
    ensures { (f : ℕ → ℕ) → ((a y : ℕ) → a < n → F.post value a y → y ≡ f a) → result ≡ table N (λ a. cond (ltb a n) (f a) 0) }
{
    let mut entries = [0; N];
    for a in 0..n {
        entries[a as usize] = value(a);
    }
    entries
}
