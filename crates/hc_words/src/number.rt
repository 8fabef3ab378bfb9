ghost use Rattle.std.specs.Prelude.{◌≡◌, ◌≤◌, ◌↔◌, ℕ, IsTrue, decimal, MatchOption};

use itoa::Buffer;

/// The number of threads of a ring, from 2 to 200, in decimal without leading zeros.
pub(crate) fn read_threads(word: &str) -> Option<u32>
    ensures { MatchOption result
        ((n : ℕ) → 2 ≤ n → n ≤ 200 → word.now ≡ decimal n → ⊥)
        (λ n. (2 ≤ n) × (n ≤ 200) × (word.now ≡ decimal n)) }
{
    for n in 2..201 {
        if is_decimal(word, n) {
            return Some(n);
        }
    }
    None
}

/// Whether a word is a number in decimal.
fn is_decimal(word: &str, n: u32) -> bool
    ensures { IsTrue result ↔ (word.now ≡ decimal n) }
{
    let mut digits = Buffer::new();
    digits.format(n) == word
}
