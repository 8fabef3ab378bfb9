ghost use Rattle.std.specs.Prelude.{◌≡◌, ◌≤◌, ◌^◌, ℕ};
ghost use Rattle.hc_num.specs.Index.{index_width};

/// The width in bits of an index of an array, RAM or ROM of `n` elements: the least number of 1 or more whose power of
/// 2 is at least `n` (the Handel-C manual, "Arrays"; for one element and none this project's own).
pub fn aw(n: u32) -> u32
    ensures width { result ≡ index_width n }
    ensures least { 1 ≤ result }
    ensures most { result ≤ 32 }
    ensures enough { n ≤ 2 ^ result }
    ensures smallest { (w : ℕ) → 1 ≤ w → n ≤ 2 ^ w → result ≤ w }
{
    if n <= 2 { 1 } else { (n - 1).ilog2() + 1 }
}
