ghost use Rattle.std.specs.Prelude.{◌≡◌, ◌<◌, ◌≤◌, ◌+◌, ◌*◌, ◌^◌, length, All, if◌then◌else◌};
ghost use Rattle.hc_store.specs.Arrays.{constant_number};

use hc_net::{Builder, Nets};

/// The number of the nets of an index of `width` bits, if each of them has a constant.
pub(crate) fn constant_number(b: &Builder, index: &Nets, width: u32) -> Option<usize>
    requires nets { All (λ k. k < length b.now.nodes) index.now }
    requires width { length index.now ≡ width }
    requires narrow { width ≤ 32 }
    ensures { result ≡ constant_number b.now.nodes index.now }
{
    let mut number = 0;
    for i in 0..width {
        let net = index.as_slice()[(width - 1 - i) as usize];
        match b.constant(net) {
            Some(bit) => number = with_low(bit, number),
            None => return None,
        }
    }
    Some(number)
}

/// The number with one more bit below it.
fn with_low(bit: bool, number: usize) -> usize
    requires { number < 2 ^ 32 }
    ensures { result ≡ (if bit then 1 else 0) + 2 * number }
{
    if bit { 2 * number + 1 } else { 2 * number }
}
