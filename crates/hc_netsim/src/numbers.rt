ghost use Rattle.std.specs.Prelude.{◌≡◌, ◌<◌, ◌≤◌, length, map, replicate, false, All};
ghost use Rattle.hc_net.specs.Bits.{number};
ghost use Rattle.hc_net.specs.Run.{net_bit};

/// The number on these nets, the lowest bit first.
pub(crate) fn number_on(nets: &[u32], values: &[bool]) -> u128
    requires width { length nets.now ≤ 128 }
    requires nets { All (λ k. k < length values.now) nets.now }
    ensures { result ≡ number (map (net_bit values.now) nets.now) }
{
    let mut number = 0;
    for k in (0..nets.len()).rev() {
        number = 2 * number + u128::from(values[nets[k] as usize]);
    }
    number
}

/// The number of these bits, the lowest first.
pub(crate) fn number_of(bits: &[bool]) -> u128
    requires { length bits.now ≤ 128 }
    ensures { result ≡ number bits.now }
{
    let mut number = 0;
    for k in (0..bits.len()).rev() {
        number = 2 * number + u128::from(bits[k]);
    }
    number
}

/// Writes the bits of these nets.
pub(crate) fn put_bits_on(nets: &[u32], values: &[bool], bits: &mut [bool])
    requires nets { All (λ k. k < length values.now) nets.now }
    requires room { length bits.old ≡ length nets.now }
    ensures { bits.new ≡ map (net_bit values.now) nets.now }
{
    for (k, net) in nets.iter().enumerate() {
        bits[k] = values[*net as usize];
    }
}

/// Writes 0 to all bits.
pub(crate) fn put_zeros(bits: &mut [bool])
    ensures { bits.new ≡ replicate (length bits.old) false }
{
    for bit in bits.iter_mut() {
        *bit = false;
    }
}
