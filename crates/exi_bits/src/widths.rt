ghost use Rattle.std.specs.Prelude.{◌≡◌, ◌≤◌, ◌^◌};
ghost use Rattle.exi_bits.specs.Widths.{width_for};

/// How many bits a number takes that tells `count` values apart: the least `n` with `2^n` at
/// least `count`, and 0 for one value or none (EXI 1.0, section 7.1.9).
#[inline]
pub fn bits_for(count: u64) -> u32
    ensures width { result ≡ width_for count }
    ensures narrow { result ≤ 64 }
{
    if count == 0 {
        return 0;
    }
    if count < 1 << 32 {
        // one bit more than count - 1 has, also where that is 0
        return u64::BITS - 1 - (2 * count - 1).leading_zeros();
    }
    u64::BITS - (count - 1).leading_zeros()
}
