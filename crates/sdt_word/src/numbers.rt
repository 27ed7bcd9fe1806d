//! Fields of a word, rotation and sign extension.

ghost use Rattle.std.specs.Prelude.{◌≡◌, ◌<◌, ◌≤◌, ◌+◌};
ghost use Rattle.sdt_word.specs.Numbers.{bit, bits, flag, rotated, sign_extended};

/// The `width` bits of `w` from bit `at` on, as a number.
pub fn field(w: u32, at: u32, width: u32) -> u32
    requires at_fits { at < 32 }
    requires width_fits { width < 32 }
    ensures { result ≡ bits w at width }
{
    (w >> at) % (1 << width)
}

/// Whether bit `at` of `w` is 1.
pub fn is_set(w: u32, at: u32) -> bool
    requires { at < 32 }
    ensures { flag result ≡ bit w at }
{
    (w >> at) % 2 == 1
}

/// `v` rotated right by `n` places.
pub fn rotate(v: u32, n: u32) -> u32
    requires { n < 32 }
    ensures { result ≡ rotated v n }
{
    v.rotate_right(n)
}

/// What the low `bits` bits of `v` say as two's complement, in 32 bits. The other bits of `v` don't
/// count.
pub fn sign_extend(v: u32, bits: u32) -> u32
    requires low { 1 ≤ bits }
    requires high { bits ≤ 32 }
    ensures { result ≡ sign_extended v bits }
{
    if bits == 32 {
        return v;
    }
    let low = v % (1 << bits);
    if low < 1 << (bits - 1) {
        low
    } else {
        low + (u32::MAX - (1 << bits) + 1)
    }
}
