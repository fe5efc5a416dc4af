//! Codes: numbers of 64 bits by which things are looked up. Different things may have one code.
ghost use Rattle.std.specs.Prelude.{◌≡◌};
ghost use Rattle.std.specs.List.{fold};
ghost use Rattle.tc_lists.specs.Codes.{mixed};

/// The code of a thing of this code with bytes behind it.
pub fn mix_all(code: u64, bytes: &[u8]) -> u64
    ensures { result ≡ fold mixed code bytes.now }
{
    let mut all = code;
    for byte in bytes {
        all = mix(all, u64::from(*byte));
    }
    all
}

/// The code of a thing of this code with a number behind it.
pub fn mix(code: u64, n: u64) -> u64
    ensures { result ≡ mixed code n }
{
    code.wrapping_mul(0x9e37_79b9_7f4a_7c15).wrapping_add(n)
}
