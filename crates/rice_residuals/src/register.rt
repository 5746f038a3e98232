ghost use Rattle.std.specs.Prelude.{◌≡◌, ℕ, ◌≤◌, ◌<◌, ◌+◌, ◌-◌, ◌*◌, ◌%◌, ◌^◌, ◌⊎◌, Bool, List, ◌++◌, length, take, drop};
ghost use Rattle.rice_residuals.specs.Bits.{low_bits, bits_of_bytes};
ghost use Rattle.rice_residuals.specs.Code.{long_ones};
ghost use Rattle.rice_residuals.specs.Reading.{reading, IsSound};

/// The low `held` bits of `bits`, which were read from the bytes before `next`.
#[derive(Clone, Copy)]
pub struct Register {
    pub next: usize,
    pub bits: u64,
    pub held: u32,
}

// Bytes from the front of a slice as one number.
#[derive(Clone, Copy)]
struct Run {
    bits: u32,
    bytes: u32,
}

// The first four bytes, or all where there are fewer.
#[inline]
fn front_run(bytes: &[u8]) -> Run
    ensures within { result.bytes ≤ length bytes.now }
    ensures four { (result.bytes ≡ 4) ⊎ (result.bytes ≡ length bytes.now) }
    ensures few { result.bytes ≤ 4 }
    ensures below { result.bits < 2 ^ (8 * result.bytes) }
    ensures bits { low_bits (8 * result.bytes) result.bits ≡ bits_of_bytes (take result.bytes bytes.now) }
{
    match bytes {
        [a, b, c, d, ..] => Run {
            bits: u32::from_be_bytes([*a, *b, *c, *d]),
            bytes: 4,
        },
        [a, b, c] => Run {
            bits: u32::from_be_bytes([0, *a, *b, *c]),
            bytes: 3,
        },
        [a, b] => Run {
            bits: u32::from_be_bytes([0, 0, *a, *b]),
            bytes: 2,
        },
        [a] => Run {
            bits: u32::from(*a),
            bytes: 1,
        },
        [] => Run { bits: 0, bytes: 0 },
    }
}

// The register with at least 32 bits, or with all that are left.
#[inline]
fn filled(bytes: &[u8], register: Register) -> Register
    requires sound { IsSound bytes.now register }
    requires held { register.held < 32 }
    ensures sound { IsSound bytes.now result }
    ensures same { reading bytes.now result ≡ reading bytes.now register }
    ensures enough { (32 ≤ result.held) ⊎ (result.next ≡ length bytes.now) }
{
    let run = front_run(&bytes[register.next..]);
    let count = 8 * run.bytes;
    Register {
        next: register.next + run.bytes as usize,
        bits: (register.bits << count) | u64::from(run.bits),
        held: register.held + count,
    }
}

/// The register with at least `count` bits, or with all that are left.
#[inline]
pub fn ready(bytes: &[u8], register: Register, count: u32) -> Register
    requires sound { IsSound bytes.now register }
    requires count { count ≤ 32 }
    ensures sound { IsSound bytes.now result }
    ensures same { reading bytes.now result ≡ reading bytes.now register }
    ensures enough { (count ≤ result.held) ⊎ (result.next ≡ length bytes.now) }
{
    if register.held < count {
        filled(bytes, register)
    } else {
        register
    }
}

/// The low `count` bits of a number.
#[inline]
pub fn low_of(bits: u64, count: u32) -> u32
    requires { count ≤ 32 }
    ensures value { result ≡ bits % 2 ^ count }
    ensures below { result < 2 ^ count }
{
    (bits & ((1 << count) - 1)) as u32
}

/// The number of a high part and `count` low bits.
#[inline]
pub fn joined(high: u32, count: u8, low: u32) -> u32
    requires high { high < long_ones }
    requires count { count < 16 }
    requires low { low < 2 ^ count }
    ensures { result ≡ high * 2 ^ count + low }
{
    (high << count) + low
}
