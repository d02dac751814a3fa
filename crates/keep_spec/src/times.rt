// Readings of clocks, and the spans of time that follow from the lifetime of signatures and the skew of clocks.
ghost use Rattle.std.specs.Prelude.{◌≡◌, ◌≤◌, ◌-◌, ◌*◌, ◌^◌};
ghost use Rattle.keep_spec.specs.Times.{guard, grace};

/// The nanoseconds of a second.
pub const NANOS_PER_SECOND: u64 = 1_000_000_000;

/// Readings of clocks, in nanoseconds since 1970 (UTC), are below this.
pub const READING_END: u64 = 4_000_000_000_000_000_000;

/// The guard, in nanoseconds: twice a skew of clocks, which is given in seconds.
pub fn guard_nanos(skew: u32) -> u64
    ensures guard { result ≡ guard skew }
    ensures bound { result ≤ 2 * (2 ^ 32 - 1) * 10 ^ 9 }
{
    2 * u64::from(skew) * NANOS_PER_SECOND
}

/// How long a block is kept after it was signed, in nanoseconds: the lifetime of a signature and the guard. Lifetime and skew are given in seconds.
pub fn grace_nanos(ttl: u32, skew: u32) -> u64
    ensures grace { result ≡ grace ttl skew }
    ensures bound { result ≤ 3 * (2 ^ 32 - 1) * 10 ^ 9 }
{
    u64::from(ttl) * NANOS_PER_SECOND + guard_nanos(skew)
}
