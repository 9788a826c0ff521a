ghost use Rattle.std.specs.Prelude.{◌≡◌};
ghost use Rattle.book.specs.Fields.{arm_in, limit_in};

// Whether an arm lies within 8,000 cm of the datum.
pub(crate) fn arm_in(arm: i32) -> bool
    ensures { result ≡ arm_in arm }
{
    (-8_000..=8_000).contains(&arm)
}

// Whether a running-load limit is absent or at most 10,000,000 kg.
pub(crate) fn limit_in(limit: Option<u32>) -> bool
    ensures { result ≡ limit_in limit }
{
    limit.is_none_or(|kg| kg <= 10_000_000)
}
