ghost use Rattle.std.specs.Prelude.{◌≡◌};
ghost use Rattle.kinds.specs.Loads.{least_of, sunk, left_of};

// The lesser of two margins, either of which may be absent: both sides are taken apart.
pub(crate) fn least(a: Option<i64>, b: Option<i64>) -> Option<i64>
    ensures { result ≡ least_of a b }
{
    match (a, b) {
        (Some(x), Some(y)) => Some(x.min(y)),
        _ => a.or(b),
    }
}

// A margin with a load taken off.
pub(crate) fn lowered(margin: Option<i64>, load: i64) -> Option<i64>
    ensures { result ≡ sunk margin load }
{
    margin.map(|m| m.saturating_sub(load))
}

// What a limit leaves over a mass, if there is a limit.
pub(crate) fn margin(limit: Option<u32>, mass: u32) -> Option<i64>
    ensures { result ≡ left_of limit mass }
{
    limit.map(|kg| i64::from(kg) - i64::from(mass))
}
