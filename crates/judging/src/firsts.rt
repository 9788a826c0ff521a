ghost use Rattle.std.specs.Prelude.{Bool};
ghost use Rattle.judging.specs.Steps.{FindsFailing};

// The first entry that does not pass a test, by its place.
pub(crate) fn first_failing<T, F: Fn(&T) -> bool>(entries: &[T], passes: F) -> Option<usize>
    requires { F.IsAlwaysCallable passes }
    ensures { (test : T → Bool) → FindsFailing F.Fn passes test entries.now result }
{
    entries.iter().position(|entry| !passes(entry))
}
