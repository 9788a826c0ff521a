ghost use Rattle.std.specs.Prelude.{◌≡◌, ℕ, Bool};
ghost use Rattle.std.specs.Option.{option_map};
ghost use Rattle.book.specs.Refusals.{answer, first_failing, Computes, Names, NamesFirst};
ghost use Rattle.book.specs.declared.fault.BookFault.{BookFault};

use crate::fault::BookFault;

// Each entry of the list passes the test, or the first that does not is named in the fault.
pub(crate) fn check_each<T, K: Fn(&T) -> bool, N: FnOnce(usize) -> BookFault>(
    entries: &[T],
    keeps: K,
    fault: N,
) -> Result<(), BookFault>
    requires tests { K.IsAlwaysCallable keeps }
    requires names { N.IsAlwaysCallable fault }
    ensures value { (test : T → Bool) (named : ℕ → BookFault) → Computes K.Fn keeps test → Names N.FnOnce fault named → result ≡ answer (option_map named (first_failing test 0 entries.now)) tt }
    ensures first { (test : T → Bool) → NamesFirst test entries.now }
{
    let failing = entries.iter().position(|entry| !keeps(entry));
    failing.map_or(Ok(()), |at| Err(fault(at)))
}
