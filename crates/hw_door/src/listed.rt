//! Which calls of a form in memory are among those that are listed, such as those that are to fail.

ghost use Rattle.std.specs.Prelude.{◌≡◌};
ghost use Rattle.hw_door.specs.Calls.{is_listed};

/// Tells whether the call of this number is listed.
pub fn is_listed(listed: &[u64], call: u64) -> bool
    ensures { result ≡ is_listed listed.now call }
{
    listed.iter().any(|&number| number == call)
}
