//! Which calls of a source or sink in memory are to fail.

ghost use Rattle.std.specs.Prelude.{◌↔◌, IsTrue, Contains};

/// Tells whether the call of this number is one that is to fail.
pub fn is_to_fail(failing: &[u64], call: u64) -> bool
    ensures { IsTrue result ↔ Contains failing.now call }
{
    failing.contains(&call)
}
