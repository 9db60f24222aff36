//! Checks that end a test with the name of what isn't so.
ghost use Rattle.std.specs.Prelude.{◌≡◌, is_ok};

use std::test::Fail;

/// Ends the test with that name, unless it is so.
pub fn check(is_so: bool, name: &str) -> Result<(), Fail>
    ensures { is_ok result ≡ is_so }
{
    if is_so { Ok(()) } else { Err(Fail::new(name)) }
}

/// Ends the test with the name of a case and of what was compared, unless it is so.
pub fn check_of(is_so: bool, name: &str, what: &str) -> Result<(), Fail>
    ensures { is_ok result ≡ is_so }
{
    if is_so {
        Ok(())
    } else {
        Err(Fail::new(format_args!("{name}: {what}")))
    }
}
