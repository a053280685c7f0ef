//! Variables by their numbers.

ghost use Rattle.std.specs.Prelude.{◌≡◌};
ghost use Rattle.gm_ast.specs.Ways as Ways;

/// Whether a variable is among some.
pub fn is_in(variables: &[u32], variable: u32) -> bool
    ensures { result ≡ Ways.is_in variables.now variable }
{
    for other in variables {
        if variable == *other {
            return true;
        }
    }
    false
}
