//! The numbers that digits say.

ghost use Rattle.std.specs.Prelude.{◌≡◌, ◌≤◌, SomeIff};
ghost use Rattle.std.specs.List.{AllPass};
ghost use Rattle.gm_token.specs.Bytes.{is_digit};
ghost use Rattle.gm_token.specs.Limits.{greatest_number};
ghost use Rattle.gm_token.specs.Spellings.{decimal_value};

use crate::limits::MAX_NUMBER;

/// The number that these digits say, if it is within the limit.
pub fn number_value(digits: &[u8]) -> Option<u64>
    requires { AllPass is_digit digits.now }
    ensures { SomeIff result (decimal_value digits.now ≤ greatest_number) (decimal_value digits.now) }
{
    let mut value: u64 = 0;
    for digit in digits {
        let more = u64::from(*digit - b'0');
        if value > (MAX_NUMBER - more) / 10 {
            return None;
        }
        value = value * 10 + more;
    }
    Some(value)
}
