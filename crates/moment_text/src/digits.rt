//! Writes numbers of a fixed width.

ghost use Rattle.std.specs.Prelude.{◌≡◌, ◌<◌, ◌++◌, ◌∷◌, ◌+◌, [], OnOk, string_bytes};
ghost use Rattle.moment_text.specs.Text.{two, three, four};

use std::alloc::AllocError;

fn push_digit(text: &mut String, digit: u16) -> Result<(), AllocError>
    requires { digit < 10 }
    ensures { OnOk result (string_bytes text.new ≡ string_bytes text.old ++ (48 + digit) ∷ []) }
{
    text.push(char::from(48 + digit as u8))?;
    Ok(())
}

/// Adds a number in two digits.
pub fn push_two(text: &mut String, number: u16) -> Result<(), AllocError>
    requires { number < 100 }
    ensures { OnOk result (string_bytes text.new ≡ string_bytes text.old ++ two number) }
{
    push_digit(text, number / 10)?;
    push_digit(text, number % 10)?;
    Ok(())
}

/// Adds a number in three digits.
pub fn push_three(text: &mut String, number: u16) -> Result<(), AllocError>
    requires { number < 1000 }
    ensures { OnOk result (string_bytes text.new ≡ string_bytes text.old ++ three number) }
{
    push_digit(text, number / 100)?;
    push_two(text, number % 100)?;
    Ok(())
}

/// Adds a number in four digits.
pub fn push_four(text: &mut String, number: u16) -> Result<(), AllocError>
    requires { number < 10000 }
    ensures { OnOk result (string_bytes text.new ≡ string_bytes text.old ++ four number) }
{
    push_two(text, number / 100)?;
    push_two(text, number % 100)?;
    Ok(())
}
