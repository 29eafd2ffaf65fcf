//! A number as a command line writes it.
ghost use Rattle.std.specs.Prelude.{◌≡◌, ◌≤◌};
ghost use Rattle.std.specs.Option.{SomeIff};
ghost use Rattle.std.specs.Str.Parse.{IsNumeral, digits_value};

/// The number that a text of digits alone writes, if it is from 1 to `most`.
pub(crate) fn count_in(text: &str, most: u32) -> Option<u32>
    ensures { let number = digits_value 10 text.now in
        SomeIff result (IsNumeral 10 text.now × (1 ≤ number) × (number ≤ most)) number }
{
    if text.as_bytes().first() == Some(&b'+') {
        return None;
    }
    let Ok(number) = text.parse::<u32>() else {
        return None;
    };
    if 1 <= number && number <= most {
        Some(number)
    } else {
        None
    }
}
