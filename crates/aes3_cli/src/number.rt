//! Numbers in values of options.

ghost use Rattle.std.specs.Prelude.{◌≡◌};
ghost use Rattle.aes3_cli.specs.Numbers.{number_in};

/// The number in the text, if it is within these bounds. A plus sign may be before it.
pub fn number_of_text(text: &str, least: u64, most: u64) -> Option<u64>
    ensures { result ≡ number_in least most text.now }
{
    match text.parse::<u64>() {
        Ok(number) if least <= number && number <= most => Some(number),
        _ => None,
    }
}
