//! Settings as typed.

ghost use Rattle.std.specs.Prelude.{◌≡◌, IfOk, map};
ghost use Rattle.aes3_cli_arguments.specs.Jobs.{AreTyped, options_of, texts_for};

use crate::frequency::rate_setting;
use aes3_status::TypedSettings;
use clap::ArgMatches;
use std::alloc::{AllocError, Global};

/// The texts that set fields of the channel with this option, in order: those for both channels,
/// those of its own option, and those for the sampling frequency. The first of these clears the
/// rate in byte 0 of professional status, since byte 4 alone has a code for some frequencies.
///
/// # Errors
/// `AllocError` if there is no memory.
pub(crate) fn texts_for<'a>(
    alloc: Global,
    options: &ArgMatches<'a>,
    name: &str,
) -> Result<Vec<&'a str>, AllocError>
    ensures { IfOk result (λ texts. map (λ text. text.now) texts.items
        ≡ texts_for (options_of options.now) name.now) }
{
    let both = options.get_strs("set").unwrap_or(&[]);
    let own = options.get_strs(name).unwrap_or(&[]);
    let mut texts = Vec::new(alloc);
    texts.extend_from_slice(both)?;
    texts.extend_from_slice(own)?;
    match rate_setting(options) {
        Some(rate) => texts.extend_from_slice(&["rate=not-indicated", rate])?,
        None => {}
    }
    Ok(texts)
}

/// The settings in the options as typed, for each channel.
///
/// # Errors
/// `AllocError` if there is no memory.
pub(crate) fn typed<'a>(
    alloc: Global,
    options: &ArgMatches<'a>,
) -> Result<TypedSettings<'a>, AllocError>
    ensures { IfOk result (AreTyped (options_of options.now)) }
{
    let first = texts_for(alloc, options, "set1")?;
    let second = texts_for(alloc, options, "set2")?;
    Ok(TypedSettings::new(first.as_slice(), second.as_slice()))
}
