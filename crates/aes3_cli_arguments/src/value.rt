//! The values that the options of a command have.

ghost use Rattle.std.specs.Prelude.{◌≡◌, ℕ};
ghost use Rattle.aes3_cli_arguments.specs.Jobs.{IsNumber, MayBeFlag, MayBeWithin, bit_by, is_set, number_by, options_of};

use clap::ArgMatches;

/// Whether the flag is given.
pub(crate) fn flag(options: &ArgMatches<'_>, name: &str) -> bool
    requires { MayBeFlag (options_of options.now) name.now }
    ensures { result ≡ is_set (options_of options.now) name.now }
{
    options.get_flag(name)
}

/// The number of this name, which must be given.
pub(crate) fn number(options: &ArgMatches<'_>, name: &str) -> u64
    requires { (n : ℕ) × IsNumber (options_of options.now) name.now n }
    ensures { IsNumber (options_of options.now) name.now result }
{
    options.get_one::<u64>(name).unwrap()
}

/// The number of this name, if it is given.
pub(crate) fn number_if_given(options: &ArgMatches<'_>, name: &str) -> Option<u64>
    requires { (least : ℕ) × (most : ℕ) × MayBeWithin least most (options_of options.now) name.now }
    ensures { result ≡ number_by (options_of options.now) name.now }
{
    options.get_one::<u64>(name)
}

/// The bit of this name, if it is given.
pub(crate) fn bit(options: &ArgMatches<'_>, name: &str) -> Option<bool>
    requires { MayBeWithin 0 1 (options_of options.now) name.now }
    ensures { result ≡ bit_by (options_of options.now) name.now }
{
    Some(number_if_given(options, name)? == 1)
}
