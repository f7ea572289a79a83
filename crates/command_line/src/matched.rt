//! What `clap` matched: values and numbers.
ghost use Rattle.std.specs.Prelude.{◌≡◌, option_map};
ghost use Rattle.clap.specs.Words.{first_of, found_of, rows_of};
ghost use Rattle.command_line.specs.Arguments.{most_u32, number_of};

use clap::ArgMatches;

/// The value of an argument.
pub(crate) fn value_of<'a>(matches: &ArgMatches<'a>, id: &str) -> Option<&'a str>
    ensures { option_map (λ s. s.now) result ≡ first_of id.now (rows_of (found_of matches.now)) }
{
    matches.get_str(id)
}

/// The number that a text writes, as `u32` parses it.
pub(crate) fn u32_of(text: &str) -> Option<u32>
    ensures { result ≡ number_of most_u32 text.now }
{
    text.parse::<u32>().ok()
}
