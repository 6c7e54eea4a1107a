// Parses the arguments.
ghost use Rattle.std.specs.Prelude.{◌≡◌, map, string_bytes};
ghost use Rattle.wasm_list.specs.ListCommands.{asked_by, asked_of};

/// A parsed command line.
#[derive(Clone, Copy)]
pub(crate) enum Command {
    /// List the input.
    Listing,
    /// Strip the input.
    Stripping,
    /// The arguments are wrong.
    Unknown,
}

/// Returns the command for these arguments.
pub(crate) fn command_of(words: &[String]) -> Command
    ensures { asked_of result ≡ asked_by (map string_bytes words.now) }
{
    match words {
        [] => Command::Listing,
        [word] if word.as_str() == "strip" => Command::Stripping,
        _ => Command::Unknown,
    }
}
