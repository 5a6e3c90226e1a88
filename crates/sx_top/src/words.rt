// The words of the command line.
ghost use Rattle.std.specs.Prelude.{◌≡◌, map, option_map, string_bytes};
ghost use Rattle.sx_top.specs.Words.{requested_of, requested};

/// What the words ask for.
#[derive(Clone, Copy, Debug)]
pub enum Command<'a> {
    /// Copies the document of this name.
    Copy(&'a str),
    /// Runs a stylesheet on a document.
    Run {
        /// The name of the stylesheet.
        sheet: &'a str,
        /// The name of the document.
        document: &'a str,
    },
}

/// The command that the words after the program's name give, or `None` where they are none that the program knows.
pub fn parse_words(words: &[String]) -> Option<Command<'_>>
    ensures { option_map requested_of result ≡ requested (map string_bytes words.now) }
{
    match words {
        [command, document] if command.as_str() == "copy" => Some(Command::Copy(document.as_str())),
        [command, sheet, document] if command.as_str() == "run" => Some(Command::Run {
            sheet: sheet.as_str(),
            document: document.as_str(),
        }),
        _ => None,
    }
}
