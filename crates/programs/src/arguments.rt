// What a program is asked for by its arguments.
ghost use Rattle.std.specs.Prelude.{string_bytes};
ghost use Rattle.programs.specs.Arguments.{Asks, Means};

// What one argument says.
#[derive(Clone, Copy)]
pub enum Argument {
    Help,
    // A world is read from standard input.
    StandardInput,
    // It begins as an option does, but there is no such option.
    UnknownOption,
    // A world is read from the file with this name.
    File,
}

impl Argument {
    pub fn read(text: &str) -> Argument
        ensures { Means text.now result }
    {
        match text.as_bytes() {
            b"-h" | b"--help" => Argument::Help,
            b"-" => Argument::StandardInput,
            [b'-', ..] => Argument::UnknownOption,
            _ => Argument::File,
        }
    }
}

// What a program is asked for.
#[derive(Clone, Copy, Debug, PartialEq, Eq)]
pub enum Request {
    Nothing,
    Help,
    // The argument at this place is no option that there is.
    UnknownOption(usize),
    Worlds,
}

// The first argument that is an option says what is asked for. Where none is, they name worlds.
pub fn read_arguments(arguments: &[String]) -> Request
    ensures { Asks string_bytes arguments.now result }
{
    if arguments.is_empty() {
        return Request::Nothing;
    }
    for (place, argument) in arguments.iter().enumerate() {
        match Argument::read(argument.as_str()) {
            Argument::Help => return Request::Help,
            Argument::UnknownOption => return Request::UnknownOption(place),
            Argument::StandardInput | Argument::File => {}
        }
    }
    Request::Worlds
}
