//! The commands of `etcs_lab`, as a table from which `clap`'s command is built.

use crate::version::VERSION;
use clap::builder::ValueParser;
use clap::{Arg, ArgAction, Command};
use std::alloc::{AllocError, Global};

// What the help prints last.
const AFTER_HELP: &str = "\
Exit status:
  0  everything is intact; the command did its work
  1  refused: an image that is not formatted or whose first sector is damaged, a telegram or scenario that is not
     valid, or a scenario that stops; or memory was refused or the output could not be written, as the message says
  2  wrong arguments
  3  a file or the device failed
  4  something is lost, damaged, contradictory or different; all that can be read was printed

Errors go to standard error. After `--` an argument may begin with `-`.
An image is a file or a block device. It is opened read-only.

Take a digest of the image before anything reads it, and work on a copy. The journal has no checksum and no
signature: this program finds damage, and does not show that nobody altered the image.
";

// What the help of `play` prints last.
const PLAY_HELP: &str = "\
A line is a JSON object: \"scenario\" is a scenario in the JSON that `etcs run` reads, or a list of scenarios, each played
on the journal that the one before left. It may also have \"id\", a text or a whole number, \"cold\", 0 to 2, which
replaces that of each scenario, \"slots\", which replaces that of --slots, and \"sha256\", true where the digest of the
journal image is wanted. For each line, also one that can't be played, a line is printed.

Example:
  $ printf '%s\\n' '{\"id\":\"a\",\"scenario\":{\"groups\":[],\"steps\":[{\"clock\":1000}]}}' | etcs_lab play
  {\"id\":\"a\",\"line\":1,\"status\":\"done\",\"events\":1,..

The exit status is 0 where each scenario was played to its end.
";

// What an argument takes.
#[derive(Clone, Copy)]
enum Takes {
    // An option without a value.
    Flag,
    // An option with a text, by the name that help gives it.
    Text(&'static str),
    // An option with a number of slots.
    Slots,
    // A positional text that has to be there.
    Required,
    // A positional number of an event.
    Event,
    // Any number of positional texts.
    Several,
}

// An argument, by its name, and what help says of it.
type ArgRow = (&'static str, Takes, &'static str);

// A command, by its name.
#[derive(Clone, Copy)]
struct CommandRow {
    name: &'static str,
    about: &'static str,
    args: &'static [ArgRow],
}

const JSON: ArgRow = ("json", Takes::Flag, "Print JSON in place of text");

const SLOTS: ArgRow = (
    "slots",
    Takes::Slots,
    "Read the image as one of N slots, whatever its first sector says",
);

const IMAGE: ArgRow = (
    "IMAGE",
    Takes::Required,
    "Journal image: a file or a block device",
);

const HEX: ArgRow = ("HEX", Takes::Required, "Telegram in hexadecimal digits");

const COMMANDS: [CommandRow; 8] = [
    CommandRow {
        name: "examine",
        about: "Examine a journal image and list what each slot holds, what is lost and what contradicts",
        args: &[JSON, SLOTS, IMAGE],
    },
    CommandRow {
        name: "events",
        about: "Print each event of a journal as a JSON object on its own line, the oldest first",
        args: &[
            (
                "all",
                Takes::Flag,
                "Include events of other blocks and of damaged ones, each with its source",
            ),
            SLOTS,
            IMAGE,
        ],
    },
    CommandRow {
        name: "replay",
        about: "Run each power cycle through the kernel again and print the first record that differs",
        args: &[JSON, SLOTS, IMAGE],
    },
    CommandRow {
        name: "check",
        about: "Examine and replay a journal image, and end with one line for both",
        args: &[JSON, SLOTS, IMAGE],
    },
    CommandRow {
        name: "why",
        about: "Explain each brake command and speed limit of a journal",
        args: &[
            JSON,
            SLOTS,
            IMAGE,
            (
                "EVENT",
                Takes::Event,
                "Number of one event (default: each event at which brake, limit or a cause changes)",
            ),
            (
                "known",
                Takes::Flag,
                "Print what the unit knows of the train and the track too, after each event",
            ),
        ],
    },
    CommandRow {
        name: "decode",
        about: "Decode a telegram, as `etcs decode` does or as JSON",
        args: &[JSON, HEX],
    },
    CommandRow {
        name: "packets",
        about: "List the packets of a telegram by their names in issue 2.3.0, with fields and use",
        args: &[JSON, HEX],
    },
    CommandRow {
        name: "run",
        about: "Run a scenario on an empty image in memory and print each output as JSON, with its causes",
        args: &[(
            "SCENARIO",
            Takes::Required,
            "Scenario in the JSON that `etcs run` reads",
        )],
    },
];

const PLAY: CommandRow = CommandRow {
    name: "play",
    about: "Run many scenarios, each on an empty journal in memory, and print a JSON line for each",
    args: &[
        ("slots", Takes::Slots, "Slots of each journal (default: 16)"),
        (
            "outputs",
            Takes::Text("WHICH"),
            "Outputs to print: all, last, changes or none (default: last)",
        ),
        (
            "images",
            Takes::Text("DIR"),
            "Write each journal image as DIR/NUMBER.image, in the order of the scenarios",
        ),
        (
            "FILE",
            Takes::Several,
            "Scenarios, one on each line, or a single one in a file NAME.json; - is standard input (default: standard input)",
        ),
    ],
};

fn arg_of<'a>(alloc: Global, row: ArgRow) -> Arg<'a> {
    let (name, takes, help) = row;
    let arg = Arg::new(alloc, name).help(help);
    match takes {
        Takes::Flag => arg.long(name).action(ArgAction::SetTrue),
        Takes::Text(value) => arg.long(name).value_name(value),
        Takes::Slots => arg
            .long(name)
            .value_name("N")
            .value_parser(ValueParser::signed(2, 1_048_576)),
        Takes::Required => arg.required(true),
        Takes::Event => arg.value_parser(ValueParser::unsigned(0, u64::MAX)),
        Takes::Several => arg.action(ArgAction::Append),
    }
}

fn command_of<'a>(alloc: Global, row: CommandRow) -> Result<Command<'a>, AllocError> {
    let mut command = Command::new(alloc, row.name).about(row.about);
    for arg in row.args {
        command = command.arg(arg_of(alloc, *arg))?;
    }
    Ok(command)
}

/// The program with all its commands.
pub(crate) fn lab_app<'a>(alloc: Global) -> Result<Command<'a>, AllocError> {
    let mut app = Command::new(alloc, "etcs_lab")
        .version(VERSION)
        .about(
            "Examine the journal images of an onboard unit, decode its telegrams and run its scenarios",
        )
        .after_help(AFTER_HELP)
        .no_binary_name(true)
        .subcommand_required(true)
        .arg_required_else_help(true)
        .bin_name("etcs_lab")?;
    for row in COMMANDS {
        app = app.subcommand(command_of(alloc, row)?)?;
    }
    app.subcommand(command_of(alloc, PLAY)?.after_help(PLAY_HELP))
}
