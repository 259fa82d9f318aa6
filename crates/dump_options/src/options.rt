// The options, and how the matches of `clap` give them.

use crate::command::command;
use crate::options_fault::OptionsFault;
use clap::ArgMatches;
use clap::parser::ValueSource;
use std::alloc::Global;
use std::convert::AsStr;

// Arguments, each with those that do not go with it: one at most says what is written in place of lines.
const EXCLUSIONS: [(&str, &[&str]); 14] = [
    ("html", &["text"]),
    ("json", &["text", "html"]),
    ("extract", &["text", "html", "json"]),
    ("contents", &["text", "html", "json", "extract"]),
    ("value", &["text", "html", "json", "extract", "contents"]),
    (
        "get",
        &["text", "html", "json", "extract", "contents", "value"],
    ),
    ("text", &NOT_WITH_JSON),
    ("html", &["color", "width"]),
    ("json", &NOT_WITH_JSON),
    ("extract", &NOT_WITH_OCTETS),
    ("contents", &NOT_WITH_OCTETS),
    ("value", &NOT_WITH_OCTETS),
    ("get", &NOT_WITH_PART),
    ("plain", &["as"]),
];

// JSON has all blocks whole, and an account has no blocks.
const NOT_WITH_JSON: [&str; 5] = ["color", "full", "flat", "depth", "width"];

// A part of a block is shown in no other way. Its path has the names of fields.
const NOT_WITH_PART: [&str; 8] = [
    "at", "strict", "full", "flat", "depth", "width", "color", "plain",
];

// Bytes have no names of object identifiers in them either.
const NOT_WITH_OCTETS: [&str; 9] = [
    "at", "strict", "full", "flat", "depth", "width", "oids", "color", "plain",
];

// The flags that have documents written otherwise than in lines.
const OUTPUTS: [(&str, Output); 3] = [
    ("json", Output::Json),
    ("html", Output::Page),
    ("text", Output::Accounts),
];

// The arguments that have a part of a block written.
const PARTS: [(&str, Part); 4] = [
    ("extract", Part::Whole),
    ("contents", Part::Contents),
    ("value", Part::Value),
    ("get", Part::Text),
];

/// What the arguments of a command line ask for.
#[derive(Debug, Drop, PartialEq)]
pub struct Options<'a> {
    /// The names of the inputs, in order, at least one: `-` is standard input, and any other name that of a file.
    pub inputs: Vec<&'a str>,
    /// What is done with each input.
    pub task: Task<'a>,
    /// Documents that are not canonical are rejected.
    pub is_strict: bool,
    /// Values are written whole, however many octets they have.
    pub is_full: bool,
    /// Nested DER is not expanded.
    pub is_flat: bool,
    /// As what documents are written.
    pub output: Output,
    /// The most blocks around a block that is shown; the outermost has none. `None` shows all blocks.
    pub most_depth: Option<usize>,
    /// How wide a line is at most.
    pub width: Width,
    /// The name of the file that names object identifiers, before the names that are built in.
    pub oids: Option<&'a str>,
    /// Fields have no names.
    pub is_plain: bool,
    /// The name of the type of the documents, in place of what their labels say or what fits.
    pub type_name: Option<&'a str>,
    /// When lines are colored.
    pub color: Color,
}

/// As what documents are written.
#[derive(Clone, Copy, Debug, PartialEq)]
pub enum Output {
    /// As a dump in lines.
    Lines,
    /// As JSON, a line each.
    Json,
    /// On a page of HTML, one for all inputs.
    Page,
    /// As a short account each.
    Accounts,
}

/// When lines are colored.
#[derive(Clone, Copy, Debug, PartialEq)]
pub enum Color {
    /// On a terminal.
    Auto,
    Always,
    Never,
}

/// How wide a line is at most.
#[derive(Clone, Copy, Debug, PartialEq)]
pub enum Width {
    /// As wide as the terminal on which it is shown.
    Auto,
    /// As wide as need be.
    Any,
    /// So many columns of a terminal.
    Columns(usize),
}

impl Width {
    /// So many columns; none stand for any number of them.
    pub fn of_columns(count: usize) -> Width {
        match count {
            0 => Width::Any,
            _ => Width::Columns(count),
        }
    }
}

/// What is done with an input.
#[derive(Clone, Copy, Debug, PartialEq)]
pub enum Task<'a> {
    /// It is dumped.
    Dump,
    /// The block is dumped, alone.
    At(Target<'a>),
    /// This part of the block is written.
    Extract(Part, Target<'a>),
}

/// Which block of a document is meant.
#[derive(Clone, Copy, Debug, PartialEq)]
pub enum Target<'a> {
    /// The one that begins at the offset, counted in octets from the first octet of the document.
    Offset(usize),
    /// The one to which these names of fields lead, as JSON has them.
    Path(&'a str),
}

/// What of a block is written.
#[derive(Clone, Copy, Debug, PartialEq)]
pub enum Part {
    /// All of its octets.
    Whole,
    /// Its contents octets.
    Contents,
    /// The octets of the value of the string that it is.
    Value,
    /// Its value as text, in a line; or its contents octets, where it has none.
    Text,
}

/// The options that the arguments ask for. The first argument is the program's name.
///
/// # Errors
/// What is wrong with the arguments, or that memory ran out. `--help` and `--version` are returned so too.
pub fn options_of<'a, S: AsStr>(
    alloc: Global,
    arguments: &'a [S],
) -> Result<Options<'a>, OptionsFault<'a>> {
    let matches = command(alloc)?.try_get_matches_from(arguments)?;
    refuse_exclusions(&matches)?;
    Ok(Options {
        inputs: Vec::from_slice(alloc, matches.get_strs("FILE").unwrap_or(&["-"]))?,
        task: task_of(&matches)?,
        is_strict: matches.get_flag("strict"),
        is_full: matches.get_flag("full"),
        is_flat: matches.get_flag("flat"),
        output: OUTPUTS
            .iter()
            .find(|(name, _)| matches.get_flag(name))
            .map_or(Output::Lines, |(_, output)| *output),
        most_depth: number_of(&matches, "depth")?,
        width: width_of(&matches)?,
        oids: matches.get_str("oids"),
        is_plain: matches.get_flag("plain"),
        type_name: matches.get_str("as"),
        color: color_of(&matches)?,
    })
}

// Refuses two arguments that do not go together.
fn refuse_exclusions<'a>(matches: &ArgMatches<'_>) -> Result<(), OptionsFault<'a>> {
    for (name, others) in EXCLUSIONS {
        for other in others {
            // a flag that is not given has the value `false`
            let are_given = [name, *other].iter().all(|name| matches.value_source(name)
                == Some(ValueSource::CommandLine));
            if are_given {
                return Err(OptionsFault::NotTogether(other, name));
            }
        }
    }
    Ok(())
}

// What is done with each input.
fn task_of<'a>(matches: &ArgMatches<'a>) -> Result<Task<'a>, OptionsFault<'a>> {
    if let Some(target) = target_of(matches, "at")? {
        return Ok(Task::At(target));
    }
    for (name, part) in PARTS {
        if let Some(target) = target_of(matches, name)? {
            return Ok(Task::Extract(part, target));
        }
    }
    Ok(Task::Dump)
}

// The block that the value of an argument means, where it has one. A path begins with the name of a field, or with the
// number of an item in brackets.
fn target_of<'a>(
    matches: &ArgMatches<'a>,
    name: &'static str,
) -> Result<Option<Target<'a>>, OptionsFault<'a>> {
    match matches.get_str(name) {
        None => Ok(None),
        Some(text) if begins_path(text) => Ok(Some(Target::Path(text))),
        Some(text) => Ok(Some(Target::Offset(number_in(name, text)?))),
    }
}

// Whether a path may begin so.
fn begins_path(text: &str) -> bool {
    matches!(
        text.as_bytes(),
        [b'a'..=b'z' | b'A'..=b'Z' | b'[', ..]
    )
}

// The number that the value of an argument is, where it has one.
fn number_of<'a>(
    matches: &ArgMatches<'a>,
    name: &'static str,
) -> Result<Option<usize>, OptionsFault<'a>> {
    match matches.get_str(name) {
        None => Ok(None),
        Some(text) => Ok(Some(number_in(name, text)?)),
    }
}

// The number that a text is: in hex digits behind `0x`, or in decimal digits.
fn number_in<'a>(name: &'static str, text: &'a str) -> Result<usize, OptionsFault<'a>> {
    let number = match text.strip_prefix("0x") {
        Some(digits) => usize::from_str_radix(digits, 16),
        None => text.parse::<usize>(),
    };
    number.map_err(|_| OptionsFault::NoNumber(name, text))
}

// How wide a line is at most.
fn width_of<'a>(matches: &ArgMatches<'a>) -> Result<Width, OptionsFault<'a>> {
    Ok(number_of(matches, "width")?.map_or(Width::Auto, Width::of_columns))
}

// When lines are colored.
fn color_of<'a>(matches: &ArgMatches<'a>) -> Result<Color, OptionsFault<'a>> {
    match matches.get_str("color") {
        None | Some("auto") => Ok(Color::Auto),
        Some("always") => Ok(Color::Always),
        Some("never") => Ok(Color::Never),
        Some(text) => Err(OptionsFault::NoColor(text)),
    }
}
