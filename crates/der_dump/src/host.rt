// What the program reads: standard input, and files, each of which is opened when it is first read.
ghost use Rattle.std.specs.Prelude.{IfOk};
ghost use Rattle.std.specs.Counts.{IsPrefixLen};

use der_io::escaped;
use dump_options::{Color, Options, Width};
use std::env::VarError;
use std::fmt::Display;
use std::fs::File;
use std::io::{ErrorKind, IsTerminal, Read, Write};
use std::{env, io};

const MEGABYTE: usize = 1_000_000;

// From how many megabytes of an input on it is printed how many were read.
const MANY: usize = 8;

// Prints what is wrong, with what is no printed character escaped, on a line of standard error.
pub fn print_error(rt: &HostRuntime, message: &str) {
    if let Ok(text) = escaped(rt.alloc(), message.as_bytes()) {
        let _ = eprintln!(rt; "{text}");
    }
}

// Prints what is wrong with an input.
pub fn print_reason<T: Display>(rt: &HostRuntime, name: &str, why: &T) {
    if let Ok(message) = format!(in rt.alloc(); "error: {name}: {why}") {
        print_error(rt, &message);
    }
}

// Whether lines are colored in this place: on a terminal, if the environment does not say otherwise.
pub fn color_here(rt: &HostRuntime, color: Color) -> Color {
    match color {
        Color::Auto if rt.stdout().is_terminal() && !is_color_off(rt) => Color::Always,
        Color::Auto => Color::Never,
        _ => color,
    }
}

// Whether the variable NO_COLOR is there, and not empty (https://no-color.org).
fn is_color_off(rt: &HostRuntime) -> bool {
    match env::var(rt, "NO_COLOR") {
        Ok(text) => !text.is_empty(),
        Err(VarError::NotPresent) => false,
        Err(_) => true,
    }
}

// How wide a line is at most in this place: as wide as the environment says of the terminal, unless values are whole.
pub fn width_here(rt: &HostRuntime, options: &Options<'_>) -> Width {
    match options.width {
        Width::Auto if rt.stdout().is_terminal() && !options.is_full => terminal_width(rt),
        width => width,
    }
}

// The columns of the terminal, which shells keep in the variable COLUMNS (POSIX, 8.3).
fn terminal_width(rt: &HostRuntime) -> Width {
    let Ok(columns) = env::var(rt, "COLUMNS") else {
        return Width::Any;
    };
    match columns.parse::<usize>() {
        Ok(count) => Width::of_columns(count),
        Err(_) => Width::Any,
    }
}

// Reads standard input, where the name is `-`, or the file that has the name.
#[derive(Drop)]
pub struct HostReader<'r, 'a> {
    rt: &'r HostRuntime,
    name: &'a str,
    file: Option<File>,
    // how many octets were read, and how many megabytes the terminal shows
    count: usize,
    shown: usize,
}

impl<'r, 'a> HostReader<'r, 'a> {
    // Nothing is opened yet.
    pub fn new(rt: &'r HostRuntime, name: &'a str) -> HostReader<'r, 'a> {
        HostReader {
            rt,
            name,
            file: None,
            count: 0,
            shown: 0,
        }
    }

    // Reads some octets.
    fn read_some(&mut self, buf: &mut [u8]) -> io::Result<usize>
        ensures { IfOk result (λ count. IsPrefixLen count buf.new) }
    {
        if self.name == "-" {
            return self.rt.stdin().read(buf);
        }
        if let Some(file) = &mut self.file {
            return file.read(buf);
        }
        let mut file = File::open(self.rt, self.name)?;
        let count = file.read(buf)?;
        self.file = Some(file);
        Ok(count)
    }

    // Shows on a terminal how many megabytes of a long input were read; after the last octet nothing.
    fn show_progress(&mut self, count: usize) {
        self.count = self.count.saturating_add(count);
        let megabytes = self.count / MEGABYTE;
        if count == 0 {
            self.hide_progress();
        } else if megabytes >= MANY && megabytes > self.shown && self.rt.stderr().is_terminal() {
            self.shown = megabytes;
            let _ = eprint!(self.rt; "\r{megabytes} MB read");
        }
    }

    fn hide_progress(&mut self) {
        if self.shown > 0 {
            self.shown = 0;
            let _ = eprint!(self.rt; "\r\u{1b}[K");
        }
    }
}

// Writes to standard output, and keeps in mind whether its reader has gone, as that of `| head` may.
#[derive(Drop)]
pub struct HostWriter<'r> {
    pub rt: &'r HostRuntime,
    pub is_closed: bool,
}

fn is_closed_pipe<T>(outcome: &io::Result<T>) -> bool {
    matches!(outcome, Err(fault) if fault.kind() == ErrorKind::BrokenPipe)
}

impl Write for HostWriter<'_> {
    fn write(&mut self, buf: &[u8]) -> io::Result<usize> {
        let outcome = self.rt.stdout().write(buf);
        self.is_closed |= is_closed_pipe(&outcome);
        outcome
    }

    fn flush(&mut self) -> io::Result<()> {
        let outcome = self.rt.stdout().flush();
        self.is_closed |= is_closed_pipe(&outcome);
        outcome
    }
}

impl Read for HostReader<'_, '_> {
    fn read(&mut self, buf: &mut [u8]) -> io::Result<usize> {
        let outcome = self.read_some(buf);
        match &outcome {
            Ok(count) => self.show_progress(*count),
            Err(fault) => {
                self.hide_progress();
                print_reason(self.rt, self.name, fault);
            }
        }
        outcome
    }
}
