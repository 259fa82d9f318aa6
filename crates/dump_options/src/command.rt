// The command, as `clap` has it.

use clap::{Command, arg};
use std::alloc::{AllocError, Global};

// Its name, whatever the path that it was started by.
const NAME: &str = "der_dump";

// What `--version` prints after the name.
const VERSION: &str = "1.0.0";

const ABOUT: &str =
    "Shows DER documents, such as certificates and keys, given as DER, PEM, hex digits or base64.";

// The command with all of its arguments, as help lists them.
pub fn command<'a>(alloc: Global) -> Result<Command<'a>, AllocError> {
    Command::new(alloc, NAME)
        .bin_name(NAME)?
        .version(VERSION)
        .about(ABOUT)
        .arg(arg!(in alloc; [FILE]...
            "Files to read, each in turn; `-`, or no file, is standard input"))?
        .next_help_heading("One block")
        .arg(arg!(in alloc; --at <BLOCK>
            "Show only this block; BLOCK is its path, as JSON has it, or its offset in bytes, also as 0x1a"))?
        .arg(arg!(in alloc; --get <BLOCK>
            "Write its value as a line of text, such as --get tbsCertificate.validity.notAfter"))?
        .arg(arg!(in alloc; --extract <BLOCK>
            "Write its bytes"))?
        .arg(arg!(in alloc; --contents <BLOCK>
            "Write its contents"))?
        .arg(arg!(in alloc; --value <BLOCK>
            "Write the bytes that it holds as a string, its segments joined"))?
        .next_help_heading("What is shown")
        .arg(arg!(in alloc; --strict
            "Reject documents that are not DER, and list why, after showing them"))?
        .arg(arg!(in alloc; --full "Show values whole, however long they are"))?
        .arg(arg!(in alloc; --flat "Do not expand nested DER"))?
        .arg(arg!(in alloc; --depth <COUNT>
            "Hide blocks with more than COUNT blocks around them; 0 shows the outermost only"))?
        .arg(arg!(in alloc; --width <COLUMNS>
            "Cut lines to so many columns, 0 for none [default: COLUMNS on a terminal, but with --full 0]"))?
        .arg(arg!(in alloc; --oids <FILE> "Name object identifiers by a file of dumpasn1 first"))?
        .arg(arg!(in alloc; --color <WHEN>
            "Color lines: always, never, or auto, on a terminal without NO_COLOR [default: auto]"))?
        .arg(arg!(in alloc; --plain "Do not name the fields of known types"))?
        .arg(arg!(in alloc; --"as" <TYPE>
            "Name fields as those of this type, such as Certificate [default: by label, or what fits]"))?
        .next_help_heading("Other forms")
        .arg(arg!(in alloc; --json
            "Write each document as one line of JSON, with all blocks whole"))?
        .arg(arg!(in alloc; --html
            "Write one page of HTML that shows all documents, their bytes beside them"))?
        .arg(arg!(in alloc; --text
            "Write a short account of each document, such as a certificate, list, key, message or request"))
}
