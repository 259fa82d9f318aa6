// The lines of an account: its title, and a label and a value each.
ghost use Rattle.std.specs.Prelude.{OnOk, string_bytes};
ghost use Rattle.dump_text.specs.Shown.{AreLines};

use der_io::push_shown;
use std::alloc::{AllocError, Global};

// How many characters a label takes, with the spaces behind it.
const LABEL_WIDTH: usize = 20;

// The line of a label and a value, which has a place among the others.
#[derive(Drop)]
pub struct Line {
    pub place: usize,
    pub label: &'static str,
    pub value: String,
}

// Pushes a title and lines: `\u{..}` stands in the place of each character that is not shown, and a line feed behind
// each line.
pub fn push_lines(
    alloc: Global,
    title: &str,
    lines: &[Line],
    text: &mut String,
) -> Result<(), AllocError>
    ensures { OnOk result (AreLines (string_bytes text.old) → AreLines (string_bytes text.new)) }
{
    push_line(title, text)?;
    for line in lines {
        let Line { label, value, .. } = line;
        let shown = format!(in alloc; "  {label:<LABEL_WIDTH$}{value}")?;
        push_line(&shown, text)?;
    }
    Ok(())
}

fn push_line(line: &str, text: &mut String) -> Result<(), AllocError>
    ensures { OnOk result (AreLines (string_bytes text.old) → AreLines (string_bytes text.new)) }
{
    push_shown(line, text)?;
    text.push_str("\n")?;
    Ok(())
}
