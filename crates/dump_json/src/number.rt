// Numbers.
ghost use Rattle.std.specs.Prelude.{OnOk};
ghost use Rattle.der_io.specs.Output.{IsWritten};
ghost use Rattle.dump_json.specs.Grammar.{IsInt, IsNumber};

use der_io::{StreamFault, write_part};
use itoa::Buffer;
use std::io::Write;

pub fn write_natural<W: Write>(number: u64, out: &mut W) -> Result<(), StreamFault>
    ensures { OnOk result (IsWritten IsInt (W.contents out.old) (W.contents out.new)) }
{
    let mut digits = Buffer::new();
    write_part(out, digits.format(number).as_bytes())?;
    Ok(())
}

pub fn write_integer<W: Write>(number: i64, out: &mut W) -> Result<(), StreamFault>
    ensures { OnOk result (IsWritten IsNumber (W.contents out.old) (W.contents out.new)) }
{
    if number < 0 {
        write_part(out, b"-")?;
        write_natural(number.unsigned_abs(), out)?;
        return Ok(());
    }
    write_natural(number.unsigned_abs(), out)?;
    Ok(())
}
