// What the command line says.
use std::{env, io};

/// The program's name and its arguments.
///
/// # Errors
/// An argument is not UTF-8, or, of kind `OutOfMemory`, memory ran out.
pub fn arguments(rt: &HostRuntime) -> io::Result<Vec<String>> {
    let args = env::args(rt)?;
    // `collect` would go on where it gets no room beforehand
    let mut arguments = Vec::with_capacity(rt.alloc(), args.len())?;
    for argument in args {
        arguments.push(argument)?;
    }
    Ok(arguments)
}
