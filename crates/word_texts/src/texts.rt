// The texts.
use crate::forms::program;
use clap::error::ErrorKind;
use olm_base::{Memory, Text};
use std::alloc::{AllocError, Global};

/// What is said where `clap` takes the words.
const NARROWER: &str =
    "error: a word begins with '-' and is no option right behind the command, or a number is more than digits with no zero first\n\nFor more information, try '--help'.\n";

/// The help on the whole program.
pub fn help_text(alloc: Global) -> Result<Text, Memory> {
    let mut command = program(alloc)?;
    Ok(Text::from_string(command.render_help()?))
}

/// The program's name, and the words behind it.
fn line_of(alloc: Global, words: &[Text]) -> Result<Vec<&str>, AllocError> {
    let mut line = Vec::new(alloc);
    line.push("olmctl")?;
    for word in words {
        line.push(word.as_str())?;
    }
    Ok(line)
}

/// What `clap` says of words that it doesn't take, and else in which way the program's forms are narrower. For a
/// command and `--help` it is that command's help.
pub fn fault_text(alloc: Global, words: &[Text]) -> Result<Text, Memory> {
    let line = line_of(alloc, words)?;
    match program(alloc)?.try_get_matches_from(line.as_slice()) {
        Ok(_) => Text::from_str(alloc, NARROWER),
        Err(fault) => {
            if fault.kind() == ErrorKind::OutOfMemory {
                return Err(Memory);
            }
            Ok(Text::from_string(fault.to_string(alloc)?))
        }
    }
}
