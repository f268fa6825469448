//! The program `olmctl`: the top call over the words of the command line, the current directory, the cluster file in it
//! and the standard streams.
#![tactic(auto)]

use olm_base::{Memory, Text};
use olm_cli::{Cause, exit_of, olmctl, status, tell_cause};
use olm_disk::FileDisk;
use olm_folder::StdFolder;
use olm_io::{StdSink, StdSource};
use std::process::ExitCode;
use std::{env, io};

/// The words of the command line, without the program's own name.
fn read_words(rt: &HostRuntime) -> io::Result<Vec<Text>> {
    let mut words = Vec::new(rt.alloc());
    for word in env::args(rt)?.skip(1) {
        words.push(Text::from_string(word))?;
    }
    Ok(words)
}

/// The disk with the cluster file, which is opened only by a command that needs it.
fn cluster_disk(rt: &HostRuntime) -> Result<FileDisk<&HostRuntime>, Memory> {
    let path = Text::from_str(rt.alloc(), "cluster.olm")?;
    Ok(FileDisk::new(rt, path))
}

/// Why no command was run: words that are no text are no command line.
fn not_run(fault: &io::Error) -> Cause {
    if fault.kind() == io::ErrorKind::OutOfMemory {
        Cause::NoMemory
    } else {
        Cause::BadWords
    }
}

fn main(rt: HostRuntime) -> ExitCode {
    let mut folder = StdFolder::new(&rt);
    let mut input = StdSource::new(rt.stdin());
    let mut out = StdSink::new(rt.stdout());
    let mut err = StdSink::new(rt.stderr());
    let exit = match (read_words(&rt), cluster_disk(&rt)) {
        (Ok(words), Ok(mut disk)) => olmctl(
            rt.alloc(),
            words.as_slice(),
            &mut folder,
            &mut input,
            &mut disk,
            &mut out,
            &mut err,
        ),
        (Err(fault), _) => {
            let told = tell_cause(rt.alloc(), not_run(&fault), &mut err);
            exit_of(&told)
        }
        (Ok(_), Err(Memory)) => {
            let told = tell_cause(rt.alloc(), Cause::NoMemory, &mut err);
            exit_of(&told)
        }
    };
    ExitCode::from(status(exit))
}
