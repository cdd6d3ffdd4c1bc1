//! The program passes the words of its command line, the machine's files, and the process's readers and writers to `llb_commands`, which does what the words
//! ask for. Then the program sets the exit status.
#![tactic(auto)]

#[cfg(test)]
mod tests;

use llb_commands::{ProgramFault, Sources, Streams, WordsFault, program, refusal, words_refusal};
use std::fs::File;
use std::io::{BufWriter, ErrorKind, LineWriter, Stderr};
use std::process::ExitCode;
use std::{env, io};

// Returns the words after the program's name. Fails with 183 if a word is not UTF-8, or with 184 if memory is refused.
fn words_given(rt: &HostRuntime) -> Result<Vec<String>, WordsFault<'static>> {
    let words = match env::args(rt) {
        Ok(words) => words,
        Err(error) if error.kind() == ErrorKind::OutOfMemory => return Err(WordsFault::Memory),
        Err(_) => return Err(WordsFault::Words(None)),
    };
    Ok(words.skip(1).collect(rt.alloc())?)
}

// Opens the files of the machine that the program runs on. Contracts say nothing about the bytes of these files.
#[derive(Clone, Copy)]
struct Files<'a> {
    rt: &'a HostRuntime,
}

impl Sources for Files<'_> {
    ghost use Rattle.std.specs.Prelude.{None};

    type Input = File;

    ghost bytes = { λ _ _. None };

    fn open(&self, file: &str) -> io::Result<File> {
        File::open(self.rt, file)
    }
}

// Returns standard error with a buffer for a whole line, so that a line is written at once. If memory for the buffer is refused, a line is written in parts.
fn errors(rt: &HostRuntime) -> io::Result<LineWriter<Stderr>> {
    match LineWriter::new(rt.alloc(), rt.stderr()) {
        Ok(err) => Ok(err),
        Err(_) => LineWriter::with_capacity(rt.alloc(), 0, rt.stderr()),
    }
}

fn main(rt: HostRuntime) -> ExitCode {
    let alloc = rt.alloc();
    let Ok(mut err) = errors(&rt) else {
        // This line is never reached: a buffer of zero bytes needs no memory.
        return ExitCode::from(3);
    };
    let words = match words_given(&rt) {
        Ok(words) => words,
        Err(fault) => return ExitCode::from(words_refusal(&fault, &mut err)),
    };
    let Ok(out) = BufWriter::new(alloc, io::writer(&rt)) else {
        return ExitCode::from(refusal(&ProgramFault::Memory, &mut err));
    };
    let files = Files { rt: &rt };
    let input = rt.reader();
    let mut streams = Streams { input, out, err };
    ExitCode::from(program(&rt, alloc, words.as_slice(), &files, &mut streams))
}
