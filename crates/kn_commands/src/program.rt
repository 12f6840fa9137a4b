ghost use Rattle.std.specs.Prelude.{◌≡◌, IfOk, IfErr};
ghost use Rattle.std.specs.Process.{exit_status};
ghost use Rattle.kn_commands.specs.Numbers.{status_number};

use crate::status::Status;
use crate::words::run_words;
use kn_io::{StdSink, StdSource};
use std::io::ErrorKind;
use std::process::ExitCode;
use std::rt::Env;
use std::{env, io};

/// The words behind the program's name. Where one is no text, the words are of none of the forms,
/// as no words are. An error is want of memory.
pub fn words_of(rt: &(impl Env + AllocGlobal)) -> io::Result<Vec<String>> {
    match env::args(rt) {
        Ok(args) => Ok(args.skip(1).collect(rt.alloc())?),
        Err(error) if error.kind() == ErrorKind::InvalidData => Ok(Vec::new(rt.alloc())),
        Err(error) => Err(error),
    }
}

/// Does what the program's words ask for (`run_words`), from standard input to standard output. An
/// error is want of memory before that began.
pub fn run_program(rt: &(impl Env + AllocGlobal + Input + Print)) -> io::Result<Status> {
    let args = words_of(rt)?;
    let words: Vec<&str> = args.iter().map(|arg| arg.as_str()).collect(rt.alloc())?;
    let mut source = StdSource::new(rt.reader());
    let mut sink = StdSink::new(io::writer(rt));
    Ok(run_words(rt.alloc(), &words, &mut source, &mut sink).status)
}

/// The exit number of the program, where want of memory stands for what it could not begin with.
pub fn exit_of(ended: io::Result<Status>) -> ExitCode
    ensures ended { IfOk ended (λ status. exit_status result ≡ status_number status) }
    ensures memory { IfErr ended (λ error. exit_status result ≡ status_number Status.Memory) }
{
    ExitCode::from(ended.unwrap_or(Status::Memory).number())
}
