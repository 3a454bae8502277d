//! The program: the top call over the standard streams, and its exit status.
#![tactic(auto)]

ghost use Rattle.std.specs.Prelude.{◌≡◌};
ghost use Rattle.std.specs.Process.{exit_status};
ghost use Rattle.cr_top.specs.Codes.{code_of};

use cr_io::{StdSink, StdSource};
use cr_top::{OpenGate, Status, ringsearch, write_note};
use cr_words::WordsFault;
use std::process::ExitCode;
use std::{env, io};

// Does what the words wish for. Words that are no UTF-8 are a line that is not taken.
fn main(rt: HostRuntime) -> ExitCode {
    let mut notes = StdSink::new(rt.stderr());
    match words_of(&rt) {
        Ok(words) => {
            let mut source = StdSource::new(rt.stdin());
            let mut sink = StdSink::new(rt.stdout());
            ended(&ringsearch(&rt, &words, &mut source, &mut sink, &mut notes, &OpenGate))
        }
        Err(status) => {
            write_note(&mut notes, &status);
            ended(&status)
        }
    }
}

// The exit status of the program is the number of the status.
fn ended(status: &Status) -> ExitCode
    ensures { exit_status result ≡ code_of status.now }
{
    ExitCode::from(status.code())
}

// The words after the program's name.
fn words_of(rt: &HostRuntime) -> Result<Vec<String>, Status> {
    let mut words = Vec::new(rt.alloc());
    match env::args(rt) {
        Ok(args) => {
            for word in args.skip(1) {
                if words.push(word).is_err() {
                    return Err(Status::NoMemory);
                }
            }
            Ok(words)
        }
        Err(error) => Err(if error.kind() == io::ErrorKind::OutOfMemory {
            Status::NoMemory
        } else {
            Status::Words(WordsFault::Line)
        }),
    }
}
