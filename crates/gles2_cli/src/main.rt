//! The command buffer's service as a program: `gles2_cli ring` replays a script from standard input.
#![tactic(auto)]

use gles2_run::{Desk, End, run};
use io_edge::{StdSink, StdSource, write_all};
use std::alloc::AllocError;
use std::io::ErrorKind;
use std::process::ExitCode;
use std::rt::Env;
use std::{env, io};

/// The words behind the program's name. Arguments that are no text give none, which are wrong ones.
fn words<R: Env + AllocGlobal>(rt: &R) -> Result<Vec<String>, AllocError> {
    let mut words = Vec::new(rt.alloc());
    match env::args(rt) {
        Ok(args) => {
            for word in args.skip(1) {
                words.push(word)?;
            }
        }
        Err(error) if error.kind() == ErrorKind::OutOfMemory => return Err(AllocError),
        Err(_) => {}
    }
    Ok(words)
}

fn main(rt: HostRuntime) -> ExitCode {
    let alloc = rt.alloc();
    let mut source = StdSource::new(rt.reader());
    let mut sink = StdSink::new(io::writer(&rt));
    let Ok(words) = words(&rt) else {
        let _ = write_all(&mut sink, b"end no memory\n");
        return ExitCode::from(End::NoMemory.status());
    };
    let (status, _desk) = run(alloc, &words, &mut source, &mut sink, Desk::new(alloc));
    ExitCode::from(status)
}
