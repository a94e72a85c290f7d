//! The program `exi`: the real files, standard output and an open gate, handed to
//! [`run`](exi_run::run). It ends with the number of the status.
#![tactic(auto)]

use exi_names::Txt;
use exi_ports::{FileShelf, NoGate, OutSink};
use exi_run::{Status, run};
use std::process::ExitCode;
use std::{env, io};

/// The number with which the program ends.
fn exit(status: Status) -> ExitCode {
    ExitCode::from(status.number())
}

fn main(rt: HostRuntime) -> ExitCode {
    let args = match env::args(&rt) {
        Ok(args) => args,
        Err(error) if error.kind() == io::ErrorKind::OutOfMemory => return exit(Status::NoMemory),
        Err(_) => return exit(Status::Usage),
    };
    let mut words = Vec::new(rt.alloc());
    for word in args.skip(1) {
        if words.push(Txt::from_string(word)).is_err() {
            return exit(Status::NoMemory);
        }
    }
    let Ok(mut out) = OutSink::new(rt.alloc(), &rt) else {
        return exit(Status::NoMemory);
    };
    let mut shelf = FileShelf::new(&rt);
    let status = run(&rt, rt.alloc(), &words, &mut shelf, &mut out, &NoGate);
    match out.finish() {
        Ok(()) => exit(status),
        Err(_) => exit(Status::WriteFault),
    }
}
