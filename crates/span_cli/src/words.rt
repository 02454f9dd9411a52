use span_base::Word;
use std::alloc::Global;
use std::rt::Env;
use std::{env, io};

/// What the arguments ask for.
#[derive(Debug, Drop)]
pub enum Request {
    /// `--help` alone.
    Help,
    /// `--version` alone.
    Version,
    /// Some argument isn't UTF-8.
    NotText,
    /// The words of a command, or of none.
    Words(Vec<Word>),
}

/// The request of the arguments after the program's name. It fails where there is no memory for them.
pub fn read_request<R: Env + Alloc<A = Global>>(rt: &R) -> io::Result<Request> {
    let mut words = Vec::new(rt.alloc());
    let args = match env::args(rt) {
        Ok(args) => args,
        Err(error) if error.kind() == io::ErrorKind::InvalidData => return Ok(Request::NotText),
        Err(error) => return Err(error),
    };
    for arg in args.skip(1) {
        words.push(Word::from_string(arg))?;
    }
    match words.as_slice() {
        [only] if only.as_str() == "--help" => Ok(Request::Help),
        [only] if only.as_str() == "--version" => Ok(Request::Version),
        _ => Ok(Request::Words(words)),
    }
}
