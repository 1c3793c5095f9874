use net_values::{NoMemory, Text};
use std::env;
use std::io::ErrorKind;
use std::rt::Env;
use struct_core::Words;

/// The words after the program's name; none where an argument isn't text.
pub fn words(rt: &(impl Env + AllocGlobal)) -> Result<Words, NoMemory> {
    let args = match env::args(rt) {
        Ok(args) => args,
        Err(error) if error.kind() == ErrorKind::OutOfMemory => return Err(NoMemory),
        Err(_) => return Ok(Words::new(rt.alloc())),
    };
    let mut words = Words::new(rt.alloc());
    for arg in args.skip(1) {
        let mut word = Text::new(rt.alloc());
        word.push(arg.as_str())?;
        words.push(word)?;
    }
    Ok(words)
}
