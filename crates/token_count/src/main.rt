//! Counts the tokens of its input, and tells the offset where none occurs.
#![tactic(auto)]

mod counting;

use counting::count;
use pnml_token::TokenFault;
use std::io;
use std::io::Read;

fn main(rt: HostRuntime) -> io::Result<()> {
    let mut bytes = Vec::new(rt.alloc());
    rt.stdin().read_to_end(&mut bytes)?;
    match count(rt.alloc(), bytes.as_slice()) {
        Ok(tokens) => println!(rt; "{tokens} tokens")?,
        Err(TokenFault::BadToken(offset)) => println!(rt; "bad token at {offset}")?,
        Err(TokenFault::NoMemory) => println!(rt; "out of memory")?,
    }
    Ok(())
}
