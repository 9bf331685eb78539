// What the words of a line say.
use crate::fault::RehearsalFault;
use hex::FromHexError;
use mr_data::Given;
use mr_repl::ReplId;
use std::alloc::Global;

/// The bytes that hexadecimal digits spell, or as many of one as stand behind a `*`.
pub fn bytes_of(alloc: Global, word: &str) -> Result<Vec<u8>, RehearsalFault> {
    if word == "-" {
        return Ok(Vec::new(alloc));
    }
    match word.split_once('*') {
        Some((byte, count)) => run_of(alloc, byte, count),
        None => decoded(alloc, word),
    }
}

/// As many of a byte as a number says.
fn run_of(alloc: Global, byte: &str, count: &str) -> Result<Vec<u8>, RehearsalFault> {
    let count = count_of(count)? as usize;
    let bytes = decoded(alloc, byte)?;
    match bytes.first() {
        Some(byte) => Ok(Vec::from_elem(alloc, *byte, count)?),
        None => Err(RehearsalFault::Line),
    }
}

/// The bytes of hexadecimal digits alone.
fn decoded(alloc: Global, digits: &str) -> Result<Vec<u8>, RehearsalFault> {
    match hex::decode(alloc, digits) {
        Ok(bytes) => Ok(bytes),
        Err(FromHexError::OutOfMemory) => Err(RehearsalFault::Memory),
        Err(_) => Err(RehearsalFault::Line),
    }
}

/// A number from 0 on.
pub fn count_of(word: &str) -> Result<u64, RehearsalFault> {
    match word.parse::<u64>() {
        Ok(number) => Ok(number),
        Err(_) => Err(RehearsalFault::Line),
    }
}

/// A place in a list.
pub fn place_of(word: &str) -> Result<usize, RehearsalFault> {
    Ok(count_of(word)? as usize)
}

/// A number with a sign or none.
pub fn number_of(word: &str) -> Result<i64, RehearsalFault> {
    match word.parse::<i64>() {
        Ok(number) => Ok(number),
        Err(_) => Err(RehearsalFault::Line),
    }
}

/// A port, from 0 on.
pub fn port_of(word: &str) -> Result<u16, RehearsalFault> {
    match word.parse::<u16>() {
        Ok(port) => Ok(port),
        Err(_) => Err(RehearsalFault::Line),
    }
}

/// The id of these forty digits.
pub fn id_of(word: &str) -> Result<ReplId, RehearsalFault> {
    match ReplId::read(word.as_bytes()) {
        Some(id) => Ok(id),
        None => Err(RehearsalFault::Line),
    }
}

/// A moment in milliseconds, and a random word.
pub fn given_of(now: &str, word: &str) -> Result<Given, RehearsalFault> {
    match Given::new(number_of(now)?, count_of(word)?) {
        Some(given) => Ok(given),
        None => Err(RehearsalFault::Line),
    }
}

/// Whether the word says that a node starts as a replica.
pub fn is_replica(word: &str) -> Result<bool, RehearsalFault> {
    match word {
        "master" => Ok(false),
        "replica" => Ok(true),
        _ => Err(RehearsalFault::Line),
    }
}
