//! The words of a program.
use std::alloc::{Alloc, AllocError};
use std::env::Env;
use std::io::ErrorKind;
use std::{env, io};

// The words after the program's name. An `Err` of the kind `InvalidData` is a word that is not UTF-8.
fn text_words<R: Env + Alloc>(rt: &R) -> io::Result<Vec<String<R::A>, R::A>> {
    let mut words = Vec::new(rt.alloc());
    for word in env::args(rt)?.skip(1) {
        words.push(word)?;
    }
    Ok(words)
}

/// The words after the program's name, and whether all are UTF-8. If one is not there are no words, which are
/// outside the grammar as it is.
pub fn words_of<R: Env + Alloc>(rt: &R) -> Result<(Vec<String<R::A>, R::A>, bool), AllocError> {
    match text_words(rt) {
        Ok(words) => Ok((words, true)),
        Err(error) if error.kind() == ErrorKind::InvalidData => Ok((Vec::new(rt.alloc()), false)),
        Err(_) => Err(AllocError),
    }
}
