//! The words that the program is given.

ghost use Rattle.std.specs.Prelude.{◌≡◌, ◌≤◌, ◌⊎◌, IfOk, IfErr, map, string_bytes};
ghost use Rattle.iso_cli.specs.Listening.{IsNoCommand};
ghost use Rattle.iso_cli.specs.declared.stop.Stop.TheVariants.{Words, Memory};

use crate::act::act;
use crate::port::serve_port;
use crate::source::Source;
use crate::stop::{Stop, tell};
use iso_host::{Inlet, Outlet};
use std::alloc::{AllocError, Global};
use std::env;
use std::env::{Env, FillError};
use std::io::ErrorKind;
use std::net::{Net, TcpListener, TcpStream};

/// What a program is given, but its own name. The name is the first argument, and is never looked at.
#[derive(Drop)]
struct BehindName<'a, R> {
    given: &'a R,
}

impl<'a, R: Env> Env for BehindName<'a, R> {
    fn arg(&self, i: usize, buf: &mut [u8]) -> Result<usize, FillError> {
        match i.checked_add(1) {
            Some(behind) => self.given.arg(behind, buf),
            None => Err(FillError::NotPresent),
        }
    }

    fn var(&self, name: &str, buf: &mut [u8]) -> Result<usize, FillError> {
        self.given.var(name, buf)
    }

    fn var_at(&self, i: usize, buf: &mut [u8]) -> Result<usize, FillError> {
        self.given.var_at(i, buf)
    }
}

/// The words behind the program's name. A word that isn't UTF-8 is none of a command line.
fn given_words<R: Env>(alloc: Global, given: &R) -> Result<Vec<String>, Stop>
    ensures { IfErr result (λ stop. (stop ≡ Words) ⊎ (stop ≡ Memory)) }
{
    match env::args(&(BehindName { given }, alloc)) {
        Ok(words) => {
            let words: Result<Vec<String>, AllocError> = words.collect(alloc);
            words.map_err(|_| Stop::Memory)
        }
        Err(error) if error.kind() == ErrorKind::OutOfMemory => Err(Stop::Memory),
        Err(_) => Err(Stop::Words),
    }
}

/// The words as texts.
fn texts<'a>(alloc: Global, words: &'a [String]) -> Result<Vec<&'a str>, AllocError>
    ensures { IfOk result
        (λ texts. map (λ text. text.now) texts.items ≡ map string_bytes words.now) }
{
    let mut texts = Vec::new(alloc);
    for word in words {
        texts.push(word.as_str())?;
    }
    Ok(texts)
}

/// Serves a port where the first word is `serve`, and does every other command.
fn act_or_serve<
    N: Net<Listener = TcpListener, Stream = TcpStream>,
    S: Source,
    I: Inlet,
    O: Outlet,
    F: Outlet,
>(
    alloc: Global,
    net: &N,
    words: &[&str],
    source: &S,
    input: &mut I,
    output: &mut O,
    faults: &mut F,
) -> u8
    ensures status { result ≤ 3 }
    // With status 2, the words are no command line.
    ensures words { result ≡ 2 → IsNoCommand (map (λ w. w.now) words.now) }
{
    match words {
        ["serve", ..] => serve_port(alloc, net, words, source, output, faults),
        _ => act(alloc, words, source, input, output, faults),
    }
}

/// Does what the words ask that the program is given, and gives the status. The program's name isn't judged.
pub fn act_as_given<
    R: Env,
    N: Net<Listener = TcpListener, Stream = TcpStream>,
    S: Source,
    I: Inlet,
    O: Outlet,
    F: Outlet,
>(
    alloc: Global,
    given: &R,
    net: &N,
    source: &S,
    input: &mut I,
    output: &mut O,
    faults: &mut F,
) -> u8
    // The status is 0 to 3.
    ensures status { result ≤ 3 }
{
    let words = match given_words(alloc, given) {
        Ok(words) => words,
        Err(stop) => return tell(alloc, faults, stop),
    };
    match texts(alloc, &words) {
        Ok(words) => act_or_serve(alloc, net, &words, source, input, output, faults),
        Err(_) => tell(alloc, faults, Stop::Memory),
    }
}
