// Plays the lists that its arguments name, each whole, and writes each name and then the answers.
#![tactic(auto)]

ghost use Rattle.std.specs.Prelude.{◌≤◌, length};

use std::env::FillError;
use std::fs::File;
use std::io::Read;
use std::rt::Env;
use std::str;

// How many bytes a list may have, and its answers.
const PIECE: usize = 65536;

// How many bytes the name of a list may have.
const NAME: usize = 4096;

// Reads until the buffer is full, the file ends or a read fails; how many bytes stand at the front of the buffer. The place moves by as many
// bytes as a read gave: there is nothing to iterate over, and the library's `read_exact` does not say how many there are at the end.
fn read_full(file: &mut File, buf: &mut [u8]) -> usize
    ensures { result ≤ length buf.new }
{
    let mut done = 0;
    while done < buf.len() {
        let n = file.read(&mut buf[done..]).unwrap_or(0);
        if n == 0 {
            break;
        }
        done += n;
    }
    done
}

// A list has to fit the buffer; of a longer one the beginning is played. What cannot be written is passed over.
fn list(rt: &HostRuntime, name: &str) {
    let mut file = match File::open(rt, name) {
        Ok(file) => file,
        Err(e) => {
            let _ = eprintln!(rt; "{name}: {e}");
            return;
        }
    };
    let mut input = [0u8; PIECE];
    let n = read_full(&mut file, &mut input);
    let mut out = [0u8; PIECE];
    let written = transcript::whole(&input[..n], &mut out).unwrap_or_else(|no| no.written);
    let _ = rt.write_all(name.as_bytes());
    let _ = rt.write_all(b"\n");
    let _ = rt.write_all(&out[..written]);
}

// Plays the list that argument i names, where its name is neither empty nor too long; whether there is such an argument.
fn argument(rt: &HostRuntime, i: usize) -> bool {
    let mut name = [0u8; NAME];
    let n = match rt.arg(i, &mut name) {
        Ok(n) => n,
        Err(FillError::TooLong) => 0,
        Err(FillError::NotPresent) => return false,
    };
    if n > 0 {
        match str::from_utf8(&name[..n]) {
            Ok(name) => list(rt, name),
            Err(_) => {
                let _ = eprintln!(rt; "argument {i}: a name that is not UTF-8");
            }
        }
    }
    true
}

fn main(rt: HostRuntime) {
    for i in 1..usize::MAX {
        if !argument(&rt, i) {
            break;
        }
    }
}
