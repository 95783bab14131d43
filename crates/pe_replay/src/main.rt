//! Shows what the library makes of a file on standard input, or what one of its calls answers, for
//! the tests that compare it.
//!
//! ```text
//! pe_replay header|imports|exports < FILE
//! pe_replay walk|index COUNT stored|rounded < FILE
//! pe_replay twins OFFSET < CHANGES
//! pe_replay CALL default|strict|permissive
//! ```
#![tactic(auto)]

mod amount;
mod answer;
mod by_default;
mod by_options;
mod header;
mod laws;
mod look_ups;
mod sample;
mod twins;
mod walks;

use fixture::sample::{SAMPLE_LEN, in_mode, sample_section};
use goblin_base::{Error, ParseMode};
use goblin_pe_sect::ParseOptions;
use goblin_pe_sect::options::RawPointerRule;
use sample::{other_section, put_sample};
use std::io::{ErrorKind, Read};
use std::process::ExitCode;
use std::{env, io};

fn main(rt: HostRuntime) -> ExitCode {
    match show_words(&rt) {
        Ok(()) => ExitCode::SUCCESS,
        Err(error) => {
            let line = match error.kind() {
                ErrorKind::OutOfMemory => "out of memory",
                ErrorKind::InvalidData => "refused",
                ErrorKind::InvalidInput => "no such words",
                _ => "input or output failed",
            };
            let _ = rt.eprintln(line);
            ExitCode::from(1)
        }
    }
}

// Shows what the words ask for. A form after the name of a call tells it from what is shown of a
// file.
fn show_words(rt: &HostRuntime) -> io::Result<()> {
    let mut words = env::args(rt)?;
    let _program = words.next();
    let (first, second, third) = (words.next(), words.next(), words.next());
    let (word, form) = (text(&first), text(&second));
    match form {
        "default" | "strict" | "permissive" => show_call(rt, word, form),
        _ => show_file(rt, word, form, text(&third)),
    }
}

fn text(word: &Option<String>) -> &str {
    match word {
        Some(word) => word.as_str(),
        None => "",
    }
}

// Makes the call of a name over the sample file in a form: without options, or by those of a mode.
fn show_call(rt: &HostRuntime, call: &str, form: &str) -> io::Result<()> {
    let mut file = [0; SAMPLE_LEN];
    put_sample(&mut file);
    let sections = [sample_section(), other_section()];
    let mode = match form {
        "default" => return by_default::show_call(rt, call, &file, &sections),
        "strict" => ParseMode::Strict,
        _ => ParseMode::Permissive,
    };
    by_options::show_call(rt, call, &file, &sections, &in_mode(mode))
}

// Shows what the word asks for of the file on standard input. By the rule `rounded` raw pointers
// are rounded down to 512.
fn show_file(rt: &HostRuntime, word: &str, count: &str, rule: &str) -> io::Result<()> {
    let mut file = Vec::new(rt.alloc());
    rt.stdin().read_to_end(&mut file)?;
    let mut opts = ParseOptions::default();
    if rule == "rounded" {
        opts.raw_pointer_rule = RawPointerRule::RoundedTo512;
    }
    match word {
        "header" => header::show(rt, &file),
        "walk" => look_ups::show_walk(rt, &file, count.parse().unwrap_or(0), &opts),
        "index" => look_ups::show_index(rt, &file, count.parse().unwrap_or(0), &opts),
        "imports" | "exports" => walks::show(rt, &file, word),
        "twins" => twins::show(rt, &file, count.parse().unwrap_or(0)),
        _ => Err(ErrorKind::InvalidInput.into()),
    }
}

// Why nothing is shown of a file.
fn refused(error: Error) -> io::Error {
    match error {
        Error::Memory(error) => error.into(),
        _ => ErrorKind::InvalidData.into(),
    }
}
