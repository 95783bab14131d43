//! What calls answer, as lines on standard output.

use crate::amount::{Amount, Refusal};
use std::io;
use std::io::ErrorKind;

/// Shows an answer in a line.
///
/// # Errors
/// Of the kind `OutOfMemory` if the call was refused memory.
pub fn show_answer<A: Amount + Drop>(rt: &HostRuntime, answer: A) -> io::Result<()> {
    show_side(rt, &answer, "\n")
}

/// Shows both answers of a law in a line, the second also where the first one was refused.
///
/// # Errors
/// Of the kind `OutOfMemory` if one of them was refused memory.
pub fn show_answers<A: Amount + Drop>(rt: &HostRuntime, answers: (A, A)) -> io::Result<()> {
    let first = show_side(rt, &answers.0, " ");
    let second = show_side(rt, &answers.1, "\n");
    first.and(second)
}

/// Shows an answer, and then what is there after it.
///
/// # Errors
/// Of the kind `OutOfMemory` if the call was refused memory.
pub fn show_side<A: Amount>(rt: &HostRuntime, answer: &A, end: &str) -> io::Result<()> {
    match answer.amount() {
        Ok(amount) => print!(rt; "{amount}{end}"),
        Err(Refusal::Other) => print!(rt; "refused{end}"),
        Err(Refusal::Memory) => {
            print!(rt; "memory{end}")?;
            Err(ErrorKind::OutOfMemory.into())
        }
    }
}
