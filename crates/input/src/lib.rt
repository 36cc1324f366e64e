// An input piece by piece, and to its end, of which the first bytes are kept; an output; and what is said where one of them fails.
// Rests on kept. Generic over what is read and written, so that contracts name the bytes; of the streams themselves no contract can.
#![tactic(auto)]

ghost use Rattle.std.specs.Prelude.{◌≡◌, ◌≤◌, length, IfOk, IfErr, OnOk, OnErr, IfSome};
ghost use Rattle.std.specs.Io.KnownBytes.{Appends, IsAtEnd, ReadConsumes};
ghost use Rattle.std.specs.Io.{ReadsAtMost};
ghost use Rattle.std.specs.Process.{exit_status};
ghost use Rattle.kept.specs.Held.{Held, held_as};
ghost use Rattle.input.specs.Answers.{piece_of, wrote_of};
ghost use Rattle.input.specs.Failed.{OfInput, OfOutput, OfErrors, Front};

use kept::{Kept, keep, nothing};
use std::fmt::InlineText;
use std::io::{Read, Write};
use std::process::ExitCode;
use std::{fmt, io};

/// How many bytes are asked for at once.
pub const PIECE: usize = 65536;

// The room of what is said of a failure: a stream's name, and a reason of 80 bytes at most, with its number.
const SAID_SIZE: usize = 128;

/// Which of the streams failed, and why.
#[derive(Debug, Drop)]
pub enum Failure {
    Input(io::Error),
    Output(io::Error),
    Errors(io::Error),
}

impl fmt::Display for Failure {
    fn fmt<W: fmt::Write>(&self, f: &mut fmt::Formatter<W>) -> fmt::Result {
        match self {
            Failure::Input(reason) => write!(f, "standard input: {reason}"),
            Failure::Output(reason) => write!(f, "standard output: {reason}"),
            Failure::Errors(reason) => write!(f, "standard error: {reason}"),
        }
    }
}

// By what `read` answered. No `map_err`: only this equation turns back an end that is taken for a failure.
fn answered(got: io::Result<usize>) -> Result<usize, Failure>
    ensures { result ≡ piece_of got }
{
    match got {
        Ok(count) => Ok(count),
        Err(reason) => Err(Failure::Input(reason)),
    }
}

// By what `write_all` answered; an equation, as for a read.
fn written(got: io::Result<()>) -> Result<(), Failure>
    ensures { result ≡ wrote_of got }
{
    match got {
        Ok(()) => Ok(()),
        Err(reason) => Err(Failure::Output(reason)),
    }
}

/// Reads the next bytes into a row: how many, none only at the end or where the row is empty.
pub fn read_piece<R: Read>(reader: &mut R, space: &mut [u8]) -> Result<usize, Failure>
    ensures prefix_len { ReadsAtMost result space.new }
    ensures bytes { ReadConsumes (R.remaining reader.old) (R.remaining reader.new) result space.new }
    ensures failure { IfErr result OfInput }
{
    let got = reader.read(space);
    answered(got)
}

/// Reads to the end, piece by piece, and keeps what the row has room for.
pub fn read_to_end<R: Read>(reader: &mut R, row: &mut [u8]) -> Result<Kept, Failure>
    ensures count { IfOk result (λ s. s.count ≤ length row.new) }
    ensures end { OnOk result (IsAtEnd (R.remaining reader.new)) }
    ensures kept { IfOk result (λ s. IfSome (R.remaining reader.old) (λ xs. Held xs row.new (held_as s))) }
    ensures err { OnErr result (Front (R.remaining reader.old) (R.remaining reader.new) row.new) }
    ensures failure { IfErr result OfInput }
{
    let mut s = nothing();
    let mut space = [0u8; PIECE];
    for _ in 0..u64::MAX {
        let n = read_piece(reader, &mut space)?;
        if n == 0 {
            return Ok(s);
        }
        s = keep(s, &space[..n], row);
    }
    Err(no_end())
}

/// An input is given up after so many pieces that none has as many.
pub fn no_end() -> Failure
    ensures { OfInput result }
{
    Failure::Input(io::Error::other("no end"))
}

/// Writes all of a text.
pub fn print<W: Write>(writer: &mut W, text: &[u8]) -> Result<(), Failure>
    ensures ok { OnOk result (Appends (W.contents writer.old) (W.contents writer.new) text.now) }
    ensures failure { IfErr result OfOutput }
{
    let got = writer.write_all(text);
    written(got)
}

/// The same to standard error.
pub fn print_error<W: Write>(writer: &mut W, text: &[u8]) -> Result<(), Failure>
    ensures ok { OnOk result (Appends (W.contents writer.old) (W.contents writer.new) text.now) }
    ensures failure { IfErr result OfErrors }
{
    writer.write_all(text).map_err(Failure::Errors)
}

// Says a failure: the reason in the system's words, without the number that std writes behind them.
fn say(rt: &impl Eprint, failure: Failure) -> io::Result<()> {
    let said = InlineText::<SAID_SIZE>::of(failure);
    match said.as_str().split_once(" (os error ") {
        Some((words, _)) => eprintln!(rt; "{words}"),
        None => eprintln!(rt; "{}", said.as_str()),
    }
}

/// How a program ends: a failure is said on standard error, with the reason.
pub fn ending(rt: &impl Eprint, done: Result<(), Failure>) -> ExitCode
    ensures ok { OnOk done (exit_status result ≡ 0) }
    ensures err { OnErr done (exit_status result ≡ 1) }
{
    match done {
        Ok(()) => ExitCode::SUCCESS,
        Err(failure) => {
            let _ = say(rt, failure);
            ExitCode::FAILURE
        }
    }
}
