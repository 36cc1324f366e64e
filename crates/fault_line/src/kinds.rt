// The first fault of a text as a value, by names in place of numbers, which is printed as `say` writes it, without its end.
// Rests on text_form.
#![tactic(auto)]

ghost use Rattle.std.specs.Prelude.{Some};
ghost use Rattle.text_form.specs.Said.{what_text};
ghost use Rattle.fault_line.specs.Kinds.{what_of, line_text};

use std::error::Error;
use std::fmt;

/// What stood where a fault is.
#[derive(Clone, Copy, Debug, PartialEq, Eq)]
pub enum Fault {
    /// A byte that is no digit.
    NotADigit(u8),
    /// A digit with which a word has this value, above 65535.
    AboveLargest(u32),
    /// A word beyond the most.
    TooManyWords,
    /// The text ended without any word.
    NoWord,
}

impl fmt::Display for Fault {
    ghost output = { λ fault. Some (what_text (what_of fault)) };

    fn fmt<W: fmt::Write>(&self, f: &mut fmt::Formatter<W>) -> fmt::Result {
        match *self {
            Fault::NotADigit(byte) => {
                if byte.is_ascii_graphic() {
                    write!(f, "'{}' is not a digit", byte as char)
                } else {
                    write!(f, "byte {byte} is not a digit")
                }
            }
            Fault::AboveLargest(value) => write!(f, "{value} is above 65535"),
            Fault::TooManyWords => f.write_str("more than 262144 words"),
            Fault::NoWord => f.write_str("no word"),
        }
    }
}

/// The first fault of a text; the line and the column, both from 1, are those of the byte that made it.
#[derive(Clone, Copy, Debug, PartialEq, Eq)]
pub struct TextFault {
    pub line: usize,
    pub column: usize,
    pub fault: Fault,
}

impl fmt::Display for TextFault {
    ghost output = { λ fault. Some (line_text fault) };

    fn fmt<W: fmt::Write>(&self, f: &mut fmt::Formatter<W>) -> fmt::Result {
        let TextFault {
            line,
            column,
            fault,
        } = *self;
        write!(f, "line {line}, column {column}: {fault}")
    }
}

impl Error for TextFault {}

#[cfg(test)]
mod tests {
    use super::{Fault, TextFault};
    use std::test::Fail;

    #[test]
    fn lines(rt: HostRuntime) -> Result<(), Fail> {
        let cases = [
            (1, 1, Fault::NoWord, "line 1, column 1: no word"),
            (
                2,
                7,
                Fault::NotADigit(b'x'),
                "line 2, column 7: 'x' is not a digit",
            ),
            (
                30,
                1,
                Fault::NotADigit(7),
                "line 30, column 1: byte 7 is not a digit",
            ),
            (
                4,
                5,
                Fault::AboveLargest(65536),
                "line 4, column 5: 65536 is above 65535",
            ),
            (
                262145,
                1,
                Fault::TooManyWords,
                "line 262145, column 1: more than 262144 words",
            ),
        ];
        for (line, column, fault, want) in cases {
            let said = TextFault {
                line,
                column,
                fault,
            };
            let text = format!(in rt.alloc(); "{said}")?;
            assert_eq!(rt; text.as_str(), want);
        }
        Ok(())
    }
}
