//! Why a line is no reply, and the message of that. `specs/Complaints.antt` has the texts.

ghost use Rattle.std.specs.Prelude.{◌≡◌};
ghost use Rattle.jh_test_parts.specs.Complaints as rule;

use jh_edn::EdnError;
use jh_ops::OpError;
use std::fmt::{self, Display, Formatter, Write};

/// Why a line is no reply.
#[derive(Clone, Copy, Debug, PartialEq, Eq)]
pub enum Complaint {
    /// The first error of its text, or that its bytes are none in UTF-8. The line that the error names
    /// means nothing.
    Edn(EdnError),
    MoreThanOne,
    /// Why its element is no operation.
    Op(OpError),
    BadTime,
    NoStepOpen,
    OtherStep,
    NoCallOpen,
    OtherCall,
    BadValue,
    /// The line of a test waits for `:ready`.
    NotReady,
}

/// What is wrong with a text of EDN, without the line at which it is.
fn edn_text(error: EdnError) -> &'static str
    ensures { result.now ≡ rule.edn_text error }
{
    match error {
        EdnError::UnexpectedEnd(_) => "unexpected end",
        EdnError::BadToken(_) => "bad token",
        EdnError::FloatUnsupported(_) => "float unsupported",
        EdnError::IntegerRange(_) => "integer out of range",
        EdnError::BadEscape(_) => "bad escape",
        EdnError::OddMap(_) => "odd map",
        EdnError::DuplicateKey(_) => "duplicate key",
        EdnError::TooDeep(_) => "too deep",
        EdnError::Utf8 => "not UTF-8",
        EdnError::TooLong => "input too long",
        EdnError::Read => "read failed",
        EdnError::Write => "write failed",
        EdnError::OutOfMemory => "out of memory",
    }
}

impl Display for Complaint {
    ghost use Rattle.jh_test_parts.specs.Complaints.{complaint_text};

    ghost output = { complaint_text };

    fn fmt<W: Write>(&self, f: &mut Formatter<W>) -> fmt::Result {
        match *self {
            Complaint::Edn(error) => f.write_str(edn_text(error)),
            Complaint::MoreThanOne => f.write_str("more than one element"),
            Complaint::Op(error) => write!(f, "{error}"),
            Complaint::BadTime => f.write_str("bad time"),
            Complaint::NoStepOpen => f.write_str("no step is open"),
            Complaint::OtherStep => f.write_str("not the answer of the step that is open"),
            Complaint::NoCallOpen => f.write_str("no call of this process is open"),
            Complaint::OtherCall => f.write_str("not the answer of the call that is open"),
            Complaint::BadValue => f.write_str("bad value"),
            Complaint::NotReady => f.write_str("not :ready"),
        }
    }
}
