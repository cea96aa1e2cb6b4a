// The text of answers, as docs/FORMAT.md has it.
ghost use Rattle.std.specs.Prelude.{Some};
ghost use Rattle.histories.specs.Text.{reply_text, answer_text};

use crate::{Answer, Reply};
use std::fmt;

impl fmt::Display for Reply {
    ghost output = { λ r. Some (reply_text r) };

    fn fmt<W: fmt::Write>(&self, f: &mut fmt::Formatter<W>) -> fmt::Result {
        match self {
            Reply::Done => write!(f, "ok"),
            Reply::Value(None) => write!(f, "ok nothing"),
            Reply::Value(Some(value)) => write!(f, "ok {value}"),
            Reply::Found(row) => write!(f, "ok {row}"),
        }
    }
}

// An answer as it is printed.
#[derive(Clone, Copy, PartialEq, Eq, Debug)]
pub struct AnswerText(pub Answer);

impl fmt::Display for AnswerText {
    ghost output = { λ t. Some (answer_text t.0) };

    fn fmt<W: fmt::Write>(&self, f: &mut fmt::Formatter<W>) -> fmt::Result {
        match self.0 {
            Ok(reply) => write!(f, "{reply}"),
            Err(refusal) => write!(f, "{refusal}"),
        }
    }
}
