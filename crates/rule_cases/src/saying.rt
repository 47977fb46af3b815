// What is printed of a classification.
use std::{fmt, io};
use verdicts::Verdict;
use walk::LookupRefusal;

// What a classification answers.
pub(crate) fn say_verdict(
    out: &impl Print,
    verdict: Result<Verdict, LookupRefusal>,
) -> io::Result<()> {
    match verdict {
        Ok(Verdict::Act { action, reads }) => print!(out; "act {action} reads {reads}"),
        Ok(Verdict::Discard { reads }) => print!(out; "discard reads {reads}"),
        Ok(Verdict::NoRule { reads }) => print!(out; "none reads {reads}"),
        Err(refusal) => {
            let number = refusal.number();
            print!(out; "refused {number}")
        }
    }
}

// A verdict in short: action/reads, d for a discard's action, 0 for no rule, or r and the number of the refusal.
#[derive(Clone, Copy)]
pub struct Short(pub Result<Verdict, LookupRefusal>);

impl fmt::Display for Short {
    fn fmt<W: fmt::Write>(&self, f: &mut fmt::Formatter<W>) -> fmt::Result {
        match self.0 {
            Ok(Verdict::Act { action, reads }) => write!(f, "{action}/{reads}"),
            Ok(Verdict::Discard { reads }) => write!(f, "d/{reads}"),
            Ok(Verdict::NoRule { reads }) => write!(f, "0/{reads}"),
            Err(refusal) => {
                let number = refusal.number();
                write!(f, "r{number}")
            }
        }
    }
}
