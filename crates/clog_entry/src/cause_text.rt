//! The printed text of a cause, which takes no memory.
ghost use Rattle.std.specs.Prelude.{◌≡◌, ◌≤◌, length};
ghost use Rattle.clog_entry.specs.CauseText.{
  with_number,
  cause_text,
  cause_name,
  cause_number,
  payload_cause_name,
  payload_cause_number,
};

use crate::cause::Cause;
use clog_base::{PayloadFault, TextRow};

impl Cause {
    /// The text of the cause: its name and, behind a space where it has one, its number:
    /// `MarkerCheck`, `MarkerTarget 61`, `Payload Short 2`.
    #[tactic(auto, unfolding(crate::specs::CauseText::cause_text))]
    pub fn text(&self) -> TextRow
        ensures text { result ≡ cause_text self.now }
        ensures short { length result ≤ 41 }
    {
        text_of(name_of(*self), number_of(*self))
    }
}

fn text_of(name: &str, number: Option<u64>) -> TextRow
    requires { length name.now ≤ 20 }
    ensures text { result ≡ with_number name.now number }
    ensures short { length result ≤ 41 }
{
    let mut text = TextRow::new();
    text.put(name.as_bytes());
    let Some(number) = number else {
        return text;
    };
    text.put(b" ");
    text.put_number(number);
    text
}

fn name_of(cause: Cause) -> &'static str
    ensures name { result.now ≡ cause_name cause }
    ensures short { length result.now ≤ 20 }
{
    match cause {
        Cause::Short => "Short",
        Cause::SizeUnder10 => "SizeUnder10",
        Cause::SizeCheck => "SizeCheck",
        Cause::BodyCheck => "BodyCheck",
        Cause::PastSection => "PastSection",
        Cause::Version(_) => "Version",
        Cause::Parameters => "Parameters",
        Cause::HeaderCheck => "HeaderCheck",
        Cause::MarkerCheck => "MarkerCheck",
        Cause::MarkerTarget(_) => "MarkerTarget",
        Cause::HeaderId(_) => "HeaderId",
        Cause::Payload(fault) => payload_name_of(fault),
    }
}

fn payload_name_of(fault: PayloadFault) -> &'static str
    ensures name { result.now ≡ payload_cause_name fault }
    ensures short { length result.now ≤ 20 }
{
    match fault {
        PayloadFault::Short(_) => "Payload Short",
        PayloadFault::BadTag(_) => "Payload BadTag",
        PayloadFault::Count => "Payload Count",
        PayloadFault::NotUtf8(_) => "Payload NotUtf8",
        PayloadFault::Trailing(_) => "Payload Trailing",
        PayloadFault::NameLength(_) => "Payload NameLength",
        PayloadFault::BadTable(_) => "Payload BadTable",
        PayloadFault::OutOfMemory => "Payload OutOfMemory",
    }
}

fn number_of(cause: Cause) -> Option<u64>
    ensures { result ≡ cause_number cause }
{
    match cause {
        Cause::Version(number) | Cause::MarkerTarget(number) => Some(u64::from(number)),
        Cause::HeaderId(id) => Some(id),
        Cause::Payload(fault) => payload_number_of(fault),
        _ => None,
    }
}

fn payload_number_of(fault: PayloadFault) -> Option<u64>
    ensures { result ≡ payload_cause_number fault }
{
    match fault {
        PayloadFault::Short(at)
        | PayloadFault::BadTag(at)
        | PayloadFault::NotUtf8(at)
        | PayloadFault::Trailing(at)
        | PayloadFault::NameLength(at)
        | PayloadFault::BadTable(at) => Some(at),
        PayloadFault::Count | PayloadFault::OutOfMemory => None,
    }
}
