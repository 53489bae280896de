//! Outcomes: what is to be written, and the exit status.
ghost use Rattle.std.specs.Prelude.{◌≡◌};
ghost use Rattle.outcome_definitions.specs.Outcomes.{usage_outcome, too_long_outcome, read_outcome};
ghost use Rattle.outcome_definitions.specs.Canonical.{different_outcome};
ghost use Rattle.command_answers.specs.Texts.{fixed_bytes};

use outcome_definitions::Status;
use std::marker::Model;

/// A text that needs no allocation.
#[derive(Clone, Copy)]
pub enum Fixed {
    Usage,
    ReadFault,
    TooLong,
    Different,
}

impl Fixed {
    /// The bytes of the text.
    #[tactic(auto, unfolding(outcome_definitions::specs::Lines::usage_line, outcome_definitions::specs::Lines::read_line, outcome_definitions::specs::Lines::too_long_line, outcome_definitions::specs::Canonical::different_text))]
    fn bytes(self) -> &'static [u8]
        ensures { result.now ≡ fixed_bytes self }
    {
        match self {
            Fixed::Usage => b"refused: usage\n",
            Fixed::ReadFault => b"refused: read\n",
            Fixed::TooLong => b"refused: input too-long\n",
            Fixed::Different => b"different\n",
        }
    }
}

/// A text that is to be written.
#[derive(Drop)]
pub enum Text {
    Fixed(Fixed),
    Built(Vec<u8>),
}

/// An exit status, and the text to be written with it.
#[derive(Drop)]
pub struct Outcome {
    status: Status,
    text: Text,
}

impl Model for Outcome {
    ghost use Rattle.command_answers.specs.Texts.{text_bytes};
    ghost use Rattle.outcome_definitions.specs.Outcomes as outcomes;

    ghost Value = { outcomes.Outcome };

    ghost view = { λ o. record { status = o.status; text = text_bytes o.text } };
}

impl Outcome {
    /// The outcome with status `status` and text `text`.
    pub fn with_text(status: Status, text: Vec<u8>) -> Outcome
        ensures { result ≡ record { status = status; text = text.items } }
    {
        Outcome {
            status,
            text: Text::Built(text),
        }
    }

    /// The outcome for words that are not accepted.
    pub fn usage() -> Outcome
        ensures { result ≡ usage_outcome }
    {
        Outcome {
            status: Status::Usage,
            text: Text::Fixed(Fixed::Usage),
        }
    }

    /// The outcome if the source failed.
    pub fn read_fault() -> Outcome
        ensures { result ≡ read_outcome }
    {
        Outcome {
            status: Status::ReadFault,
            text: Text::Fixed(Fixed::ReadFault),
        }
    }

    /// The outcome if the input is too long.
    pub fn too_long() -> Outcome
        ensures { result ≡ too_long_outcome }
    {
        Outcome {
            status: Status::Input,
            text: Text::Fixed(Fixed::TooLong),
        }
    }

    /// The outcome `different`: the tables are not isomorphic.
    pub fn different() -> Outcome
        ensures { result ≡ different_outcome }
    {
        Outcome {
            status: Status::Done,
            text: Text::Fixed(Fixed::Different),
        }
    }

    /// The exit status.
    pub fn status(&self) -> Status
        ensures { result ≡ self.now.status }
    {
        self.status
    }

    /// The bytes for standard output.
    pub fn text(&self) -> &[u8]
        ensures { result.now ≡ self.now.text }
    {
        match &self.text {
            Text::Fixed(fixed) => fixed.bytes(),
            Text::Built(text) => text.as_slice(),
        }
    }
}
