//! Canonical traversals, the isomorphism signature and its text, the relabelling that is defined for two tables, and
//! the classes of a census (Burton 2011). The definitions, and the errors that definitions and code share, are here and
//! in `specs/`; `proofs/` has worked examples.
#![tactic(auto)]

ghost use Rattle.std.specs.Prelude.{◌≡◌};
ghost use Rattle.text_definitions.specs.Reading.{PassesOn};
ghost use Rattle.table_definitions.specs.declared.TextFault.TheVariants as TextVariants;
ghost use Rattle.signature_definitions.specs.declared.SigFault.TheVariants as SigVariants;
ghost use Rattle.signature_definitions.specs.declared.InputFault.TheVariants as InputVariants;

use std::alloc::{AllocError, AllocFailed};
use table_definitions::TextFault;
use text_definitions::LexFault;

/// Why a text is no signature. Positions count characters from 0.
#[derive(Clone, Copy)]
pub enum SigFault {
    NoMemory,
    /// A character that is not of the alphabet.
    BadChar { at: usize },
    /// The text ends before a required character.
    Short { at: usize },
    /// A face type that is not possible here.
    BadType { at: usize },
    /// A face type after the last face.
    Leftover { at: usize },
    /// A tetrahedron that is out of range or not yet seen.
    Destination { at: usize },
    /// A number that is no index of a permutation.
    Gluing { at: usize },
    /// A gluing to the face itself or to one that was read before.
    FaceTaken { at: usize },
    /// Characters after the signature.
    Trailing { at: usize },
    /// More tetrahedra than a table may have.
    TooMany,
    /// A tetrahedron that no gluing reaches before its faces are read.
    Unreached,
    /// A number of characters per number that is not the least possible.
    Width { at: usize },
}

impl From<AllocError> for SigFault {
    ghost from_gives = { λ _ e. e ≡ SigVariants.NoMemory };

    fn from(_error: AllocError) -> SigFault {
        SigFault::NoMemory
    }
}

impl<T: Drop> From<AllocFailed<T>> for SigFault {
    ghost from_gives = { λ _ e. e ≡ SigVariants.NoMemory };

    fn from(_failed: AllocFailed<T>) -> SigFault {
        SigFault::NoMemory
    }
}

/// Why an input is no document of its kind.
#[derive(Clone, Copy)]
pub enum InputFault {
    NoMemory,
    /// A line does not have the required form, or the rows are no table. Never `NoMemory`.
    Text(TextFault),
    /// The word after `sig` is no signature. Never `NoMemory`.
    Signature(SigFault),
}

impl From<LexFault> for InputFault {
    ghost from_gives = { λ f e. e ≡ InputVariants.Text (TextVariants.Lex f) };

    fn from(fault: LexFault) -> InputFault {
        InputFault::Text(TextFault::Lex(fault))
    }
}

impl From<TextFault> for InputFault {
    ghost from_gives = { PassesOn TextVariants.NoMemory InputVariants.NoMemory InputVariants.Text };

    fn from(fault: TextFault) -> InputFault {
        match fault {
            TextFault::NoMemory => InputFault::NoMemory,
            other => InputFault::Text(other),
        }
    }
}

impl From<SigFault> for InputFault {
    ghost from_gives = { PassesOn SigVariants.NoMemory InputVariants.NoMemory InputVariants.Signature };

    fn from(fault: SigFault) -> InputFault {
        match fault {
            SigFault::NoMemory => InputFault::NoMemory,
            other => InputFault::Signature(other),
        }
    }
}
