//! Theorems on the connected components of tables and on component signatures. The functions have empty bodies: their
//! contracts are the theorems.
//!
//! The *components* of a table are listed by their least tetrahedra. The *component signature* of a table is the list
//! of the signatures of its components in ascending order, joined by full stops. An *isomorphism* is a relabelling that
//! carries one table to another.
#![tactic(auto)]

ghost use Rattle.component_laws.specs.Laws.{PartsAreTables, SomeListOfParts, OneListOfParts, ComponentSignaturesDetermineTables, OneComponentSignature, ConnectedHasSignature, SamePartsCarry, OneSameParts};
ghost use Rattle.component_laws.specs.WorkedParts.{TwoFreeTets};

/// Theorem: let T be a table.
///
/// 1. Each component of T is a connected table.
/// 2. T has a list of its components.
/// 3. It has only one.
pub fn parts_are_tables()
    ensures tables { PartsAreTables }
    ensures some { SomeListOfParts }
    ensures one { OneListOfParts }
{}

/// Theorem: let T and T' be tables.
///
/// 1. Let T and T' have component signatures. These are equal if and only if T and T' are isomorphic.
/// 2. T has at most one component signature.
/// 3. If T is connected, a text is the component signature of T if and only if it is the signature of T.
///
/// Each table has a component signature: see `component_signatures_exist`.
pub fn component_signatures_determine_tables()
    ensures determine { ComponentSignaturesDetermineTables }
    ensures one { OneComponentSignature }
    ensures connected { ConnectedHasSignature }
{}

/// Theorem: let T and T' be tables. Consider relabellings that map the components of T to those of T', in the order of
/// their signatures, each by the least isomorphism.
///
/// 1. Each such relabelling carries T to T'.
/// 2. There is at most one.
pub fn part_relabellings_are_unique()
    ensures carry { SamePartsCarry }
    ensures one { OneSameParts }
{}

/// Example: the component signature of two tetrahedra of which no face is glued is `baa.baa`.
pub fn worked_parts()
    ensures { TwoFreeTets }
{}
