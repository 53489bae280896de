//! Theorems on reading inputs: an input is read if and only if its lines are in the grammar, and an error is reported
//! at a symbol that no input of the kind has there. The functions have empty bodies: their contracts are theorems.
//!
//! The *symbols* of a text are its words, the ends of its lines, and its end. A symbol *leaves* a set of texts if no
//! text of the set begins with the symbols before it and this symbol. It leaves the set *first* if a text of the set
//! begins with the symbols before it. An input is refused *for its form* if the error is at a symbol: not if rows are
//! no table, or a signature is none.
#![tactic(auto)]

ghost use Rattle.text_document_laws.specs.ConeLaws.{ConesAreRead, ConeDocumentsAreRead};
ghost use Rattle.text_document_laws.specs.FaultLaws.{ConeFaultsLeave, TableFaultsLeaveFirst, SecondTableFaultsLeaveFirst, TwoTablesFaultsLeaveFirst, TablesFaultsLeaveFirst};
ghost use Rattle.text_document_laws.specs.FaultLaws.{VectorsFaultsLeaveFirst, VectorFaultsLeaveFirst, StepsFaultsLeaveFirst, MovesFaultsLeaveFirst, BlocksFaultsLeaveFirst};
ghost use Rattle.text_document_laws.specs.FormLaws.{TableLaws, TwoTablesLaws, TablesLaws, VectorsLaws, VectorLaws, StepsLaws, MovesLaws, BlocksLaws};
ghost use Rattle.text_document_laws.specs.TableLaws.{AnyTablesAreRead, AnyTableFaultsComeFirst};

/// Theorem:
///
/// 1. The next lines of an input are read as a cone, and the rest is left, if and only if the lines are those of the
///    cone followed by the rest.
/// 2. The bytes of an input are read as a cone if and only if their lines are those of the cone.
/// 3. If the bytes are refused, the error is at the first symbol after which no continuation is the text of a cone.
pub fn cones_are_read()
    ensures lines { ConesAreRead }
    ensures documents { ConeDocumentsAreRead }
    ensures faults { ConeFaultsLeave }
{}

/// Theorem: let a table, in either form, be read from the next lines of an input.
///
/// 1. A table is read, and the rest is left, if and only if the lines are those of the table followed by the rest.
/// 2. Let the line before be read to its end, and the lines be refused for their form. Then the error is at the first
///    symbol after which no continuation begins with a text of the form of a table.
pub fn next_tables_are_read()
    ensures lines { AnyTablesAreRead }
    ensures faults { AnyTableFaultsComeFirst }
{}

/// Theorem: let the kind of an input be one, two, or any number of tables.
///
/// 1. An input is read if and only if its lines spell one of the kind, and such lines have the form of its text. If it
///    is refused for its form, the error is at the first symbol after which no continuation has this form, nor is of
///    the kind.
/// 2. Let what follows one table of one, or both of two, be refused for its form. The error is at the first symbol
///    after which no continuation is of the kind. After one of two, or k of any number, it is the first after which
///    none is as many tables and the form of more.
pub fn tables_are_read()
    ensures one { TableLaws }
    ensures one_first { TableFaultsLeaveFirst }
    ensures two { TwoTablesLaws }
    ensures second_first { SecondTableFaultsLeaveFirst }
    ensures two_first { TwoTablesFaultsLeaveFirst }
    ensures any { TablesLaws }
    ensures any_first { TablesFaultsLeaveFirst }
{}

/// Theorem: for an input of a table with vectors, or with one vector:
///
/// 1. The bytes are read as such if and only if their lines spell it, and such lines have the form of their text. If
///    the bytes are refused for their form, the error is at the first symbol after which no continuation has this form,
///    and none is such an input.
/// 2. If the table is read and what follows is refused for its form, the error is at the first symbol after which no
///    continuation is such an input.
pub fn tables_with_vectors_are_read()
    ensures vectors { VectorsLaws }
    ensures vectors_first { VectorsFaultsLeaveFirst }
    ensures vector { VectorLaws }
    ensures vector_first { VectorFaultsLeaveFirst }
{}

/// Theorem: for an input of a table with steps, or with moves:
///
/// 1. The bytes are read as such if and only if their lines spell it, and such lines have the form of their text. If
///    the bytes are refused for their form, the error is at the first symbol after which no continuation has this form,
///    and none is such an input.
/// 2. If the table is read and what follows is refused for its form, the error is at the first symbol after which no
///    continuation is such an input.
pub fn tables_with_moves_are_read()
    ensures steps { StepsLaws }
    ensures steps_first { StepsFaultsLeaveFirst }
    ensures moves { MovesLaws }
    ensures moves_first { MovesFaultsLeaveFirst }
{}

/// Theorem: for an input of a table with blocks of sums:
///
/// 1. The bytes are read as such if and only if their lines spell it, and such lines have the form of their text. If
///    the bytes are refused for their form, the error is at the first symbol after which no continuation has this form,
///    and none is such an input.
/// 2. If the table is read and what follows is refused for its form, the error is at the first symbol after which no
///    continuation is such an input.
pub fn tables_with_blocks_are_read()
    ensures blocks { BlocksLaws }
    ensures blocks_first { BlocksFaultsLeaveFirst }
{}
