//! Which first entries of rows begin a table, and what that implies for the first error in the text of a table. The
//! functions have empty bodies: their contracts are theorems.
//!
//! The *symbols* of a text are its words, the ends of its lines, and its end. *Entries* of rows, the last row possibly
//! cut off, are *sound* for n if n is at most 1000, there are at most n rows of at most four entries, each glued face
//! reaches another face of one of n tetrahedra by a permutation of four, is glued back by the inverse if that face has
//! an entry, and no two faces reach one face. Symbols are *sound* if they begin a line `tri N` and its rows, whose
//! entries are sound for N, or a line `sig TEXT` whose text spells a table. An input is refused *for its form* if the
//! error is at a symbol.
#![tactic(auto)]

ghost use Rattle.text_partial_laws.specs.Laws.{PartialTablesAreCompleted, SoundSymbolsGoOn, SoundFaultsLeaveFirst};

/// Theorem: let first entries of rows be given, and a number n. There is a table of n tetrahedra with these entries if
/// and only if the entries are sound for n.
pub fn partial_tables_are_completed()
    ensures { PartialTablesAreCompleted }
{}

/// Theorem:
///
/// 1. Symbols begin the text of a table, with a further symbol after them, if and only if they are sound.
/// 2. Let an input of any kind with tables be refused for its form. The error is at a symbol after which no
///    continuation is such an input. It is the first such symbol if the symbols before it are sound. For an input of
///    two tables, they may also be those of one table and then sound symbols; for any number of tables, those of tables
///    and then sound symbols.
pub fn sound_faults_leave_first()
    ensures symbols { SoundSymbolsGoOn }
    ensures faults { SoundFaultsLeaveFirst }
{}
