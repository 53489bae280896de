//! Bounds on the coefficients of the matching equations of a table by row and by column, and the bounds on all numbers
//! of an enumeration that follow from them.
//!
//! T has n tetrahedra. The *equations* of T are its matching equations in standard or octagon coordinates, and one
//! equation for each internal edge in quad coordinates. A *vertex surface* is a primitive extreme solution of them that
//! is nonzero in no clashing pair of columns. The *bound* b(n) is 4 * 16^n in standard, 12n * 16^n in quad, and
//! 512 * 16^n in octagon coordinates.
#![tactic(auto)]

ghost use Rattle.surface_equation_laws.specs.EquationSums.{EquationTrianglesAreAtMostOne, EquationRowsAreAtMostBounds, EquationTermsAreAtMostBounds, EquationColumnsAreAtMostWeights};
ghost use Rattle.surface_equation_laws.specs.MatchingSums.{TrianglesAreAtMostOne, RowsAreAtMostSides, ColumnsAreAtMostWeights};
ghost use Rattle.surface_equation_laws.specs.Products.{ProductsAreSmall, SupportsHaveNoClash};
ghost use Rattle.surface_equation_laws.specs.QuadSums.{QuadColumnsAreAtMostFour, QuadRowsAreAtMostEdges, QuadRowsAreAtMostWalks};
ghost use Rattle.surface_equation_laws.specs.Selected.{SelectedColumnSumsAreSmaller};
ghost use Rattle.surface_equation_laws.specs.Zeros.{PartsAreByEntries, TermsAreInColumns};
ghost use Rattle.surface_equation_laws.specs.Bounds.{CapsAreBounds, EntriesAreSmall, TablesAreBounded, TablesAreWithin, NamedRowsAreWithin, TablesAreListed, TablesDoNotExceed};
ghost use Rattle.surface_equation_laws.specs.Caps.{TablesHaveCaps};
ghost use Rattle.surface_equation_laws.specs.BoundedTables.{MostTetrahedra, OwnEnumerations, SmallTablesAreListed, SmallTablesStayWithin};
ghost use Rattle.surface_equation_laws.specs.OneForm.{TablesHaveOneForm, TablesAreBoundedInOneForm};

/// Lemma: in a matching equation of T, in standard or octagon coordinates,
///
/// 1. the positive coefficients of triangles have sum at most 1, and so have the magnitudes of the negative ones;
/// 2. all positive coefficients have sum at most 2 in standard, and at most 4 in octagon coordinates, and so have the
///    magnitudes of all negative ones.
pub fn matching_rows_are_small()
    ensures triangles { TrianglesAreAtMostOne }
    ensures sides { RowsAreAtMostSides }
{}

/// Lemma: let coordinates be standard or octagon. In the column of a quad, the magnitudes of the coefficients of all
/// matching equations of T have sum at most 4, and in that of an octagon at most 8.
pub fn matching_columns_are_small()
    ensures { ColumnsAreAtMostWeights }
{}

/// Lemma: in each column, the magnitudes of the coefficients of all quad equations of T have sum at most 4.
pub fn quad_columns_are_small()
    ensures { QuadColumnsAreAtMostFour }
{}

/// Lemma:
///
/// 1. In a quad equation of T the positive coefficients have sum at most 6n, and so have the magnitudes of the negative
///    ones.
/// 2. In the equation of any list of corners, both sums are at most the number of corners.
pub fn quad_rows_are_small()
    ensures edges { QuadRowsAreAtMostEdges }
    ensures walks { QuadRowsAreAtMostWalks }
{}

/// Lemma: give a triangle the weight 1, a quad 4 and an octagon 8.
///
/// 1. Let different columns of n tetrahedra contain no clashing pair. The product of their weights is at most 4^n in
///    standard and quad coordinates, and at most 2 * 4^n in octagon coordinates.
/// 2. Columns at which an admissible vector is nonzero contain no clashing pair.
pub fn weight_products_are_small()
    ensures products { ProductsAreSmall }
    ensures supports { SupportsHaveNoClash }
{}

/// Lemma: let rows with different indices be selected from a list of rows. In each column, the magnitudes of their
/// coefficients have at most the sum that those of all rows have.
pub fn selected_rows_are_fewer()
    ensures { SelectedColumnSumsAreSmaller }
{}

/// Lemma: let r be an equation of T in any coordinates. Let b be 2 in standard, 4 in octagon and 6n in quad
/// coordinates.
///
/// 1. The positive coefficients of r at triangles have sum at most 1, and so have the magnitudes of the negative ones.
/// 2. All positive coefficients of r have sum at most b, and so have the magnitudes of the negative ones.
/// 3. So have the terms of r as they are listed.
/// 4. The magnitudes of the coefficients of all equations have sum at most 4 in the column of a quad, and at most 8 in
///    that of an octagon.
pub fn equations_are_small()
    ensures triangles { EquationTrianglesAreAtMostOne }
    ensures rows { EquationRowsAreAtMostBounds }
    ensures terms { EquationTermsAreAtMostBounds }
    ensures columns { EquationColumnsAreAtMostWeights }
{}

/// Lemma:
///
/// 1. Let a row have terms only in the first n columns. Its positive part at a vector minus its negative part is the
///    sum, over these columns, of the row's coefficient times the vector's entry.
/// 2. Each equation of T, in any coordinates, has terms only in the columns of T.
pub fn rows_are_their_entries()
    ensures parts { PartsAreByEntries }
    ensures terms { TermsAreInColumns }
{}

/// Lemma: in any coordinates, the equations and clashing pairs of T have the certificate of bounds. In each equation
/// the coefficients of each sign at triangles have sum at most 1, and all magnitudes have sum at most 4 in standard, 8
/// in octagon and 12n in quad coordinates. Other columns fall into groups: quads by their tetrahedron, and all
/// octagons. Any two columns of a group clash. The magnitudes of all equations have sum at most 4 in the column of a
/// quad, and 8 in that of an octagon.
///
/// 1. This holds with the triangles as free columns, for each of the coordinates.
/// 2. It holds with groups and bounds defined in one form for all coordinates.
pub fn tables_have_caps()
    ensures caps { TablesHaveCaps }
    ensures one_form { TablesHaveOneForm }
{}

/// Theorem: let T have n tetrahedra. Let b(n) be 4 * 16^n in standard, 12n * 16^n in quad, and 512 * 16^n in octagon
/// coordinates.
///
/// 1. These bounds are those of the certificate in `tables_have_caps`.
/// 2. No entry of a vertex surface of T exceeds 4^n in standard and quad, or 8 * 4^n in octagon coordinates.
///
/// Let the limit of an enumeration of T be at least b(n).
///
/// 3. The certificate, in both forms, holds with this limit.
/// 4. No number of a step exceeds the limit, with rows in any order, or as far as an order names them.
/// 5. With all rows as an order names them, the surface list of T is the enumeration's.
/// 6. No ray or pair of rays is named as the first to exceed it.
pub fn tables_are_bounded()
    ensures bounds { CapsAreBounds }
    ensures entries { EntriesAreSmall }
    ensures bounded { TablesAreBounded }
    ensures one_form { TablesAreBoundedInOneForm }
    ensures within { TablesAreWithin }
    ensures named { NamedRowsAreWithin }
    ensures listed { TablesAreListed }
    ensures none { TablesDoNotExceed }
{}

/// Theorem: let m be 31 in standard, and 29 in quad and octagon coordinates.
///
/// 1. The bound b(n) of `tables_are_bounded` is at most 2^127 - 1 if and only if n <= m.
/// 2. The enumeration of T by its equations and clashing pairs, with any order and limit, is one of those of which
///    `tables_are_bounded` speaks.
///
/// Let T have at most m tetrahedra, and the limit be 2^127 - 1.
///
/// 3. With all rows as an order names them, the surface list of T is its enumeration's.
/// 4. No ray and no pair of rays is named as the first to exceed the limit.
pub fn small_tables_are_bounded()
    ensures most { MostTetrahedra }
    ensures own { OwnEnumerations }
    ensures listed { SmallTablesAreListed }
    ensures none { SmallTablesStayWithin }
{}
