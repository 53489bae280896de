//! Compares the text of a canonical traversal with a bound while the traversal is made, and stops at the first
//! difference.

ghost use Rattle.std.specs.Prelude.{◌≡◌, ◌≢◌, ◌<◌, ◌≤◌, ◌+◌, ◌-◌, ◌*◌, ◌/◌, ◌^◌, ◌++◌, ◌∷◌, [], ℕ, List, true, false, None, Some, All, length, replicate, map, slice_get, slice_index, IfOk, IfSome, IfNone, OnOk};
ghost use Rattle.std.specs.List.{slice_index_or};
ghost use Rattle.table_definitions.specs.Lists.{is_list_before};
ghost use Rattle.table_definitions.specs.Table.{max_tets, IsTable, other_side, face_number};
ghost use Rattle.table_definitions.specs.Places.{face_of};
ghost use Rattle.signature_definitions.specs.Spelling as spellings;
ghost use Rattle.signature_definitions.specs.Spelling.{character, packed};
ghost use Rattle.signature_text_laws.specs.Texts.{destinations_text, indices_text};
ghost use Rattle.signature_laws.specs.Starts.{IsTextFrom};
ghost use Rattle.canonical_labelling.specs.Comparisons as comparisons;
ghost use Rattle.canonical_labelling.specs.Comparisons.{IsComparison, AreUnmarked, IsClean, IsWorkSpace, ReadsAtMost, IsDecided, IsUndecided, head_text, compare_by, comparison_view};

use crate::Start;
use crate::comparison::{Comparison, FoundTypes, TableSize, WorkSpace};
use crate::order::{Walking, face_from, follow, leave};
use gluing_table::{Face, Glue, Probe};
use out_of_memory::NoMemory;
use signature_codec::{
    append_destinations, append_head, append_indices, append_types, type_character, width,
};
use std::alloc::{AllocError, Global};

/// Whether `first` comes before `second` in lexicographic order, a prefix first.
pub fn is_before(first: &[u8], second: &[u8]) -> bool
    ensures { result ≡ is_list_before first.now second.now }
{
    let mut i = 0;
    while i < first.len() && i < second.len() {
        if first[i] != second[i] {
            return first[i] < second[i];
        }
        i += 1;
    }
    first.len() < second.len()
}

/// Compares a text whose byte at index `place` is `character` with `bound`, where the two agree before `place`: whether
/// the text comes first, or `None` if `bound` has the same byte there.
fn compare_at(bound: &[u8], place: usize, character: u8) -> Option<bool>
    ensures { result ≡ compare_by (slice_get bound.now place) character }
{
    if place >= bound.len() {
        return Some(false);
    }
    if character == bound[place] {
        return None;
    }
    Some(character < bound[place])
}

/// Whether every text that begins with `text` comes before `bound`; `None` if `text` is a prefix of `bound`.
fn compare_head(text: &[u8], bound: &[u8]) -> Option<bool>
    ensures { result ≡ comparisons.reported text.now bound.now }
{
    let mut i = 0;
    while i < text.len() {
        let reported = compare_at(bound, i, text[i]);
        if reported.is_some() {
            return reported;
        }
        i += 1;
    }
    None
}

/// Gives the tetrahedron across `glue` the next new number and appends it to the traversal, unless it was visited
/// before.
fn assign_number(comparison: &mut Comparison, from: Start, glue: Glue) -> Result<(), AllocError>
    requires in_range { glue.tet < length comparison.old.numbers.items }
    requires limited { length comparison.old.walking.order.items < 2 ^ 32 }
    ensures { OnOk result (comparison_view comparison.new
        ≡ comparisons.numbered (slice_index_or comparison.old.walking.visited.items glue.tet false) from glue
        (comparison_view comparison.old)) }
{
    if !comparison.walking.visited[glue.tet as usize] {
        comparison.numbers[glue.tet as usize] = comparison.walking.order.len() as u32;
    }
    follow(&mut comparison.walking, from, glue)
}

/// The gluing `glue`, of a face of the tetrahedron of `from`, in the new labels. Its target has a new number.
fn new_gluing(comparison: &Comparison, from: Start, glue: Glue) -> Glue
    requires numbers { glue.tet < length comparison.now.numbers.items }
    requires order { slice_index comparison.now.numbers.items glue.tet < length comparison.now.walking.order.items }
    ensures { result ≡ comparisons.new_gluing from glue (comparison_view comparison.now) }
{
    let number = comparison.numbers[glue.tet as usize];
    let there = comparison.walking.order[number as usize];
    Glue {
        tet: number,
        perm: there.perm.compose(glue.perm.compose(from.perm.inverse())),
    }
}

/// Records the gluing `glue` of the new face with index `place` (4 times tetrahedron plus face). The face on its other
/// side is marked as crossed; the type is 2 if the target was visited before (`visited`), and then `glue` is recorded
/// too, and 1 otherwise.
fn record_crossing(
    comparison: &mut Comparison,
    place: u32,
    glue: Glue,
    visited: bool,
) -> Result<(), AllocError>
    requires { glue.tet < length comparison.old.numbers.items }
    ensures crossed { OnOk result (comparison_view comparison.new
        ≡ comparisons.crossed visited place glue (comparison_view comparison.old)) }
    ensures other { face_number (other_side (face_of place) glue) < 4 * glue.tet + 4 }
{
    let other = glue.other_side(Face {
        tet: place / 4,
        face: (place % 4) as u8,
    });
    comparison.crossed[(4 * other.tet + u32::from(other.face)) as usize] = true;
    if !visited {
        comparison.types.push(1)?;
        return Ok(());
    }
    comparison.types.push(2)?;
    comparison.gluings.push(glue)?;
    Ok(())
}

/// Records the face with new index `place`, glued by `glue` in the old labels, and visits the tetrahedron across it.
fn take_glued(
    comparison: &mut Comparison,
    place: u32,
    from: Start,
    glue: Glue,
) -> Result<(), AllocError>
    requires comparison { IsComparison place (comparison_view comparison.old) }
    requires in_range { glue.tet < length comparison.old.numbers.items }
    ensures takes { OnOk result (comparison_view comparison.new
        ≡ comparisons.take_glued place from glue (comparison_view comparison.old)) }
    ensures comparison { OnOk result (IsComparison (place + 1) (comparison_view comparison.new)) }
    ensures size { OnOk result (length comparison.new.numbers.items ≡ length comparison.old.numbers.items) }
{
    let visited = comparison.walking.visited[glue.tet as usize];
    assign_number(comparison, from, glue)?;
    let there = new_gluing(comparison, from, glue);
    record_crossing(comparison, place, there, visited)?;
    Ok(())
}

/// Records the face with new index `place`, reading its gluing from `probe` unless the face was reached from its other
/// side.
fn take(comparison: &mut Comparison, probe: &mut Probe<'_>, place: u32) -> Result<(), AllocError>
    requires table { IsTable probe.old.rows }
    requires in_range { place < 4 * length probe.old.rows }
    requires comparison { IsComparison place (comparison_view comparison.old) }
    requires size { length comparison.old.numbers.items ≡ length probe.old.rows }
    ensures takes { OnOk result (comparison_view comparison.new
        ≡ comparisons.take_place probe.old.rows place (comparison_view comparison.old)) }
    ensures comparison { OnOk result (IsComparison (place + 1) (comparison_view comparison.new)) }
    ensures size { OnOk result (length comparison.new.numbers.items ≡ length comparison.old.numbers.items) }
    ensures rows { probe.new.rows ≡ probe.old.rows }
    ensures reads { OnOk result (probe.new.taken + length comparison.old.types.items
        ≤ probe.old.taken + length comparison.new.types.items) }
{
    if comparison.crossed[place as usize] {
        return Ok(());
    }
    let number = (place / 4) as usize;
    // in a disconnected table not every number is given
    if number >= comparison.walking.order.len() {
        return Ok(());
    }
    let from = comparison.walking.order[number];
    let Some(glue) = probe.glue(face_from(from, place)) else {
        comparison.types.push(0)?;
        return Ok(());
    };
    take_glued(comparison, place, from, glue)
}

/// Compares the character that packs the three types from index `i` on with `found.bound`; `None` if they are equal.
fn compare_character(found: FoundTypes<'_>, i: usize) -> Option<bool>
    requires { i < length found.types.now }
    ensures { result ≡ compare_by (slice_get found.entry.bound.now (found.entry.head + i / 3))
        (comparisons.type_character found.entry.types.now i) }
{
    compare_at(
        found.bound,
        found.head + i / 3,
        type_character(found.types, i),
    )
}

/// Compares the last type character of `found` if all three of its types are known; `None` if not, or if the characters
/// are equal.
fn compare_full_character(found: FoundTypes<'_>) -> Option<bool>
    ensures { result ≡ comparisons.compare_full_character found.entry.types.now found.entry.bound.now found.entry.head }
{
    let count = found.types.len();
    if count == 0 || count % 3 != 0 {
        return None;
    }
    compare_character(found, count - 3)
}

/// Compares the last type character of `found` if it packs only one or two types; `None` if it does not, or if the
/// characters are equal.
fn compare_last_character(found: FoundTypes<'_>) -> Option<bool>
    ensures { result ≡ comparisons.compare_last_character found.entry.types.now found.entry.bound.now found.entry.head }
{
    let count = found.types.len();
    let rest = count % 3;
    if rest == 0 {
        return None;
    }
    compare_character(found, count - rest)
}

/// A state for tables of this size that has visited no tetrahedron.
fn blank(alloc: Global, size: TableSize) -> Result<Comparison, AllocError>
    ensures clean { IfOk result (λ t. IsClean (comparison_view t)) }
    ensures size { IfOk result (λ t. length t.numbers.items ≡ size.count) }
{
    let count = size.count as usize;
    let order = Vec::with_capacity(alloc, count)?;
    let visited = vec![in alloc; false; count]?;
    let numbers = vec![in alloc; 0u32; count]?;
    let crossed = vec![in alloc; false; 4 * count]?;
    Ok(Comparison {
        walking: Walking { order, visited },
        numbers,
        crossed,
        types: Vec::new(alloc),
        gluings: Vec::new(alloc),
    })
}

/// A work space for tables of this size.
pub fn work_space(alloc: Global, size: TableSize) -> Result<WorkSpace, NoMemory>
    ensures { IfOk result (IsWorkSpace size.count) }
{
    let count = size.count;
    let mut head = Vec::new(alloc);
    append_head(&mut head, count)?;
    let comparison = blank(alloc, size)?;
    Ok(WorkSpace { comparison, head })
}

/// Visits the tetrahedron of `start`, the first one of a traversal.
fn begin(comparison: &mut Comparison, start: Start) -> Result<(), AllocError>
    requires clean { IsClean (comparison_view comparison.old) }
    requires in_range { start.tet < length comparison.old.numbers.items }
    ensures comparison { OnOk result (IsComparison 0 (comparison_view comparison.new)) }
    ensures order { OnOk result (comparison.new.walking.order.items ≡ start ∷ []) }
    ensures types { OnOk result (comparison.new.types.items ≡ []) }
    ensures gluings { OnOk result (comparison.new.gluings.items ≡ []) }
    ensures crossed { OnOk result (AreUnmarked comparison.new.crossed.items) }
    ensures size { OnOk result (length comparison.new.numbers.items ≡ length comparison.old.numbers.items) }
{
    comparison.walking.order.push(start)?;
    comparison.walking.visited[start.tet as usize] = true;
    comparison.numbers[start.tet as usize] = 0;
    Ok(())
}

/// Finds the types of the traversal from `start` up to the first type character that differs from `bound`, which
/// begins with the head of the text. Returns whether the text comes before `bound`; `None` if all type characters
/// agree, and then all types and gluings are found.
fn compare_types(
    space: &mut WorkSpace,
    probe: &mut Probe<'_>,
    start: Start,
    bound: &[u8],
) -> Result<Option<bool>, AllocError>
    requires table { IsTable probe.old.rows }
    requires in_range { start.tet < length probe.old.rows }
    requires space { IsWorkSpace (length probe.old.rows) space.old }
    requires agreed { comparisons.reported (head_text (length probe.old.rows)) bound.now ≡ None }
    ensures reported { IfOk result (λ r.
        IfSome r (IsDecided probe.old.rows start bound.now (probe.new.taken - probe.old.taken))) }
    ensures untold { IfOk result (λ r.
        IfNone r (IsUndecided probe.old.rows start bound.now (comparison_view space.new.comparison))) }
    ensures comparison { OnOk result (IsComparison (4 * length probe.old.rows) (comparison_view space.new.comparison)) }
    ensures size { OnOk result (length space.new.comparison.numbers.items ≡ length probe.old.rows) }
    ensures head { space.new.head.items ≡ space.old.head.items }
    ensures rows { probe.new.rows ≡ probe.old.rows }
{
    let head = space.head.len();
    begin(&mut space.comparison, start)?;
    for place in 0..4 * probe.len() {
        take(&mut space.comparison, probe, place)?;
        let reported = compare_full_character(FoundTypes {
            types: &space.comparison.types,
            bound,
            head,
        });
        if reported.is_some() {
            return Ok(reported);
        }
    }
    Ok(compare_last_character(FoundTypes {
        types: &space.comparison.types,
        bound,
        head,
    }))
}

/// Sets the first `count` marks to false, where no other mark is set.
fn unmark_first(marks: &mut [bool], count: usize)
    requires in_range { count ≤ length marks.old }
    requires all { (p : ℕ) → slice_index_or marks.old p false ≡ true → p < count }
    ensures { AreUnmarked marks.new }
{
    for place in 0..count {
        marks[place] = false;
    }
}

/// Resets all of `comparison` that a traversal changed, except the numbers: only those of marked tetrahedra are used.
fn clean(comparison: &mut Comparison)
    requires { IsComparison (4 * length comparison.old.numbers.items) (comparison_view comparison.old) }
    ensures clean { IsClean (comparison_view comparison.new) }
    ensures size { length comparison.new.numbers.items ≡ length comparison.old.numbers.items }
{
    let visited = comparison.walking.order.len();
    unmark_first(&mut comparison.crossed, 4 * visited);
    leave(&mut comparison.walking);
    comparison.types.clear();
    comparison.gluings.clear();
}

/// The text of a traversal of a table of `count` tetrahedra, all of whose types and gluings are found.
fn whole_text(alloc: Global, count: u32, comparison: &Comparison) -> Result<Vec<u8>, NoMemory>
    requires { length comparison.now.types.items ≤ 4000 }
    ensures { IfOk result (λ text. text.items
        ≡ ((head_text count ++ map character (packed comparison.now.types.items))
        ++ destinations_text (spellings.width count) comparison.now.gluings.items)
        ++ indices_text comparison.now.gluings.items) }
{
    let mut text = Vec::new(alloc);
    append_head(&mut text, count)?;
    append_types(&mut text, &comparison.types)?;
    append_destinations(&mut text, width(count), &comparison.gluings)?;
    append_indices(&mut text, &comparison.gluings)?;
    Ok(text)
}

/// Whether `first` comes before `second` in lexicographic order, or `None` if the two are equal.
fn order(first: &[u8], second: &[u8]) -> Option<bool>
    ensures before { IfSome result (λ before. before ≡ is_list_before first.now second.now) }
    ensures equal { IfNone result (first.now ≡ second.now) }
{
    if is_before(first, second) {
        Some(true)
    } else if is_before(second, first) {
        Some(false)
    } else {
        None
    }
}

/// Whether the text of the traversal from `start` comes before `bound`, or `None` if the two are equal. If it does not
/// come before `bound`, the number of faces read is bounded as for `lesser`. For a disconnected table, which has no
/// such text, any result may come. `space` is for tables of the size of that of `probe`.
pub fn compare(
    alloc: Global,
    space: &mut WorkSpace,
    probe: &mut Probe<'_>,
    start: Start,
    bound: &[u8],
) -> Result<Option<bool>, NoMemory>
    requires table { IsTable probe.old.rows }
    requires in_range { start.tet < length probe.old.rows }
    requires space { IsWorkSpace (length probe.old.rows) space.old }
    ensures value { IfOk result (λ r.
        IfSome r (λ before. (text : List ℕ) → IsTextFrom probe.old.rows start text
        → before ≡ is_list_before text bound.now)) }
    ensures equal { IfOk result (λ r.
        IfNone r ((text : List ℕ) → IsTextFrom probe.old.rows start text → text ≡ bound.now)) }
    ensures limited { IfOk result (λ r.
        r ≢ Some true → ReadsAtMost probe.old.rows start bound.now (probe.new.taken - probe.old.taken)) }
    ensures space { OnOk result (IsWorkSpace (length probe.old.rows) space.new) }
    ensures rows { probe.new.rows ≡ probe.old.rows }
{
    if let Some(before) = compare_head(&space.head, bound) {
        return Ok(Some(before));
    }
    if let Some(before) = compare_types(space, probe, start, bound)? {
        clean(&mut space.comparison);
        return Ok(Some(before));
    }
    let text = whole_text(alloc, probe.len(), &space.comparison)?;
    clean(&mut space.comparison);
    Ok(order(&text, bound))
}

/// Whether the text of the traversal from `start` comes before `bound`. If it does not, and the two first differ before
/// the destinations of the text, at most three faces are read for each type character up to there. For a disconnected
/// table, which has no such text, either result may come.
pub fn lesser(
    alloc: Global,
    probe: &mut Probe<'_>,
    start: Start,
    bound: &[u8],
) -> Result<bool, NoMemory>
    requires table { IsTable probe.old.rows }
    requires in_range { start.tet < length probe.old.rows }
    ensures value { IfOk result (λ before.
        (text : List ℕ) → IsTextFrom probe.old.rows start text → before ≡ is_list_before text bound.now) }
    ensures limited { IfOk result (λ before.
        before ≡ false → ReadsAtMost probe.old.rows start bound.now (probe.new.taken - probe.old.taken)) }
    ensures rows { probe.new.rows ≡ probe.old.rows }
{
    let size = TableSize { count: probe.len() };
    let mut space = work_space(alloc, size)?;
    if let Some(before) = compare(alloc, &mut space, probe, start, bound)? {
        return Ok(before);
    }
    Ok(false)
}
