//! The one call that does all that the program does.
ghost use Rattle.std.specs.Prelude.{◌≡◌, ◌↔◌, ◌⊎◌, ◌-◌, ◌^◌, ◌<◌, ◌≤◌, ℕ, true, false, List, [], None, Some, Ok, length, IfOk, IfSome, OnErr, All};
ghost use Rattle.text_io.specs.Causes.{Grows, Rose, IsEnded};
ghost use Rattle.outcome_definitions.specs.Lines.{read_line, usage_line};
ghost use Rattle.text_definitions.specs.Written.{limit};
ghost use Rattle.cone_text_definitions.specs.ConeText.{Cone as ConeText};
ghost use Rattle.table_definitions.specs.Table.{Row};
ghost use Rattle.cone_definitions.specs.Rows.{Row as EquationRow};
ghost use Rattle.surface_definitions.specs.QuadEquations.{AreEquations};
ghost use Rattle.move_definitions.specs.Moves.{Move};
ghost use Rattle.move_definitions.specs.Certificates.{IsCertificate};
ghost use Rattle.text_document_definitions.specs.Documents.{worded, table_document, two_tables_document, tables_document, vectors_document, steps_document, moves_document, cone_document};
ghost use Rattle.text_document_definitions.specs.Blocks.{blocks_document};
ghost use Rattle.outcome_definitions.specs.Outcomes as outcomes;
ghost use Rattle.outcome_definitions.specs.Answers.{IsOutcome, IsAnswerTo, most_bytes};
ghost use Rattle.command_definitions.specs.Words.{accepted_request};
ghost use Rattle.command_definitions.specs.Requests.{HoldsRange, reads_input};
ghost use Rattle.cone_definitions.specs.declared.Order.{Order};
ghost use Rattle.surface_definitions.specs.declared.Coords.{Coords};
ghost use Rattle.surface_equation_laws.specs.BoundedTables.{most_tetrahedra};
ghost use Rattle.outcome_answer_laws.specs.Lifts.{HasSphereAndDiscVertices, IsSmallSolution, AreLifted};
ghost use Rattle.outcome_answer_laws.specs.Makings.{IsTableWithMoves, IsSummaryWithMoves};
ghost use Rattle.outcome_answer_laws.specs.Comparisons.{IsComparison, IsComponentComparison, IsGrouping};
ghost use Rattle.outcome_answer_laws.specs.Sums.{IsDecomposition, IsAddition};
ghost use Rattle.outcome_answer_laws.specs.Covers.{IsCovering};
ghost use Rattle.outcome_answer_laws.specs.Scripts.{IsPlayed};
ghost use Rattle.workbench.specs.Prints.{PrintsSurfaces, PrintsRays, PrintsVerdicts, ListsSurfaces, IsCutShort, Writes, WritesOf, AnswersSurfaces, AnswersRays};
ghost use Rattle.workbench.specs.Runs.{Answers, IsAnswered, IsCalm, IsWithinInputLimit, IsResponse, RunsOutOfMemory, IsCutOff, IsToBeWritten, IsDelivered, IsRun};

use certificate_commands::{bulk, check, descend, make};
use command_answers::Outcome;
use command_words::{Request, WordsFault, read_words};
use enumeration_commands::{rays, surfaces, verify};
use move_commands::play;
use out_of_memory::NoMemory;
use outcome_definitions::Status;
use std::alloc::Global;
use sum_commands::{addup, decompose};
use table_commands::{csame, csig, group, info, same, sig};
use text_io::{ReadEnd, Sink, Source, Words, read_all, write_all};
use topology_commands::{cover, pi1};
use vector_commands::{crush, describe, lift};

/// The greatest number of bytes of an input.
pub const MOST_BYTES: u64 = 1_048_576;

/// The outcome of the command `request` for the input `bytes`, which has at most `MOST_BYTES` bytes.
pub fn outcome_of_request(
    alloc: Global,
    request: Request,
    bytes: &[u8],
) -> Result<Outcome, NoMemory>
    requires size { length bytes.now ≤ most_bytes }
    requires in_range { HoldsRange request }
    ensures answer { IfOk result (λ o. IsAnswerTo request bytes.now o) }
{
    match request {
        Request::Verify(coords) => verify(alloc, coords, bytes),
        Request::Surfaces(coords, order, limit) => surfaces(alloc, coords, order, limit, bytes),
        Request::Rays(order, limit) => rays(alloc, order, limit, bytes),
        Request::Info => info(alloc, bytes),
        Request::Play => play(alloc, bytes),
        Request::Describe(coords) => describe(alloc, coords, bytes),
        Request::Lift => lift(alloc, bytes),
        Request::Crush => crush(alloc, bytes),
        Request::Sig => sig(alloc, bytes),
        Request::Same => same(alloc, bytes),
        Request::Group => group(alloc, bytes),
        Request::Check => check(alloc, bytes),
        Request::Descend => descend(alloc, bytes),
        Request::Make(seed, moves) => make(alloc, seed, moves),
        Request::Bulk(seed, moves) => bulk(alloc, seed, moves),
        Request::Decompose(coords, limit) => decompose(alloc, coords, limit, bytes),
        Request::Addup(coords) => addup(alloc, coords, bytes),
        Request::Cover => cover(alloc, bytes),
        Request::Pi1 => pi1(alloc, bytes),
        Request::Csig => csig(alloc, bytes),
        Request::Csame => csame(alloc, bytes),
    }
}

/// Whether the command `request` reads its input; `make` and `bulk` do not.
pub fn reads_input(request: Request) -> bool
    ensures { result ≡ reads_input request }
{
    match request {
        Request::Make(_, _) | Request::Bulk(_, _) => false,
        _ => true,
    }
}

/// The outcome of `request`, which reads `source`.
#[tactic(auto, using(outcome_definitions::proofs::OwnStatus::answer_own))]
fn outcome_of_bytes<S: Source>(
    alloc: Global,
    request: Request,
    source: &mut S,
) -> Result<Outcome, NoMemory>
    requires in_range { HoldsRange request }
    requires reads { reads_input request ≡ true }
    ensures response { IfOk result (IsResponse request (S.left source.old) (S.left source.new) (S.faults source.old)
        (S.faults source.new)) }
    ensures no_memory { OnErr result
        (RunsOutOfMemory (S.left source.old) (S.left source.new) (S.faults source.old) (S.faults source.new)) }
{
    match read_all(alloc, source, MOST_BYTES) {
        Ok(bytes) => outcome_of_request(alloc, request, &bytes),
        Err(ReadEnd::Failed) => Ok(Outcome::read_fault()),
        Err(ReadEnd::TooLong) => Ok(Outcome::too_long()),
        Err(ReadEnd::NoMemory) => Err(NoMemory),
    }
}

/// The outcome of `request`; a command that reads no input leaves `source` unchanged.
fn outcome_of_source<S: Source>(
    alloc: Global,
    request: Request,
    source: &mut S,
) -> Result<Outcome, NoMemory>
    requires { HoldsRange request }
    ensures response { IfOk result (IsResponse request (S.left source.old) (S.left source.new) (S.faults source.old)
        (S.faults source.new)) }
    ensures no_memory { OnErr result
        (RunsOutOfMemory (S.left source.old) (S.left source.new) (S.faults source.old) (S.faults source.new)) }
    ensures untouched { reads_input request ≡ false → source.new ≡ source.old }
{
    if reads_input(request) {
        return outcome_of_bytes(alloc, request, source);
    }
    outcome_of_request(alloc, request, &[])
}

/// Writes `outcome` to `sink`, and returns the status.
fn write_outcome<K: Sink>(outcome: &Outcome, sink: &mut K) -> Status
    ensures { IsDelivered outcome.now result (K.held sink.old) (K.held sink.new) (K.faults sink.old)
        (K.faults sink.new) }
{
    match write_all(sink, outcome.text()) {
        Ok(()) => outcome.status(),
        Err(_) => Status::WriteFault,
    }
}

/// Reads `words`, then the input from `source`, and writes the answer or the one line of a refusal to `sink`.
fn run_request<S: Source, K: Sink>(
    alloc: Global,
    words: &Words,
    source: &mut S,
    sink: &mut K,
) -> Status
    ensures { IsRun words.now result source.old source.new (S.left source.old) (S.left source.new) (S.faults source.old)
        (S.faults source.new)
        sink.old sink.new (K.held sink.old) (K.held sink.new) (K.faults sink.old) (K.faults sink.new) }
{
    match read_words(alloc, words) {
        Ok(request) => match outcome_of_source(alloc, request, source) {
            Ok(outcome) => write_outcome(&outcome, sink),
            Err(NoMemory) => Status::NoMemory,
        },
        Err(WordsFault::Usage) => write_outcome(&Outcome::usage(), sink),
        Err(WordsFault::NoMemory) => Status::NoMemory,
    }
}

/// Runs the program: reads `words` as a command, reads its input from `source`, writes the answer or the one line of a
/// refusal to `sink`, and returns the status. The whole answer is built before the first write.
pub fn run<S: Source, K: Sink>(alloc: Global, words: &Words, source: &mut S, sink: &mut K) -> Status
    // The status is `Usage` if and only if the words are not accepted, unless the sink fails or memory runs out; then
    // nothing is read.
    ensures usage { accepted_request words.now ≡ None → Answers result Status.Usage × (source.new ≡ source.old) }
    ensures usage_alone { result ≡ Status.Usage → accepted_request words.now ≡ None }
    ensures usage_line { result ≡ Status.Usage → Grows (K.held sink.old) (K.held sink.new) usage_line }

    // The status is `ReadFault` only if the source's count grew, and if it grew the status is `ReadFault` or
    // `WriteFault`.
    ensures read_fault { S.faults source.old < 2 ^ 64 - 1 → S.faults source.old < S.faults source.new
        → (result ≡ Status.ReadFault) ⊎ (result ≡ Status.WriteFault) }
    ensures read_fault_alone { result ≡ Status.ReadFault → Rose (S.faults source.old) (S.faults source.new) }
    ensures read_fault_line { result ≡ Status.ReadFault → Grows (K.held sink.old) (K.held sink.new) read_line }

    // The status is `WriteFault` if and only if the sink's count grew. Then a proper prefix of the text to be written
    // was appended: the line of a failed read or of usage, or the text of the outcome.
    ensures write_fault { K.faults sink.old < 2 ^ 64 - 1
        → ((result ≡ Status.WriteFault) ↔ (K.faults sink.old < K.faults sink.new)) }
    ensures prefix { result ≡ Status.WriteFault → (o : outcomes.Outcome)
        × IsToBeWritten words.now (S.left source.old) (S.faults source.old) (S.faults source.new) o
        × IsCutOff (K.held sink.old) (K.held sink.new) o.text }

    // If memory ran out nothing was written, the source did not fail, and it did not return more bytes than an input
    // may have.
    ensures no_memory { result ≡ Status.NoMemory → sink.new ≡ sink.old }
    ensures no_memory_calm { result ≡ Status.NoMemory → IsCalm (S.faults source.old) (S.faults source.new) }
    ensures no_memory_within { result ≡ Status.NoMemory → IsWithinInputLimit (S.left source.old) (S.left source.new) }

    // Every other status is that of the outcome for the words and the input, whose text was appended.
    ensures outcome { IsAnswered result → IfSome (S.left source.old) (λ bytes. (o : outcomes.Outcome)
        × IsOutcome words.now bytes o × (result ≡ o.status) × Grows (K.held sink.old) (K.held sink.new) o.text) }
    ensures end { (request : Request) → accepted_request words.now ≡ Some request → reads_input request ≡ true
        → result ≡ Status.Done → IsEnded (S.left source.new) }

    // A command that reads no input leaves the source unchanged, and its outcome depends on the words alone.
    ensures untouched { (request : Request) → accepted_request words.now ≡ Some request → reads_input request ≡ false
        → source.new ≡ source.old }
    ensures words_alone { (request : Request) → accepted_request words.now ≡ Some request → reads_input request ≡ false
        → IsAnswered result → (o : outcomes.Outcome) × IsAnswerTo request [] o × (result ≡ o.status)
        × Grows (K.held sink.old) (K.held sink.new) o.text }

    // For every input that is a gluing table, `surfaces` prints exactly the primitive integer vectors on extreme rays
    // of its solution cone, in the coordinates of the request, that satisfy the quadrilateral condition: each once, in
    // lexicographic order.
    ensures surfaces { result ≡ Status.Done → (coords : Coords) → (order : Order) → (most : ℕ)
        → accepted_request words.now ≡ Some (Request.Surfaces coords order most)
        → IfSome (S.left source.old) (λ bytes. PrintsSurfaces coords bytes (K.held sink.old) (K.held sink.new)) }

    // In one clause: if the words of `surfaces` are accepted and the input is a table, that list was printed, or the
    // first number of a step that exceeds the limit was named; the only other outcomes are a failed source, a failed
    // sink, and out of memory, each by its own clause. Likewise for `rays`.
    ensures all_surfaces { (coords : Coords) → (order : Order) → (most : ℕ)
        → accepted_request words.now ≡ Some (Request.Surfaces coords order most)
        → IfSome (S.left source.old) (λ bytes.
        (rows : List Row) → length bytes ≤ most_bytes → table_document bytes ≡ Ok rows
        → AnswersSurfaces coords order most rows result (K.held sink.old) (K.held sink.new)) }
    ensures all_rays { (order : Order) → (most : ℕ) → accepted_request words.now ≡ Some (Request.Rays order most)
        → IfSome (S.left source.old) (λ bytes.
        (cone : ConeText) → length bytes ≤ most_bytes → worded (cone_document bytes) ≡ Ok cone
        → AnswersRays order most cone result (K.held sink.old) (K.held sink.new)) }

    // With the default limit, and at most 31 tetrahedra in standard coordinates or 29 in quad and octagon coordinates,
    // no number exceeds the limit in any order of the equations: that list was printed, or the run was cut short.
    ensures few_surfaces { (coords : Coords) → (order : Order)
        → accepted_request words.now ≡ Some (Request.Surfaces coords order limit)
        → IfSome (S.left source.old) (λ bytes.
        (rows : List Row) → length bytes ≤ most_bytes → table_document bytes ≡ Ok rows
        → length rows ≤ most_tetrahedra coords → ListsSurfaces coords rows result (K.held sink.old) (K.held sink.new)
        ⊎ IsCutShort result) }

    // `rays` prints exactly the primitive extreme rays of a cone, and `verify` a verdict on each vector.
    ensures rays { result ≡ Status.Done → (order : Order) → (most : ℕ)
        → accepted_request words.now ≡ Some (Request.Rays order most)
        → IfSome (S.left source.old) (λ bytes. PrintsRays bytes (K.held sink.old) (K.held sink.new)) }
    ensures verify { result ≡ Status.Done → (coords : Coords)
        → accepted_request words.now ≡ Some (Request.Verify coords)
        → IfSome (S.left source.old) (λ bytes. PrintsVerdicts coords bytes (K.held sink.old) (K.held sink.new)) }

    // If each vertex link is a sphere or a disc, `lift` writes the lift of every admissible solution of the quad
    // equations with small sums. `make` writes a table with a certificate of exactly as many moves as the request
    // names, up to 333. `bulk` writes the summary of the vertex surfaces of a table with such a certificate, and no
    // number exceeds the limit. `check` ends with `Done` if and only if the moves are a certificate.
    ensures lifts { accepted_request words.now ≡ Some Request.Lift
        → IfSome (S.left source.old) (λ bytes.
        (rows : List Row) → (vectors : List (List ℕ)) → (equations : List EquationRow) → length bytes ≤ most_bytes
        → vectors_document bytes ≡ Ok (rows, vectors) → HasSphereAndDiscVertices rows
        → AreEquations Coords.Quad rows equations
        → All (IsSmallSolution rows equations) vectors
        → Writes (AreLifted rows vectors) result (K.held sink.old) (K.held sink.new)) }
    ensures makes { (seed : ℕ) → (moves : ℕ) → accepted_request words.now ≡ Some (Request.Make seed moves) → moves ≤ 333
        → Writes (IsTableWithMoves moves) result (K.held sink.old) (K.held sink.new) }
    ensures sums_up { (seed : ℕ) → (moves : ℕ) → accepted_request words.now ≡ Some (Request.Bulk seed moves)
        → Writes (IsSummaryWithMoves seed moves) result (K.held sink.old) (K.held sink.new) }
    ensures checks { IsAnswered result → accepted_request words.now ≡ Some Request.Check
        → IfSome (S.left source.old) (λ bytes. (rows : List Row) → (moves : List Move) → length bytes ≤ most_bytes
        → moves_document bytes ≡ Ok (rows, moves) → (result ≡ Status.Done) ↔ IsCertificate rows moves) }

    // `same` and `csame` report that tables are the same if and only if they are isomorphic, and `group` puts two
    // tables into one class if and only if they are; `same` and `group` require connected tables, and for `csame` the
    // components correspond.
    ensures same { accepted_request words.now ≡ Some Request.Same
        → WritesOf two_tables_document IsComparison (S.left source.old) result (K.held sink.old) (K.held sink.new) }
    ensures csame { accepted_request words.now ≡ Some Request.Csame
        → WritesOf two_tables_document IsComponentComparison (S.left source.old) result (K.held sink.old)
        (K.held sink.new) }
    ensures group { accepted_request words.now ≡ Some Request.Group
        → WritesOf tables_document IsGrouping (S.left source.old) result (K.held sink.old) (K.held sink.new) }

    // `decompose` writes fit vectors, which are admissible solutions of which no part of an equation is large, as sums
    // of vertex surfaces; otherwise it names the first vector that is not fit, or the first number that exceeds the
    // limit. `addup` accepts sums of fit terms to fit vectors if and only if they are true. `cover` writes the
    // orientable double cover, and `play` the table after the moves.
    ensures decompose { (coords : Coords) → (most : ℕ)
        → accepted_request words.now ≡ Some (Request.Decompose coords most)
        → WritesOf vectors_document (IsDecomposition coords most) (S.left source.old) result (K.held sink.old)
        (K.held sink.new) }
    ensures addup { (coords : Coords) → accepted_request words.now ≡ Some (Request.Addup coords)
        → WritesOf blocks_document (IsAddition coords) (S.left source.old) result (K.held sink.old) (K.held sink.new) }
    ensures cover { accepted_request words.now ≡ Some Request.Cover
        → WritesOf table_document IsCovering (S.left source.old) result (K.held sink.old) (K.held sink.new) }
    ensures play { accepted_request words.now ≡ Some Request.Play
        → WritesOf steps_document IsPlayed (S.left source.old) result (K.held sink.old) (K.held sink.new) }

    // If neither count grew, the outcome was written, or memory ran out.
    ensures answered { S.faults source.old < 2 ^ 64 - 1 → K.faults sink.old < 2 ^ 64 - 1
        → S.faults source.new ≡ S.faults source.old
        → K.faults sink.new ≡ K.faults sink.old → IsAnswered result ⊎ (result ≡ Status.NoMemory) }
{
    run_request(alloc, words, source, sink)
}
