//! Reads the values of options, and makes the request of a command with them.
ghost use Rattle.std.specs.Prelude.{◌≡◌, ◌<◌, [], ◌∷◌};
ghost use Rattle.command_definitions.specs.Commands.{Coordinates, PieceCoordinates, RowOrder, Limit, Seed, Moves};
ghost use Rattle.command_definitions.specs.Requests.{most_moves, most_bulk_moves};
ghost use Rattle.command_definitions.specs.Values as spec;
ghost use Rattle.command_words.specs.Apps.{takes_of};
ghost use Rattle.command_words.specs.Requests.{texts_of};

use command_definitions::Request;
use cone_definitions::Order;
use surface_definitions::Coords;
use text_io::{LIMIT, is_decimal_word, value_up_to};

/// The value of each option, if it occurs.
#[derive(Clone, Copy)]
pub struct Values<'a> {
    pub coords: Option<&'a str>,
    pub order: Option<&'a str>,
    pub max_entry: Option<&'a str>,
    pub seed: Option<&'a str>,
    pub moves: Option<&'a str>,
}

fn coords_named(word: &str) -> Option<Coords>
    ensures { result ≡ spec.coordinates_named word.now }
{
    if word == "standard" {
        return Some(Coords::Standard);
    }
    if word == "quad" {
        return Some(Coords::Quad);
    }
    if word == "octagon" {
        return Some(Coords::Octagon);
    }
    None
}

fn piece_coords_named(word: &str) -> Option<Coords>
    ensures { result ≡ spec.piece_coordinates_named word.now }
{
    match coords_named(word) {
        Some(Coords::Standard) => Some(Coords::Standard),
        Some(Coords::Quad) => None,
        Some(Coords::Octagon) => Some(Coords::Octagon),
        None => None,
    }
}

fn order_named(word: &str) -> Option<Order>
    ensures { result ≡ spec.order_named word.now }
{
    if word == "given" {
        return Some(Order::Given);
    }
    if word == "short" {
        return Some(Order::Short);
    }
    if word == "zeros" {
        return Some(Order::Zeros);
    }
    None
}

/// The value of `word` if it is a decimal of one to 45 digits and at most `max`.
fn decimal_up_to(word: &str, max: u128) -> Option<u128>
    ensures { result ≡ spec.decimal_up_to max word.now }
{
    let word = word.as_bytes();
    if !is_decimal_word(word) {
        return None;
    }
    if word.len() > 45 {
        return None;
    }
    value_up_to(word, max)
}

fn limit_named(word: &str) -> Option<u128>
    ensures { result ≡ spec.limit_named word.now }
{
    match decimal_up_to(word, LIMIT) {
        Some(limit) => (0 < limit).then_some(limit),
        None => None,
    }
}

fn coords_in(values: &Values<'_>) -> Option<Coords>
    ensures { result ≡ spec.coordinates_in (texts_of values.now) }
{
    match values.coords {
        Some(word) => coords_named(word),
        None => Some(Coords::Standard),
    }
}

fn piece_coords_in(values: &Values<'_>) -> Option<Coords>
    ensures { result ≡ spec.piece_coordinates_in (texts_of values.now) }
{
    match values.coords {
        Some(word) => piece_coords_named(word),
        None => Some(Coords::Standard),
    }
}

fn order_in(values: &Values<'_>) -> Option<Order>
    ensures { result ≡ spec.order_in (texts_of values.now) }
{
    match values.order {
        Some(word) => order_named(word),
        None => Some(Order::Given),
    }
}

fn limit_in(values: &Values<'_>) -> Option<u128>
    ensures { result ≡ spec.limit_in (texts_of values.now) }
{
    match values.max_entry {
        Some(word) => limit_named(word),
        None => Some(LIMIT),
    }
}

fn seed_in(values: &Values<'_>) -> Option<u64>
    ensures { result ≡ spec.seed_in (texts_of values.now) }
{
    match values.seed {
        Some(word) => match decimal_up_to(word, u128::from(u64::MAX)) {
            Some(seed) => Some(seed as u64),
            None => None,
        },
        None => None,
    }
}

fn moves_in(values: &Values<'_>, most: u32) -> Option<u32>
    ensures { result ≡ spec.moves_in most (texts_of values.now) }
{
    match values.moves {
        Some(word) => match decimal_up_to(word, u128::from(most)) {
            Some(moves) => Some(moves as u32),
            None => None,
        },
        None => None,
    }
}

fn surfaces_with(values: &Values<'_>) -> Option<Request>
    ensures { result ≡ spec.request_by (Coordinates ∷ RowOrder ∷ Limit ∷ []) Request.Surfaces (texts_of values.now) }
{
    let coords = coords_in(values)?;
    let order = order_in(values)?;
    let limit = limit_in(values)?;
    Some(Request::Surfaces(coords, order, limit))
}

fn rays_with(values: &Values<'_>) -> Option<Request>
    ensures { result ≡ spec.request_by (RowOrder ∷ Limit ∷ []) Request.Rays (texts_of values.now) }
{
    let order = order_in(values)?;
    let limit = limit_in(values)?;
    Some(Request::Rays(order, limit))
}

fn make_with(values: &Values<'_>) -> Option<Request>
    ensures { result ≡ spec.request_by (Seed ∷ Moves most_moves ∷ []) Request.Make (texts_of values.now) }
{
    let seed = seed_in(values)?;
    let moves = moves_in(values, 1_000)?;
    Some(Request::Make(seed, moves))
}

fn bulk_with(values: &Values<'_>) -> Option<Request>
    ensures { result ≡ spec.request_by (Seed ∷ Moves most_bulk_moves ∷ []) Request.Bulk (texts_of values.now) }
{
    let seed = seed_in(values)?;
    let moves = moves_in(values, 5)?;
    Some(Request::Bulk(seed, moves))
}

fn verify_with(values: &Values<'_>) -> Option<Request>
    ensures { result ≡ spec.request_by (Coordinates ∷ []) Request.Verify (texts_of values.now) }
{
    let coords = coords_in(values)?;
    Some(Request::Verify(coords))
}

fn describe_with(values: &Values<'_>) -> Option<Request>
    ensures { result ≡ spec.request_by (PieceCoordinates ∷ []) Request.Describe (texts_of values.now) }
{
    let coords = piece_coords_in(values)?;
    Some(Request::Describe(coords))
}

fn decompose_with(values: &Values<'_>) -> Option<Request>
    ensures { result ≡ spec.request_by (Coordinates ∷ Limit ∷ []) Request.Decompose (texts_of values.now) }
{
    let coords = coords_in(values)?;
    let limit = limit_in(values)?;
    Some(Request::Decompose(coords, limit))
}

fn addup_with(values: &Values<'_>) -> Option<Request>
    ensures { result ≡ spec.request_by (Coordinates ∷ []) Request.Addup (texts_of values.now) }
{
    let coords = coords_in(values)?;
    Some(Request::Addup(coords))
}

/// The request of the kind of `command` with the option values `values`, or `None` if a value is not one that its
/// option takes or a required option is missing.
pub fn request_with(command: Request, values: &Values<'_>) -> Option<Request>
    ensures { result ≡ spec.request_with (takes_of command) (texts_of values.now) }
{
    match command {
        Request::Verify(_) => verify_with(values),
        Request::Surfaces(_, _, _) => surfaces_with(values),
        Request::Rays(_, _) => rays_with(values),
        Request::Describe(_) => describe_with(values),
        Request::Make(_, _) => make_with(values),
        Request::Bulk(_, _) => bulk_with(values),
        Request::Decompose(_, _) => decompose_with(values),
        Request::Addup(_) => addup_with(values),
        plain => Some(plain),
    }
}
