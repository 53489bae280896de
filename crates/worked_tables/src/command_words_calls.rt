use command_words::{Coords, Order, Request, WordsFault, read_words};
use std::alloc::Global;
use text_io::{LIMIT, Words};

fn request_of(alloc: Global, line: &[&str]) -> Result<Request, WordsFault> {
    let mut words = Words::new(alloc);
    for word in line {
        if words.push(word).is_err() {
            return Err(WordsFault::NoMemory);
        }
    }
    read_words(alloc, &words)
}

const DIGITS_45: &str = "000000000000000000000000000000000000000000007";

const DIGITS_46: &str = "0000000000000000000000000000000000000000000007";

/// Words, and the request that they are.
const ACCEPTED: [(&[&str], Request); 15] = [
    (&["verify"], Request::Verify(Coords::Standard)),
    (
        &["verify", "--coords", "standard"],
        Request::Verify(Coords::Standard),
    ),
    (
        &["verify", "--coords=octagon"],
        Request::Verify(Coords::Octagon),
    ),
    (
        &[
            "surfaces",
            "--coords",
            "quad",
            "--order",
            "zeros",
            "--max-entry",
            "1",
        ],
        Request::Surfaces(Coords::Quad, Order::Zeros, 1),
    ),
    (
        &[
            "surfaces",
            "--max-entry=0001",
            "--order=zeros",
            "--coords",
            "quad",
        ],
        Request::Surfaces(Coords::Quad, Order::Zeros, 1),
    ),
    (
        &["surfaces"],
        Request::Surfaces(Coords::Standard, Order::Given, LIMIT),
    ),
    (
        &[
            "rays",
            "--max-entry",
            "170141183460469231731687303715884105727",
        ],
        Request::Rays(Order::Given, LIMIT),
    ),
    (
        &["rays", "--max-entry", DIGITS_45],
        Request::Rays(Order::Given, 7),
    ),
    (
        &["describe", "--coords", "octagon"],
        Request::Describe(Coords::Octagon),
    ),
    (&["descend"], Request::Descend),
    (&["pi1"], Request::Pi1),
    (
        &["decompose", "--max-entry", "7"],
        Request::Decompose(Coords::Standard, 7),
    ),
    (&["addup", "--coords=quad"], Request::Addup(Coords::Quad)),
    (
        &["make", "--moves", "1000", "--seed=18446744073709551615"],
        Request::Make(18_446_744_073_709_551_615, 1_000),
    ),
    (
        &["bulk", "--seed", "0", "--moves", "5"],
        Request::Bulk(0, 5),
    ),
];

/// Words that are no command with its options.
const REFUSED: [&[&str]; 21] = [
    &[],
    &["help"],
    &["surface"],
    &["verify", "--"],
    &["verify", "--help"],
    &["verify", "extra"],
    &["verify", "--coords", "quad", "--coords", "quad"],
    &["verify", "--coord", "quad"],
    &["verify", "--order", "short"],
    &["surfaces", "--order"],
    &["surfaces", "-c", "quad"],
    &["surfaces", "--max-entry", "0"],
    &["surfaces", "--max-entry="],
    &[
        "surfaces",
        "--max-entry",
        "170141183460469231731687303715884105728",
    ],
    &["surfaces", "--max-entry", DIGITS_46],
    &["describe", "--coords", "quad"],
    &["make", "--seed", "1"],
    &["make", "--seed", "18446744073709551616", "--moves", "1"],
    &["bulk", "--seed", "1", "--moves", "6"],
    &["addup", "--max-entry", "7"],
    &["csig", "--coords", "quad"],
];

#[test]
fn accepted_words(rt: HostRuntime) {
    for (line, request) in &ACCEPTED {
        assert!(rt;
            request_of(rt.alloc(), line).ok() == Some(*request),
            "{line:?}"
        );
    }
}

#[test]
fn refused_words(rt: HostRuntime) {
    for line in &REFUSED {
        assert!(rt;
            matches!(request_of(rt.alloc(), line), Err(WordsFault::Usage)),
            "{line:?}"
        );
    }
}
