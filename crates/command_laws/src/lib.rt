//! The grammar of the command line as a relation, whatever the code: words are accepted if and only if they are a
//! command's name and its options, in any order, none twice. The functions here have no code: their contracts are laws
//! over the definitions.
//!
//! Words: a *request* is a command with the values of its options.
#![tactic(auto)]

ghost use Rattle.command_laws.specs.Laws.{RequestsAreAccepted, OthersAreRefused, WordsAskOnce, RequestsAreSpelled};
ghost use Rattle.command_laws.specs.WorkedWords.{WorkedWords};

/// Theorem: let a list of words be given. Words *spell* a request if they are a command's name and options that it
/// takes, no two of one name, with the request's values.
///
/// 1. The words are accepted as a request if and only if they spell it.
/// 2. They are refused if and only if they spell no request.
/// 3. They spell at most one request.
pub fn requests_are_accepted()
    ensures accepted { RequestsAreAccepted }
    ensures refused { OthersAreRefused }
    ensures once { WordsAskOnce }
{}

/// Theorem: a request is spelled by some words if and only if its values are in range: those of `accepted_requests`,
/// and a seed of at most 2^64 - 1.
pub fn requests_are_spelled()
    ensures { RequestsAreSpelled }
{}

/// Example: for each command, words are accepted as its request. A command without options is accepted by its name
/// alone. The other words use each of the five options and each word of its values: `standard`, `quad` and `octagon`;
/// `given`, `short` and `zeros`. Options that are left out mean `standard`, `given` and the greatest entry
/// 2^127 - 1. The words `describe --coords=quad` are refused.
pub fn worked_words()
    ensures { WorkedWords }
{}
