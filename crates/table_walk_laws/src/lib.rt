//! Theorems on orbits of a step through finitely many numbers, and on searches for all numbers that a start is joined
//! to. The functions have empty bodies: their contracts are the theorems.
//!
//! Words: a *step* is a function f that maps each number to a number or to nothing; it is *injective below n* if it
//! maps numbers below n to numbers below n or to nothing, and no two of them to the same number. A start *reaches* x if
//! x is the result of finitely many steps, or none, from it. An *orbit* of a start is a list of different numbers that
//! begins with it, each the step from the one before; f maps its last number to the start or to nothing.
#![tactic(auto)]

ghost use Rattle.table_walk_laws.specs.Laws.{Pigeonhole, OrbitExists, OneOrbit, OrbitHoldsReached, ChainEnds, SourceHasChain, NeverTwice, OneEnd, SourcesAreUnique, WalkBack, UndoneIsInjective, ComesBack, GoingOnHasCycle, FirstReturnIsOrbit, ReachesBack};
ghost use Rattle.table_walk_laws.specs.Laws.{ReachedIsJoined, JoinedIsEquivalence, LinkedIsEquivalence, ClosedHoldsJoined, SearchBegins, NoneIsClosed, TurnStarts, TurnStartsBefore, TurnMarks, TurnPasses, TurnEnds, SearchEnds, NewStartIsDisconnected, MembersStart, MembersGrow, MembersAreComponent, ClassesStart, ClassesPass, ClassesGrow, ClassesEnd, HasBoundedSteps};

/// Theorem: let a list have more than n members, all below n. Then it has a member twice.
pub fn pigeonhole()
    ensures { Pigeonhole }
{}

/// Theorem: let f be a step: a function that maps each number to a number or to nothing. In 1, let f be injective below
/// n.
///
/// 1. From each start below n there is an orbit, of at most n numbers.
/// 2. An orbit of f from a start is the only one.
/// 3. An orbit from a start has exactly the numbers that the start reaches.
///
/// An *orbit* is a list of different numbers, each the step from the one before, the last of which f maps to the start
/// or to nothing.
pub fn orbits()
    ensures exists { OrbitExists }
    ensures only_one { OneOrbit }
    ensures holds { OrbitHoldsReached }
{}

/// Theorem: let f be a step. In 1, 2, 3 and 5, let f be injective below n, and let a start be a *source*: a number
/// below n to which f maps no number below n.
///
/// 1. After fewer than n steps the source reaches a number without a step.
/// 2. On the orbit of the source, the last number has no step.
/// 3. No number is reached from the source after two different numbers of steps.
/// 4. If two numbers without a step are reached from one start, source or not, they are equal.
/// 5. If two sources reach the same number, they are equal.
pub fn chains()
    ensures ends { ChainEnds }
    ensures chain { SourceHasChain }
    ensures never_twice { NeverTwice }
    ensures one_end { OneEnd }
    ensures separate { SourcesAreUnique }
{}

/// Lemma: let f and g be steps such that f(x) = y implies g(y) = x.
///
/// 1. If f maps each number below n to a number below n or to nothing, f is injective below n.
/// 2. If f leads from a start to x in k steps, g leads from x to the start in k steps.
pub fn undone_steps()
    ensures injective { UndoneIsInjective }
    ensures back { WalkBack }
{}

/// Theorem: let f be a step, and let a start be given. In 1, 3 and 4, let f be injective below n, and the start below
/// n. In 1, 2 and 4, let each number that the start reaches have a step.
///
/// 1. After at least 1 and at most n steps the start reaches itself.
/// 2. The last number of an orbit of the start has the start as its step.
/// 3. If the start first returns to itself after k + 1 steps, its orbit has k + 1 numbers.
/// 4. Each number that the start reaches, reaches the start.
pub fn cycles()
    ensures comes_back { ComesBack }
    ensures cycle { GoingOnHasCycle }
    ensures first_return { FirstReturnIsOrbit }
    ensures reaches_back { ReachesBack }
{}

/// Lemma: let each number have a list of neighbours. A number x is *joined* to y if a path from x to y goes from
/// numbers to their neighbours, and *linked* to y if a path may also go from neighbours to numbers.
///
/// 1. For a step whose values are the only neighbours, a start reaches x if and only if it is joined to x.
/// 2. To be joined is reflexive and transitive; it is symmetric if the neighbours are.
/// 3. To be linked is an equivalence relation. Joined numbers are linked; linked numbers are joined if the neighbours
///    are symmetric.
pub fn joined_numbers()
    ensures reached { ReachedIsJoined }
    ensures joined { JoinedIsEquivalence }
    ensures linked { LinkedIsEquivalence }
{}

/// Lemma: let each number have a list of neighbours. A *search* marks numbers and keeps a list of pending ones. Marks
/// are *closed* if each neighbour of a marked number is marked. Closed marks hold all that a marked start is joined to.
/// A search begins with closed marks, for instance none, and a new start, marked and pending. A pass takes the last or
/// the first pending number; each of its neighbours is marked already, or becomes marked and pending; then the pass
/// ends. If nothing is pending, the marks are closed, and exactly the numbers that the first marks are joined to. The
/// numbers that are unmarked or pending, n at first, are one fewer after each pass.
pub fn searches()
    ensures closed { ClosedHoldsJoined }
    ensures begins { SearchBegins }
    ensures none_is_closed { NoneIsClosed }
    ensures turn_starts { TurnStarts }
    ensures turn_starts_before { TurnStartsBefore }
    ensures turn_marks { TurnMarks }
    ensures turn_passes { TurnPasses }
    ensures turn_ends { TurnEnds }
    ensures ends { SearchEnds }
    ensures bounded_steps { HasBoundedSteps }
{}

/// Lemma: let each number have a list of neighbours, symmetric in 1 and 4, and let marks be closed in 1 and 4.
///
/// 1. A start that is not marked is joined to no marked number.
/// 2. With an unmarked start newly marked, the list of the start has exactly the new marks, each once.
/// 3. If a further unmarked number is marked and appended to such a list, the list has exactly the new marks, each
///    once.
/// 4. At the end of a search from an unmarked start, a list that has exactly the new marks, each once, has exactly the
///    numbers to which the start is joined, and the marks are closed.
pub fn components()
    ensures new_start { NewStartIsDisconnected }
    ensures members_start { MembersStart }
    ensures members_grow { MembersGrow }
    ensures members { MembersAreComponent }
{}

/// Lemma: let each number have a list of neighbours. *Classes up to i* are closed marks of all numbers below i and
/// possibly others, with a class for each, such that two have the same class if and only if they are joined, and
/// classes are numbered by least members.
///
/// 1. Without marks there are 0 classes up to 0.
/// 2. If i is marked, classes up to i are classes up to i + 1.
/// 3. If the neighbours are symmetric, and a search from the unmarked i marks its component, which becomes the next
///    class, these are classes up to i + 1.
/// 4. Classes up to n, of n numbers, number all classes of joined numbers.
pub fn class_lists()
    ensures start { ClassesStart }
    ensures pass { ClassesPass }
    ensures grow { ClassesGrow }
    ensures end { ClassesEnd }
{}
