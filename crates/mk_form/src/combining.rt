//! The laws of the combinators: each part made of parts that are read exactly is read exactly.
//!
//! Each function here has an empty body and a contract that is the law. What it ensures for a
//! trait's ghost member, it ensures for every value of that member. The clauses say under these
//! labels:
//!
//! - `exact`: the part is read exactly
//! - `completes`: what is live in it is a front, where that holds of the parts that it is made of
//! - `unnamed`: no line of it may say its name, where no line of those parts may
//! - `shows`: its first line shows what stands here

ghost use Rattle.std.specs.Prelude.{◌≡◌, ℕ, Bool, true, false, Some, None, List, [], ◌∷◌, ◌++◌};
ghost use Rattle.mk_form.specs.Exact.{Exact, Completes, NeverDue, Anything, NoLines};
ghost use Rattle.mk_form.specs.InWords.{InWords, SameForm, form, plain};
ghost use Rattle.mk_form.specs.Limit.{limit, IsBelow, Grows, IsLimit};
ghost use Rattle.mk_form.specs.Lines.{give, line, counts_line, line_where};
ghost use Rattle.mk_form.specs.Sequence.{sequence};
ghost use Rattle.mk_form.specs.Seen.{seen_as, with_lines};
ghost use Rattle.mk_form.specs.Rows.{rows, any_lines};
ghost use Rattle.mk_form.specs.Choice.{FirstIs, Shows, choice};
ghost use Rattle.mk_form.specs.Until.{within, until};
ghost use Rattle.mk_form.specs.ToEnd.{lines_to_end, up_to};
ghost use Rattle.mk_form.specs.Either.{either};
ghost use Rattle.mk_form.specs.Joined.{joined};

use crate::any::{
    AnyForm, AnyJoined, AnyPart, AnyPartAfter, AnySpelling, AnySteps, AnyTest, AnyText, AnyView,
};

// ---- the same part in other words

/// A part that is told in two ways is read exactly where one of them is.
pub fn in_words_is_exact<L, V, T: AnyText<L>, P: AnyPart<L, V>, Q: AnyPart<L, V>>()
    ensures exact { InWords P.part Q.part → Exact T.says T.follows P.part → Exact T.says T.follows Q.part }
    ensures completes { InWords P.part Q.part → Completes P.part → Completes Q.part }
{}

/// A part that is a form in other words is read exactly as that form, whose lives are its fronts.
pub fn form_is_exact<L, V, T: AnyText<L>, P: AnyPart<L, V>, F: AnyForm<L, V>, B: AnyTest<L>>()
    ensures exact { Exact T.says T.follows P.part → Completes P.part → SameForm P.part F.is F.due
        → Exact T.says T.follows (form F.is F.due P.part.read) }
    ensures completes { Exact T.says T.follows (form F.is F.due P.part.read)
        → Completes (form F.is F.due P.part.read) }
    ensures shows { (t : Bool)
        → ((lines : List L) (v : V) → F.is lines v → FirstIs B.passes t lines)
        → ((lines : List L) → F.due lines → FirstIs B.passes t lines)
        → Shows B.passes t (form F.is F.due P.part.read) }
{}

/// A part that is made by steps is read exactly where each of them is.
pub fn limit_is_exact<L, V, T: AnyText<L>, S: AnySteps<L, V>, P: AnyPart<L, V>>()
    ensures exact { ((n : ℕ) → Exact T.says T.follows (S.steps n)) → IsLimit S.steps P.part
        → Exact T.says T.follows P.part }
    ensures completes { ((n : ℕ) → Completes (S.steps n)) → IsLimit S.steps P.part → Completes P.part }
    ensures unnamed { ((n : ℕ) → NeverDue (S.steps n)) → IsLimit S.steps P.part → NeverDue P.part }
    // what holds of some step is what the steps come to, where they grow
    ensures grows { Grows S.steps → IsLimit S.steps (limit S.steps) }
{}

/// What holds of one part and so of another holds of the parts that are made of them. So the steps
/// of a form that speaks of itself grow.
pub fn below_is_kept<
    L,
    X,
    V,
    B: AnyTest<L>,
    P: AnyPart<L, X>,
    Q: AnyPartAfter<X, L, V>,
    R: AnyPartAfter<X, L, V>,
    F: AnyView<X, V>,
    C: AnyPart<L, X>,
    D: AnyPart<L, X>,
>()
    ensures sequence { ((x : X) → IsBelow (Q.after x) (R.after x))
        → IsBelow (sequence P.part Q.after) (sequence P.part R.after) }
    ensures seen_as { IsBelow C.part D.part → IsBelow (seen_as F.seen C.part) (seen_as F.seen D.part) }
    ensures up_to { IsBelow C.part D.part → IsBelow (up_to B.passes C.part) (up_to B.passes D.part) }
    ensures either { IsBelow C.part D.part → IsBelow (either P.part C.part) (either P.part D.part) }
    ensures first { NeverDue P.part → IsBelow P.part (either P.part C.part) }
{}

/// Fronts may stand for what is live, where the one is the other.
pub fn plain_is_exact<L, V, T: AnyText<L>, P: AnyPart<L, V>>()
    ensures exact { Exact T.says T.follows P.part → Completes P.part → Exact T.says T.follows (plain P.part) }
    ensures completes { Completes P.part → Completes (plain P.part) }
{}

// ---- the smallest parts

/// No line, and a value.
pub fn give_is_exact<L, V, T: AnyText<L>>()
    ensures exact { (v : V) → Exact T.says Anything (give v) }
    ensures completes { (v : V) → Completes (give {L = L} v) }
    ensures unnamed { (v : V) → NeverDue (give {L = L} v) }
{}

/// One line.
pub fn line_is_exact<L, V, T: AnyText<L>, F: AnySpelling<L, V>, B: AnyTest<L>>()
    ensures exact { Exact T.says Anything (line F.value) }
    // some line has to spell a value
    ensures completes { (l : L) (v : V) → F.value l ≡ Some v → Completes (line F.value) }
    ensures unnamed { NeverDue (line F.value) }
    ensures shows { (t : Bool) → ((l : L) (v : V) → F.value l ≡ Some v → B.passes l ≡ t)
        → Shows B.passes t (line F.value) }
{}

/// One line that passes a test.
pub fn line_where_is_exact<L, T: AnyText<L>, C: AnyTest<L>, B: AnyTest<L>>()
    ensures exact { Exact T.says Anything (line_where C.passes) }
    // some line has to pass
    ensures completes { (l : L) → C.passes l ≡ true → Completes (line_where C.passes) }
    ensures unnamed { NeverDue (line_where C.passes) }
    ensures shows { (t : Bool) → ((l : L) → C.passes l ≡ true → B.passes l ≡ t)
        → Shows B.passes t (line_where C.passes) }
{}

/// One line where a line is due that may say its name. A line that says it spells no value.
pub fn counts_line_is_exact<L, V, T: AnyText<L>, F: AnySpelling<L, V>>()
    ensures exact { ((l : L) → T.says l ≡ true → F.value l ≡ None)
        → Exact T.says Anything (counts_line T.says F.value) }
    // some line has to spell a value
    ensures completes { (l : L) (v : V) → F.value l ≡ Some v → Completes (counts_line T.says F.value) }
{}

// ---- parts made of parts

/// One part and then another, where the first ends by itself.
pub fn sequence_is_exact<
    L,
    X,
    V,
    T: AnyText<L>,
    P: AnyPart<L, X>,
    Q: AnyPartAfter<X, L, V>,
    B: AnyTest<L>,
>()
    ensures exact { Exact T.says Anything P.part → ((x : X) → Exact T.says T.follows (Q.after x))
        → Exact T.says T.follows (sequence P.part Q.after) }
    ensures completes { Completes P.part → ((x : X) → Completes (Q.after x))
        → Completes (sequence P.part Q.after) }
    ensures unnamed { NeverDue P.part → ((x : X) → NeverDue (Q.after x)) → NeverDue (sequence P.part Q.after) }
    ensures shows { (t : Bool) → Shows B.passes t P.part → Shows B.passes t (sequence P.part Q.after) }
    // a name is due in the first part alone, where none is due in the second
    ensures first { ((x : X) → NeverDue (Q.after x))
        → (lines : List L) → (sequence P.part Q.after).due lines → P.part.due lines }
{}

/// A value seen as another.
pub fn seen_as_is_exact<L, X, V, T: AnyText<L>, P: AnyPart<L, X>, F: AnyView<X, V>, B: AnyTest<L>>()
    ensures exact { Exact T.says T.follows P.part → Exact T.says T.follows (seen_as F.seen P.part) }
    ensures completes { Completes P.part → Completes (seen_as F.seen P.part) }
    ensures unnamed { NeverDue P.part → NeverDue (seen_as F.seen P.part) }
    ensures shows { (t : Bool) → Shows B.passes t P.part → Shows B.passes t (seen_as F.seen P.part) }
{}

/// A value with its lines.
pub fn with_lines_is_exact<L, V, T: AnyText<L>, P: AnyPart<L, V>, B: AnyTest<L>>()
    ensures exact { Exact T.says T.follows P.part → Exact T.says T.follows (with_lines P.part) }
    ensures completes { Completes P.part → Completes (with_lines P.part) }
    ensures unnamed { NeverDue P.part → NeverDue (with_lines P.part) }
    ensures shows { (t : Bool) → Shows B.passes t P.part → Shows B.passes t (with_lines P.part) }
{}

/// The same part a number of times.
pub fn rows_are_exact<L, X, T: AnyText<L>, P: AnyPart<L, X>>()
    ensures exact { (n : ℕ) → Exact T.says Anything P.part → Exact T.says Anything (rows n P.part) }
    ensures completes { (n : ℕ) → Completes P.part → Completes (rows n P.part) }
    ensures unnamed { (n : ℕ) → NeverDue P.part → NeverDue (rows n P.part) }
{}

/// A number of lines that aren't looked at.
pub fn any_lines_are_exact<L, T: AnyText<L>>()
    ensures exact { (n : ℕ) → Exact T.says Anything (any_lines n) }
    // there has to be a line at all
    ensures completes { (l : L) (n : ℕ) → Completes (any_lines {L = L} n) }
    ensures unnamed { (n : ℕ) → NeverDue (any_lines {L = L} n) }
{}

/// One of two parts, by the first line.
pub fn choice_is_exact<L, V, T: AnyText<L>, B: AnyTest<L>, P: AnyPart<L, V>, Q: AnyPart<L, V>>()
    ensures exact { Exact T.says T.follows P.part → Exact T.says T.follows Q.part
        → Shows B.passes true P.part → Shows B.passes false Q.part
        → Exact T.says T.follows (choice B.passes P.part Q.part) }
    ensures completes { Completes P.part → Completes Q.part → Completes (choice B.passes P.part Q.part) }
    ensures unnamed { NeverDue P.part → NeverDue Q.part → NeverDue (choice B.passes P.part Q.part) }
{}

/// Parts until an end that its first line shows.
pub fn until_is_exact<L, X, U, T: AnyText<L>, B: AnyTest<L>, P: AnyPart<L, X>, E: AnyPart<L, U>>()
    ensures exact { Exact T.says Anything P.part → Exact T.says T.follows E.part
        → Shows B.passes false P.part → Shows B.passes true E.part
        → Exact T.says T.follows (until B.passes P.part E.part) }
    ensures completes { Completes P.part → Completes E.part → Completes (until B.passes P.part E.part) }
    ensures unnamed { NeverDue P.part → NeverDue E.part → NeverDue (until B.passes P.part E.part) }
    // any bound on the parts that is no less than the lines will do
    ensures bound { Exact T.says Anything P.part → Exact T.says T.follows E.part
        → Shows B.passes false P.part → Shows B.passes true E.part
        → IsLimit (λ n. within n B.passes P.part E.part) (until B.passes P.part E.part) }
{}

/// Several lines that are read as one.
pub fn joined_is_exact<
    L,
    V,
    T: AnyText<L>,
    G: AnyTest<L>,
    C: AnyTest<L>,
    F: AnyJoined<L, V>,
    B: AnyTest<L>,
>()
    ensures exact { Exact T.says Anything (joined G.passes C.passes F.value) }
    ensures unnamed { NeverDue (joined G.passes C.passes F.value) }
    ensures shows { (t : Bool)
        → ((l : L) → G.passes l ≡ true → B.passes l ≡ t)
        → ((l : L) → C.passes l ≡ true → B.passes l ≡ t)
        → Shows B.passes t (joined G.passes C.passes F.value) }
{}

// ---- parts that run to the end

/// Lines that all pass a test, to the end.
pub fn lines_to_end_are_exact<L, T: AnyText<L>, B: AnyTest<L>>()
    ensures exact { Exact T.says NoLines (lines_to_end B.passes) }
    ensures completes { Completes (lines_to_end B.passes) }
    ensures unnamed { NeverDue (lines_to_end B.passes) }
{}

/// Lines up to a separator and a part behind it, or lines to the end.
pub fn up_to_is_exact<L, V, T: AnyText<L>, B: AnyTest<L>, P: AnyPart<L, V>>()
    ensures exact { Exact T.says NoLines P.part → Exact T.says NoLines (up_to B.passes P.part) }
    ensures completes { Completes P.part → Completes (up_to B.passes P.part) }
    ensures unnamed { NeverDue P.part → NeverDue (up_to B.passes P.part) }
{}

/// One of two parts that no single line tells apart. No text is one of both, and no line of the
/// first says a name.
pub fn either_is_exact<L, V, T: AnyText<L>, P: AnyPart<L, V>, Q: AnyPart<L, V>>()
    ensures exact { Exact T.says NoLines P.part → Exact T.says NoLines Q.part → NeverDue P.part
        → ((lines : List L) (v w : V) → P.part.is lines v → ¬ (Q.part.is lines w))
        → ((front : List L) (l : L) → P.part.live (front ++ l ∷ []) → ¬ (T.says l ≡ true))
        → Exact T.says NoLines (either P.part Q.part) }
    ensures completes { Completes P.part → Completes Q.part → Completes (either P.part Q.part) }
{}
