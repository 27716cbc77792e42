//! What the laws of this crate hold of: any lines, any part of a form, any test.

ghost use Rattle.std.specs.Prelude.{ℕ, Bool, List, Option};
ghost use Rattle.mk_form.specs.Exact.{Part};

/// Any kind of text: which of its lines say their name, and which lines may follow a part.
pub trait AnyText<L> {
    ghost says: { L → Bool };

    ghost follows: { List L → Type 0 };
}

/// Any part of a form.
pub trait AnyPart<L, V> {
    ghost part: { Part L V };
}

/// Any part that depends on a value.
pub trait AnyPartAfter<X, L, V> {
    ghost after: { X → Part L V };
}

/// Any parts that are made by steps.
pub trait AnySteps<L, V> {
    ghost steps: { ℕ → Part L V };
}

/// Any relation between lines and a value, with the places where a line is due that may say its
/// name.
pub trait AnyForm<L, V> {
    ghost is: { List L → V → Type 0 };

    ghost due: { List L → Type 0 };
}

/// Any spelling of values by several lines.
pub trait AnyJoined<L, V> {
    ghost value: { List L → Option V };
}

/// Any spelling of values by one line.
pub trait AnySpelling<L, V> {
    ghost value: { L → Option V };
}

/// Any test of a line.
pub trait AnyTest<L> {
    ghost passes: { L → Bool };
}

/// Any other value in which a value is seen.
pub trait AnyView<X, V> {
    ghost seen: { X → V };
}
