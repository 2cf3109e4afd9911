//! What is made of the numbers of some ranks.

ghost use Rattle.std.specs.Prelude.{◌≡◌, ◌<◌, ◌^◌, ◌≤ℤ◌, ◌+ℤ◌, ℤ, Some, pos, neg_ℤ};
ghost use lib.Signed.{mag};
ghost use Rattle.rank_sums.specs.Folds.{IsWithin, join, joined, of_none, times};
ghost use Rattle.rank_sums.specs.Words.{fold_named, fold_word};

/// What is made of the numbers of some ranks.
#[derive(Debug, PartialEq, Eq, Clone, Copy)]
pub enum Fold {
    /// Their sum.
    Sum,
    /// The least.
    Min,
    /// The greatest.
    Max,
    /// How many there are.
    Count,
}

impl Fold {
    /// The fold that a word names: `sum`, `min`, `max` or `count`.
    pub fn read(word: &str) -> Option<Fold>
        ensures { result ≡ fold_named word.now }
    {
        match word {
            "sum" => Some(Fold::Sum),
            "min" => Some(Fold::Min),
            "max" => Some(Fold::Max),
            "count" => Some(Fold::Count),
            _ => None,
        }
    }

    /// The word that names it.
    pub fn word(self) -> &'static str
        ensures { result.now ≡ fold_word self }
    {
        match self {
            Fold::Sum => "sum",
            Fold::Min => "min",
            Fold::Max => "max",
            Fold::Count => "count",
        }
    }
}

// The sum of two numbers that are not too large for it.
fn added(a: i128, b: i128) -> i128
    requires first { (neg_ℤ (pos (2 ^ 120)) ≤ℤ a) × (a ≤ℤ pos (2 ^ 120)) }
    requires second { (neg_ℤ (pos (2 ^ 120)) ≤ℤ b) × (b ≤ℤ pos (2 ^ 120)) }
    ensures { result ≡ a +ℤ b }
{
    a + b
}

// What is made of two numbers.
fn join(fold: Fold, a: i128, b: i128) -> i128
    requires first { (neg_ℤ (pos (2 ^ 120)) ≤ℤ a) × (a ≤ℤ pos (2 ^ 120)) }
    requires second { (neg_ℤ (pos (2 ^ 120)) ≤ℤ b) × (b ≤ℤ pos (2 ^ 120)) }
    ensures { result ≡ join fold a b }
{
    match fold {
        Fold::Sum | Fold::Count => added(a, b),
        Fold::Min => a.min(b),
        Fold::Max => a.max(b),
    }
}

/// What is made of two results that are not too large for it.
pub fn joined(fold: Fold, a: Option<i128>, b: Option<i128>) -> Option<i128>
    requires first { IsWithin (2 ^ 120) a }
    requires second { IsWithin (2 ^ 120) b }
    ensures { result ≡ joined fold a b }
{
    match (a, b) {
        (None, b) => b,
        (Some(a), None) => Some(a),
        (Some(a), Some(b)) => Some(join(fold, a, b)),
    }
}

/// A number as often as there are ranks.
pub fn times(fold: Fold, number: i64, count: u32) -> Option<i128>
    ensures { result ≡ times fold number count }
{
    if count == 0 {
        return None;
    }
    match fold {
        Fold::Sum | Fold::Count => Some(i128::from(number) * i128::from(count)),
        Fold::Min | Fold::Max => Some(i128::from(number)),
    }
}

/// The fold of no numbers.
pub fn of_none(fold: Fold) -> Option<i64>
    ensures { result ≡ of_none fold }
{
    match fold {
        Fold::Sum | Fold::Count => Some(0),
        Fold::Min | Fold::Max => None,
    }
}

/// A result that an `i64` has.
pub fn narrowed(value: Option<i128>) -> Option<i64>
    requires { (z : ℤ) → value ≡ Some z → mag z < 2 ^ 63 }
    ensures { result ≡ value }
{
    match i64::try_from(value?) {
        Ok(value) => Some(value),
        Err(_) => unreachable!(),
    }
}
