ghost use Rattle.std.specs.Prelude.{◌≡◌, ℕ};
ghost use Rattle.ot_model.specs.Joining.{IsAssociative, IsCommutative, IsNeutral, IsAbsorbed, join_by, unit_of};
ghost use Rattle.ot_model.specs.Monoids.{join-associative, join-commutative, join-neutral, join-absorbed};
ghost use Rattle.ot_model.specs.declared.fold.Fold.TheVariants.{Plus, Times, And, Or, Xor, Min, Max};

/// What joins numbers in any order: copies of a cell may come back to it in any order.
pub trait Monoid {
    ghost unit_is: { Self → ℕ };

    ghost join_is: { Self → ℕ → ℕ → ℕ };

    /// The number that changes none: what a private copy starts at (the initializer, OpenMP API 5.2,
    /// section 5.5.3).
    fn unit(&self) -> u64
        ensures { result ≡ unit_is self.now };

    /// What two numbers join to (the combiner, OpenMP API 5.2, section 5.5.3).
    fn join(&self, one: u64, two: u64) -> u64
        ensures { result ≡ join_is self.now one two };

    /// It doesn't matter which two of three are joined first.
    ghost associative: { (m : Self) → IsAssociative (join_is m) };

    /// Nor which of two comes first.
    ghost commutative: { (m : Self) → IsCommutative (join_is m) };

    /// The unit changes no number below 2^64.
    ghost neutral: { (m : Self) → IsNeutral (join_is m) (unit_is m) };

    /// Nor does it change what any number joins to.
    ghost absorbed: { (m : Self) → IsAbsorbed (join_is m) (unit_is m) };
}

/// The operation of a reduction: an implicitly declared reduction identifier (OpenMP API 5.2, section
/// 5.5.3), on unsigned 64-bit numbers.
#[derive(Clone, Copy, Debug, PartialEq, Eq)]
pub enum Fold {
    /// `+`: the sum modulo 2^64, from 0 on.
    Plus,
    /// `*`: the product modulo 2^64, from 1 on.
    Times,
    /// `&`: the bits that both have, from all bits on.
    And,
    /// `|`: the bits that one of them has, from 0 on.
    Or,
    /// `^`: the bits that exactly one of them has, from 0 on.
    Xor,
    /// `min`: the lesser, from 2^64 - 1 on.
    Min,
    /// `max`: the greater, from 0 on.
    Max,
}

/// The operation `+` alone.
#[derive(Clone, Copy, Debug)]
pub struct Sum {}

impl Monoid for Sum {
    ghost unit_is = { λ _. unit_of Plus };

    ghost join_is = { λ _. join_by Plus };

    fn unit(&self) -> u64 {
        0
    }

    fn join(&self, one: u64, two: u64) -> u64 {
        one.wrapping_add(two)
    }

    ghost associative = { λ _. join-associative Plus };

    ghost commutative = { λ _. join-commutative Plus };

    ghost neutral = { λ _. join-neutral Plus };

    ghost absorbed = { λ _. join-absorbed Plus };
}

/// The operation `*` alone.
#[derive(Clone, Copy, Debug)]
pub struct Product {}

impl Monoid for Product {
    ghost unit_is = { λ _. unit_of Times };

    ghost join_is = { λ _. join_by Times };

    fn unit(&self) -> u64 {
        1
    }

    fn join(&self, one: u64, two: u64) -> u64 {
        one.wrapping_mul(two)
    }

    ghost associative = { λ _. join-associative Times };

    ghost commutative = { λ _. join-commutative Times };

    ghost neutral = { λ _. join-neutral Times };

    ghost absorbed = { λ _. join-absorbed Times };
}

/// The operation `&` alone.
#[derive(Clone, Copy, Debug)]
pub struct Conjunction {}

impl Monoid for Conjunction {
    ghost unit_is = { λ _. unit_of And };

    ghost join_is = { λ _. join_by And };

    fn unit(&self) -> u64 {
        u64::MAX
    }

    fn join(&self, one: u64, two: u64) -> u64 {
        one & two
    }

    ghost associative = { λ _. join-associative And };

    ghost commutative = { λ _. join-commutative And };

    ghost neutral = { λ _. join-neutral And };

    ghost absorbed = { λ _. join-absorbed And };
}

/// The operation `|` alone.
#[derive(Clone, Copy, Debug)]
pub struct Disjunction {}

impl Monoid for Disjunction {
    ghost unit_is = { λ _. unit_of Or };

    ghost join_is = { λ _. join_by Or };

    fn unit(&self) -> u64 {
        0
    }

    fn join(&self, one: u64, two: u64) -> u64 {
        one | two
    }

    ghost associative = { λ _. join-associative Or };

    ghost commutative = { λ _. join-commutative Or };

    ghost neutral = { λ _. join-neutral Or };

    ghost absorbed = { λ _. join-absorbed Or };
}

/// The operation `^` alone.
#[derive(Clone, Copy, Debug)]
pub struct Parity {}

impl Monoid for Parity {
    ghost unit_is = { λ _. unit_of Xor };

    ghost join_is = { λ _. join_by Xor };

    fn unit(&self) -> u64 {
        0
    }

    fn join(&self, one: u64, two: u64) -> u64 {
        one ^ two
    }

    ghost associative = { λ _. join-associative Xor };

    ghost commutative = { λ _. join-commutative Xor };

    ghost neutral = { λ _. join-neutral Xor };

    ghost absorbed = { λ _. join-absorbed Xor };
}

/// The operation `min` alone.
#[derive(Clone, Copy, Debug)]
pub struct Minimum {}

impl Monoid for Minimum {
    ghost unit_is = { λ _. unit_of Min };

    ghost join_is = { λ _. join_by Min };

    fn unit(&self) -> u64 {
        u64::MAX
    }

    fn join(&self, one: u64, two: u64) -> u64 {
        one.min(two)
    }

    ghost associative = { λ _. join-associative Min };

    ghost commutative = { λ _. join-commutative Min };

    ghost neutral = { λ _. join-neutral Min };

    ghost absorbed = { λ _. join-absorbed Min };
}

/// The operation `max` alone.
#[derive(Clone, Copy, Debug)]
pub struct Maximum {}

impl Monoid for Maximum {
    ghost unit_is = { λ _. unit_of Max };

    ghost join_is = { λ _. join_by Max };

    fn unit(&self) -> u64 {
        0
    }

    fn join(&self, one: u64, two: u64) -> u64 {
        one.max(two)
    }

    ghost associative = { λ _. join-associative Max };

    ghost commutative = { λ _. join-commutative Max };

    ghost neutral = { λ _. join-neutral Max };

    ghost absorbed = { λ _. join-absorbed Max };
}

impl Monoid for Fold {
    ghost unit_is = { unit_of };

    ghost join_is = { join_by };

    fn unit(&self) -> u64 {
        match self {
            Fold::Plus => Sum {}.unit(),
            Fold::Times => Product {}.unit(),
            Fold::And => Conjunction {}.unit(),
            Fold::Or => Disjunction {}.unit(),
            Fold::Xor => Parity {}.unit(),
            Fold::Min => Minimum {}.unit(),
            Fold::Max => Maximum {}.unit(),
        }
    }

    fn join(&self, one: u64, two: u64) -> u64 {
        match self {
            Fold::Plus => Sum {}.join(one, two),
            Fold::Times => Product {}.join(one, two),
            Fold::And => Conjunction {}.join(one, two),
            Fold::Or => Disjunction {}.join(one, two),
            Fold::Xor => Parity {}.join(one, two),
            Fold::Min => Minimum {}.join(one, two),
            Fold::Max => Maximum {}.join(one, two),
        }
    }

    ghost associative = { join-associative };

    ghost commutative = { join-commutative };

    ghost neutral = { join-neutral };

    ghost absorbed = { join-absorbed };
}
