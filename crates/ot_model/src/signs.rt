//! How operations are written.
ghost use Rattle.std.specs.Prelude.{◌≡◌};
ghost use Rattle.ot_model.specs.Signs as written;

use crate::expr::Op;
use crate::fold::Fold;

impl Op {
    /// The operation that has this word in a program: `=`, or `min`.
    pub fn of_word(text: &str) -> Option<Op>
        ensures { result ≡ written.op_with text.now }
    {
        match text {
            "+" => Some(Op::Plus),
            "-" => Some(Op::Minus),
            "*" => Some(Op::Times),
            "&" => Some(Op::And),
            "|" => Some(Op::Or),
            "^" => Some(Op::Xor),
            "<" => Some(Op::Less),
            "=" => Some(Op::Equal),
            "min" => Some(Op::Min),
            "max" => Some(Op::Max),
            _ => None,
        }
    }

    /// Whether it is written as a function: `min` and `max` are.
    pub fn is_call(self) -> bool
        ensures { result ≡ written.is_call self }
    {
        matches!(self, Op::Min | Op::Max)
    }

    /// Its sign between its sides, with a blank on both sides, or the beginning of its call: `min(`.
    pub fn sign(self) -> &'static str
        ensures { result.now ≡ written.sign self }
    {
        match self {
            Op::Plus => " + ",
            Op::Minus => " - ",
            Op::Times => " * ",
            Op::And => " & ",
            Op::Or => " | ",
            Op::Xor => " ^ ",
            Op::Less => " < ",
            Op::Equal => " == ",
            Op::Min => "min(",
            Op::Max => "max(",
        }
    }
}

impl Fold {
    /// The operation of folds that is called so in a clause: `+`, or `min`.
    pub fn of_identifier(text: &str) -> Option<Fold>
        ensures { result ≡ written.fold_with text.now }
    {
        match text {
            "+" => Some(Fold::Plus),
            "*" => Some(Fold::Times),
            "&" => Some(Fold::And),
            "|" => Some(Fold::Or),
            "^" => Some(Fold::Xor),
            "min" => Some(Fold::Min),
            "max" => Some(Fold::Max),
            _ => None,
        }
    }

    /// Whether a fold by it is written as a function: those by `min` and `max` are.
    pub fn is_call(self) -> bool
        ensures { result ≡ written.is_called self }
    {
        matches!(self, Fold::Min | Fold::Max)
    }

    /// The sign of a fold by it between the cell and the value, as ` += `, or the beginning of its call: `min(`.
    pub fn sign(self) -> &'static str
        ensures { result.now ≡ written.fold_sign self }
    {
        match self {
            Fold::Plus => " += ",
            Fold::Times => " *= ",
            Fold::And => " &= ",
            Fold::Or => " |= ",
            Fold::Xor => " ^= ",
            Fold::Min => "min(",
            Fold::Max => "max(",
        }
    }

    /// What it is called in a clause: its reduction identifier (OpenMP API 5.2, section 5.5.3).
    pub fn identifier(self) -> &'static str
        ensures { result.now ≡ written.identifier self }
    {
        match self {
            Fold::Plus => "+",
            Fold::Times => "*",
            Fold::And => "&",
            Fold::Or => "|",
            Fold::Xor => "^",
            Fold::Min => "min",
            Fold::Max => "max",
        }
    }
}
