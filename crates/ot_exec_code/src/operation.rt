/// An operation of C on two numbers of one type (ISO C11, sections 6.5.5 to 6.5.12). Sums, differences, products and shifts go round.
#[derive(Clone, Copy, Debug, PartialEq, Eq)]
pub enum Operation {
    Add,
    Subtract,
    Multiply,
    Divide,
    Remainder,
    And,
    Or,
    Xor,
    ShiftLeft,
    ShiftRight,
    /// 1 where it is so, else 0.
    Less,
    LessOrEqual,
    Equal,
}
