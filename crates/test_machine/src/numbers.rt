//! Operations on numbers of C's types, as ISO C11 has them where it says what they give, and else as two's complement does.
use ot_exec_code::{Kind, Operation, Width, operate};
use std::alloc::{AllocError, Global};
use std::test::Fail;

/// What an operation gives, the operation, the type, and two numbers; `-` where it gives none. Numbers are those of 64 bits.
const ROWS: &str = r#"4294967295 subtract u32 0 1
18446744073709551615 subtract i32 0 1
18446744071562067968 add i32 2147483647 1
2147483648 add u32 2147483647 1
255 subtract u8 0 1
18446744073709551488 add i8 127 1
0 add u64 18446744073709551615 1
18446744073709551614 multiply i16 18446744073709551615 2
18446744073709551613 divide i32 18446744073709551609 2
18446744073709551615 remainder i32 18446744073709551609 2
18446744073709551613 divide i32 7 18446744073709551614
1 remainder i32 7 18446744073709551614
3 divide i64 18446744073709551609 18446744073709551614
9223372036854775804 divide u64 18446744073709551609 2
18446744071562067968 divide i32 18446744071562067968 18446744073709551615
0 remainder i32 18446744071562067968 18446744073709551615
- divide u8 5 0
- remainder i64 5 0
8 and u32 12 10
14 or u32 12 10
6 xor u32 12 10
18446744073709551612 shiftleft i32 18446744073709551615 2
18446744071562067968 shiftleft i32 1 31
- shiftleft i32 1 32
4294967296 shiftleft u64 1 32
18446744073709551615 shiftright i32 18446744073709551608 4
268435455 shiftright u32 4294967288 4
- shiftright u64 1 64
1 less i32 18446744073709551615 0
0 less u64 18446744073709551615 0
1 lessorequal i8 18446744073709551488 18446744073709551488
0 less i64 5 5
1 equal i32 18446744073709551615 18446744073709551615
0 equal u64 1 18446744073709551615
"#;

fn operation_of(name: &str) -> Option<Operation> {
    match name {
        "add" => Some(Operation::Add),
        "subtract" => Some(Operation::Subtract),
        "multiply" => Some(Operation::Multiply),
        "divide" => Some(Operation::Divide),
        "remainder" => Some(Operation::Remainder),
        "and" => Some(Operation::And),
        "or" => Some(Operation::Or),
        "xor" => Some(Operation::Xor),
        "shiftleft" => Some(Operation::ShiftLeft),
        "shiftright" => Some(Operation::ShiftRight),
        "less" => Some(Operation::Less),
        "lessorequal" => Some(Operation::LessOrEqual),
        "equal" => Some(Operation::Equal),
        _ => None,
    }
}

fn kind_of(name: &str) -> Kind {
    let signed = name.starts_with("i");
    let width = match name {
        "i8" | "u8" => Width::Bits8,
        "i16" | "u16" => Width::Bits16,
        "i32" | "u32" => Width::Bits32,
        _ => Width::Bits64,
    };
    Kind { width, signed }
}

/// The row as it has to be: what the operation gives, and then the row without its first word.
fn row_of(alloc: Global, behind: &'static str) -> Result<String, AllocError> {
    let mut given = None;
    if let Some((name, rest)) = behind.split_once(" ") {
        if let Some((kind, numbers)) = rest.split_once(" ") {
            if let Some((one, other)) = numbers.split_once(" ") {
                let a = one.parse::<u64>().unwrap_or(0);
                let b = other.parse::<u64>().unwrap_or(0);
                if let Some(operation) = operation_of(name) {
                    given = operate(operation, kind_of(kind), a, b);
                }
            }
        }
    }
    match given {
        Some(number) => format!(in alloc; "{number} {behind}"),
        None => format!(in alloc; "- {behind}"),
    }
}

/// How many rows are as they have to be, and of the first that isn't what it has to be.
fn passed(alloc: Global, table: &'static str) -> Result<(u32, String), AllocError> {
    let mut rows = 0u32;
    for line in table.lines() {
        if let Some((_, behind)) = line.split_once(" ") {
            let row = row_of(alloc, behind)?;
            if row.as_str() != line {
                return Ok((rows, row));
            }
            rows = rows.wrapping_add(1);
        }
    }
    Ok((rows, String::new(alloc)))
}

#[test]
fn numbers(rt: HostRuntime) -> Result<(), Fail> {
    let (rows, wrong) = passed(rt.alloc(), ROWS)?;
    assert!(rt; rows == 34, "{wrong}");
    Ok(())
}
