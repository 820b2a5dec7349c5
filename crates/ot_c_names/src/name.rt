//! Names of arrays in C.
ghost use Rattle.std.specs.Prelude.{◌≡◌, IfOk, string_bytes};
ghost use Rattle.std.specs.List.{list_any};
ghost use Rattle.std.specs.Str.{bytes_eq};
ghost use Rattle.ot_c_names.specs.Names as meant;

use std::alloc::{AllocError, Global};

/// Words that no array is called by in C that is written here: the keywords of C and of its compilers, what their
/// headers name, what a program calls by itself, and the words of directives.
const TAKEN: [&str; 83] = [
    "alignas",
    "alignof",
    "asm",
    "at",
    "auto",
    "bool",
    "break",
    "case",
    "char",
    "const",
    "constexpr",
    "continue",
    "default",
    "define",
    "depend",
    "do",
    "double",
    "else",
    "enum",
    "extern",
    "false",
    "firstprivate",
    "float",
    "for",
    "goto",
    "i386",
    "if",
    "in",
    "in_reduction",
    "include",
    "inline",
    "inout",
    "int",
    "iterator",
    "linux",
    "long",
    "main",
    "masked",
    "master",
    "max",
    "mergeable",
    "min",
    "none",
    "nullptr",
    "num_threads",
    "omp",
    "out",
    "parallel",
    "pragma",
    "printf",
    "priority",
    "register",
    "restrict",
    "return",
    "shared",
    "short",
    "show",
    "signed",
    "single",
    "size_t",
    "sizeof",
    "static",
    "static_assert",
    "struct",
    "switch",
    "task",
    "task_reduction",
    "taskgroup",
    "taskwait",
    "taskyield",
    "thread_local",
    "true",
    "typedef",
    "typeof",
    "typeof_unqual",
    "uint64_t",
    "union",
    "unix",
    "unsigned",
    "untied",
    "void",
    "volatile",
    "while",
];

fn is_among(words: &[&str], name: &str) -> bool
    ensures { result ≡ list_any (λ word. bytes_eq word.now name.now) words.now }
{
    for word in words {
        if *word == name {
            return true;
        }
    }
    false
}

/// Whether no array is called by this word in C.
pub fn is_taken(name: &str) -> bool
    ensures { result ≡ meant.is_taken name.now }
{
    is_among(&TAKEN, name)
}

/// The name in C of an array: its own, behind `A_` where that is taken. Names of arrays have no capitals, so the one that
/// is made up is no other array's. Its one refusal is of memory.
pub fn name_in_c(alloc: Global, name: &str) -> Result<String, AllocError>
    ensures { IfOk result (λ called. string_bytes called ≡ meant.name_in_c name.now) }
{
    if is_taken(name) {
        return format!(in alloc; "A_{name}");
    }
    String::from_str(alloc, name)
}

/// The name of the array that is called so in C.
pub fn own_name(name: &str) -> &str
    ensures { result.now ≡ meant.own_name name.now }
{
    match name.strip_prefix("A_") {
        Some(own) if is_taken(own) => own,
        _ => name,
    }
}
