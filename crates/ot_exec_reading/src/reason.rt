//! Why a text isn't read, in words.
use ot_exec_parse as parse;
use ot_exec_tokens as token;
use std::alloc::{AllocError, Global};

/// Why a text has no tokens.
pub(crate) fn of_tokens(why: token::Why) -> &'static str {
    match why {
        token::Why::Trigraph => "a trigraph: compilers differ in reading it",
        token::Why::OpenComment => "a comment that doesn't end",
        token::Why::NoToken => "this is no token of C",
        token::Why::NoNumber => "this is no number that is read",
        token::Why::Header => "a header that isn't known",
        token::Why::NoFile =>
            "no file of this name stands beside this one, and no header of this name is known",
        token::Why::Includes => "files are included too deep, or too often",
        token::Why::Directive => "a directive that isn't read",
        token::Why::Error => "an `#error` stands here",
        token::Why::NoName => "a name has to stand here",
        token::Why::Condition => "an `#if` that isn't closed, or what closes none",
        token::Why::Test => "the test of an `#if` isn't read",
        token::Why::Arguments => "a macro has another number of arguments",
        token::Why::TooMuch => "macros become more than 2,000,000 tokens, or nest too deep",
    }
}

/// Why tokens have no tree, where this word stands.
pub(crate) fn of_tree(alloc: Global, why: parse::Why, word: &str) -> Result<String, AllocError> {
    match why {
        parse::Why::Expected(_) => format!(in alloc;
            "another mark has to stand here, not `{word}`"
        ),
        parse::Why::NoName => format!(in alloc; "a name has to stand here, not `{word}`"),
        parse::Why::NoType => format!(in alloc; "a type has to stand here, not `{word}`"),
        parse::Why::NoValue => format!(in alloc; "a value has to stand here, not `{word}`"),
        parse::Why::NoVariable => format!(in alloc; "a variable has to stand here, not `{word}`"),
        parse::Why::NotDeclared => format!(in alloc; "`{word}` isn't declared"),
        parse::Why::NotRead => format!(in alloc; "`{word}` isn't read"),
        parse::Why::Directive => format!(in alloc; "the directive `{word}` isn't read"),
        parse::Why::Clause => format!(in alloc; "the clause `{word}` isn't read"),
        parse::Why::Reduction => format!(in alloc; "`{word}` names no reduction"),
        parse::Why::Dependence => format!(in alloc; "the kind of dependence `{word}` isn't read"),
        parse::Why::Alone => format!(in alloc;
            "the directive `{word}` stands alone, and is no body"
        ),
        parse::Why::Width => String::from_str(
            alloc,
            "members with a width in bits aren't executed yet",
        ),
        parse::Why::Nesting => String::from_str(alloc, "this nests too deep"),
    }
}
