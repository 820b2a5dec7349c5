//! An example of each code.

/// An example of a code: what stands before it, a line, and its reply.
#[derive(Clone, Copy, Debug)]
pub(crate) struct CodePage {
    pub(crate) before: &'static str,
    pub(crate) line: &'static str,
    pub(crate) reply: &'static str,
}

/// An array `a` of 3 cells, and the request is the third.
const USUAL: &str = "Where `a` is an array of 3 cells and the request is the third:";

const fn page(before: &'static str, line: &'static str, reply: &'static str) -> Option<CodePage> {
    Some(CodePage {
        before,
        line,
        reply,
    })
}

/// The example of a code, where there is such a code.
pub(crate) fn page_of(code: u32) -> Option<CodePage> {
    match code {
        404 | 409 => page_of_greeting(code),
        420..=424 => page_of_program(code),
        425..=429 => page_of_offence(code),
        _ => page_of_request(code),
    }
}

fn page_of_greeting(code: u32) -> Option<CodePage> {
    match code {
        404 => page(
            "Where the server serves `t1` and no other tenant:",
            "[\"hello\",\"t2\"]",
            "[\"err\",0,404]",
        ),
        409 => page(
            "Where another connection has a session of `t1`:",
            "[\"hello\",\"t1\"]",
            "[\"err\",0,409]",
        ),
        _ => None,
    }
}

fn page_of_request(code: u32) -> Option<CodePage> {
    match code {
        410 => page(USUAL, "[1,]", "[\"err\",3,410]"),
        411 => page(USUAL, "[\"get\",\"a\",0]", "[\"err\",3,411]"),
        412 => page(USUAL, "[\"get\",\"b\",0,1]", "[\"err\",3,412]"),
        413 => page(USUAL, "[\"new\",\"a\",3]", "[\"err\",3,413]"),
        414 => page(USUAL, "[\"get\",\"a\",1,3]", "[\"err\",3,414]"),
        415 => page(USUAL, "[\"new\",\"b\",65534]", "[\"err\",3,415]"),
        416 => page(
            "Where there are 16 arrays and the request is the 17th:",
            "[\"new\",\"q\",1]",
            "[\"err\",17,416]",
        ),
        508 => page(
            "Where there is no memory and the request is the third:",
            "[\"run\",[\"program\",[],[[\"set\",[\"c\",\"a\",0],9]]]]",
            "[\"err\",3,508]",
        ),
        _ => None,
    }
}

fn page_of_program(code: u32) -> Option<CodePage> {
    match code {
        420 => page(USUAL, "[\"run\",[\"program\",[]]]", "[\"err\",3,420]"),
        421 => page(
            USUAL,
            "[\"run\",[\"program\",[],[[\"set\",[\"c\",\"a\",0],\"i\"]]]]",
            "[\"err\",3,421]",
        ),
        422 => page(
            USUAL,
            "[\"run\",[\"program\",[],[[\"for\",\"i\",0,20001,[[\"wait\"]]]]]]",
            "[\"err\",3,422]",
        ),
        423 => page(
            USUAL,
            "[\"run\",[\"program\",[],[[\"for\",\"i\",0,1025,[[\"task\",[],[]]]]]]]",
            "[\"err\",3,423]",
        ),
        424 => page(
            USUAL,
            "[\"run\",[\"program\",[[\"a\",3,0]],[]]]",
            "[\"err\",3,424]",
        ),
        _ => None,
    }
}

fn page_of_offence(code: u32) -> Option<CodePage> {
    match code {
        425 => page(
            USUAL,
            "[\"run\",[\"program\",[[\"a\",0,3]],[[\"task\",[],[[\"set\",[\"c\",\"a\",0],1]]]]]]",
            "[\"err\",3,425,2]",
        ),
        426 => page(
            USUAL,
            "[\"run\",[\"program\",[[\"a\",0,3]],[[\"task\",[[\"in\",[\"a\",1,1]]],[[\"task\",[[\"out\",[\"a\",1,1]]],[]],[\"wait\"]]]]]]",
            "[\"err\",3,426,2]",
        ),
        427 => page(
            USUAL,
            "[\"run\",[\"program\",[[\"a\",0,3]],[[\"task\",[[\"in\",[\"a\",0,1]]],[]],[\"set\",[\"c\",\"a\",0],1]]]]",
            "[\"err\",3,427,2]",
        ),
        428 => page(
            USUAL,
            "[\"run\",[\"program\",[[\"a\",0,3]],[[\"task\",[[\"out\",[\"a\",0,2]]],[[\"task\",[[\"out\",[\"a\",0,1]]],[]]]]]]]",
            "[\"err\",3,428,1]",
        ),
        429 => page(
            USUAL,
            "[\"run\",[\"program\",[[\"a\",0,3]],[[\"task\",[[\"red\",[\"a\",0,1]]],[]]]]]",
            "[\"err\",3,429,1]",
        ),
        _ => None,
    }
}
