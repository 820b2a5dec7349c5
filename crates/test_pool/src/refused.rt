//! What sessions side by side are told where memory is refused to one of them.
use super::door::Door;
use super::play::{Told, play};
use super::players::By;
use super::scene::Scene;
use super::scenes::BESIDE_BY_SESSIONS;
use std::alloc::{AllocError, Global};

/// The replies of a session that makes an array, fills it, and runs a program over it.
#[derive(Clone, Copy)]
struct Replies {
    whole: [&'static str; 3],
    /// The last reply where the array wasn't filled.
    of_zeros: &'static str,
    units: u64,
}

const FIRST: Replies = Replies {
    whole: [r#"["ok",1]"#, r#"["ok",2]"#, r#"["done",3,2,5,[[7,8,3]]]"#],
    of_zeros: r#"["done",3,2,5,[[7,8,0]]]"#,
    units: 5,
};

const SECOND: Replies = Replies {
    whole: [r#"["ok",1]"#, r#"["ok",2]"#, r#"["done",3,3,7,[[4,5,9]]]"#],
    of_zeros: r#"["done",3,3,7,[[4,5,9]]]"#,
    units: 7,
};

/// How a session ends behind its third reply.
const AT_THE_END: &str = "Ok(EndOfInput), 3";

/// How it ends without memory, by the number of requests that it has logged then.
const WITHOUT_MEMORY: [[&str; 2]; 4] = [
    ["Err(Memory), 0", "Err(WriteFailed), 0"],
    ["Err(Memory), 1", "Err(WriteFailed), 1"],
    ["Err(Memory), 2", "Err(WriteFailed), 2"],
    ["Err(Memory), 3", "Err(WriteFailed), 3"],
];

impl Replies {
    /// What a session may be told to the end of its input, where a request may have been answered 508.
    fn at_the_end(&self) -> [[&'static str; 3]; 4] {
        let [new, put, done] = self.whole;
        [
            [new, put, done],
            [new, put, r#"["err",3,508]"#],
            [new, r#"["err",2,508]"#, self.of_zeros],
            [r#"["err",1,508]"#, r#"["err",2,412]"#, r#"["err",3,412]"#],
        ]
    }

    /// Whether a session may be told these replies and end so.
    fn may_be(&self, replies: &[&str], end: &str) -> bool {
        if end == AT_THE_END {
            return self
                .at_the_end()
                .iter()
                .any(|some| replies == some.as_slice());
        }
        let known = self.whole.as_slice();
        if replies.len() > known.len() || known.get(..replies.len()) != Some(replies) {
            return false;
        }
        // The last request that is logged may be without its reply.
        WITHOUT_MEMORY
            .iter()
            .skip(replies.len())
            .take(2)
            .any(|ends| ends.contains(&end))
    }

    /// Whether a session may be told this text, which ends with how it ended.
    fn may_be_told(&self, alloc: Global, text: &str) -> Result<bool, AllocError> {
        let lines = text.lines().collect::<Vec<&str>>(alloc)?;
        match lines.as_slice() {
            [replies @ .., end] => Ok(self.may_be(replies, end)),
            [] => Ok(false),
        }
    }
}

/// Whether the two sessions may be told this: memory was refused to one of them at most, and the other is told all.
/// The units that were settled are those of the shares.
fn may_be_told(alloc: Global, told: &Told) -> Result<bool, AllocError> {
    let [of_first, of_second] = told.usage.by_tenant.as_slice() else {
        return Ok(false);
    };
    let Some((first, rest)) = told.said.as_str().split_once(" logged\n") else {
        return Ok(false);
    };
    let Some((second, "")) = rest.split_once(" logged\n") else {
        return Ok(false);
    };
    let first_is_whole = is_whole(first, &FIRST) && *of_first == FIRST.units;
    let second_is_whole = is_whole(second, &SECOND) && *of_second == SECOND.units;
    let is_sum = of_first.checked_add(*of_second) == Some(told.usage.total);
    Ok(
        is_sum
            && (first_is_whole || second_is_whole)
            && FIRST.may_be_told(alloc, first)?
            && SECOND.may_be_told(alloc, second)?
            && *of_first <= FIRST.units
            && *of_second <= SECOND.units,
    )
}

/// Whether a session is told all.
fn is_whole(text: &str, replies: &Replies) -> bool {
    let mut lines = text.lines();
    replies
        .whole
        .iter()
        .all(|reply| lines.next() == Some(*reply))
        && lines.next() == Some(AT_THE_END)
}

/// It passes whichever allocation fails, and prints what the sessions were told where one did.
#[test]
fn a_session_without_memory_is_answered_508_and_the_other_as_ever(rt: HostRuntime) {
    let alloc = rt.alloc();
    let scene = Scene::Beside(By::Session);
    let Ok(told) = play(&rt, alloc, 2, 2, &Door::none(), &scene) else {
        let _ = println!(rt; "memory was refused");
        return;
    };
    let Ok(may_be) = may_be_told(alloc, &told) else {
        let _ = println!(rt; "memory was refused");
        return;
    };
    assert!(rt; may_be, "{told:?}");
    if told.said.as_str() != BESIDE_BY_SESSIONS {
        let _ = println!(rt; "memory was refused: {told:?}");
    }
}
