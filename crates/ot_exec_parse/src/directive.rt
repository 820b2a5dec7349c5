//! The names of directives (OpenMP API 5.2).
use ot_exec_tokens::word;
use ot_exec_tree::Directive;

/// The directive of a name, or of a part of a combined one.
pub(crate) fn directive_of(name: u32) -> Option<Directive> {
    match name {
        word::PARALLEL => Some(Directive::Parallel),
        word::FOR | word::LOOP => Some(Directive::For),
        word::SECTIONS => Some(Directive::Sections),
        word::SECTION => Some(Directive::Section),
        word::SINGLE => Some(Directive::Single),
        word::MASTER | word::MASKED => Some(Directive::Masked),
        word::TASK => Some(Directive::Task),
        word::TASKLOOP => Some(Directive::Taskloop),
        word::TASKGROUP => Some(Directive::Taskgroup),
        word::TASKWAIT => Some(Directive::Taskwait),
        word::TASKYIELD => Some(Directive::Taskyield),
        word::CRITICAL => Some(Directive::Critical),
        word::ATOMIC => Some(Directive::Atomic),
        word::BARRIER => Some(Directive::Barrier),
        word::SIMD => Some(Directive::Simd),
        word::FLUSH => Some(Directive::Flush),
        word::SCOPE => Some(Directive::Scope),
        _ => None,
    }
}

/// Whether a directive stands alone, with no statement behind it.
pub(crate) fn is_alone(directive: Directive) -> bool {
    matches!(
        directive,
        Directive::Taskwait | Directive::Taskyield | Directive::Barrier | Directive::Flush
    )
}
