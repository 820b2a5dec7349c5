//! What is said of a refusal.
ghost use Rattle.std.specs.Prelude.{◌≡◌, false, IfOk, string_bytes};
ghost use Rattle.ot_file_report.specs.Report as meant;

use ot_file_diagnosis::Code;
use ot_file_judge::Finding;
use ot_why_reason::sentence_of;
use std::alloc::{AllocError, Global};

/// What is said of a refusal: that the line is too long, or its code.
pub(crate) fn words_of(alloc: Global, finding: &Finding) -> Result<String, AllocError>
    ensures { IfOk result (λ words. string_bytes words ≡ meant.words_of_code finding.now.is_long finding.now.code) }
{
    if finding.is_long {
        return String::from_str(
            alloc,
            "long: without its white space the line has more than 65536 bytes; behind it nothing is answered",
        );
    }
    code_words(alloc, finding.code)
}

/// A code and what it means, or that the log is full.
fn code_words(alloc: Global, code: Option<u32>) -> Result<String, AllocError>
    ensures { IfOk result (λ words. string_bytes words ≡ meant.words_of_code false code) }
{
    match code {
        Some(code) => format!(in alloc; "{code}: {}", sentence_of(code)),
        None => String::from_str(
            alloc,
            "full: the log has no room for this request; a checkpoint begins it anew",
        ),
    }
}

/// What kind of refusal it is.
pub(crate) fn kind_of(finding: &Finding) -> Code
    ensures { result ≡ meant.kind_of finding.now.is_long finding.now.code }
{
    match (finding.is_long, finding.code) {
        (true, _) => Code::Long,
        (false, Some(code)) => Code::Answered(code),
        (false, None) => Code::Full,
    }
}
