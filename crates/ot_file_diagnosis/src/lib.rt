//! What is found in a file, told in four formats: as compilers show it, as JSON, as SARIF, and as GitHub's workflows take it.
#![tactic(auto)]

mod annotation;
mod diagnosis;
mod escape;
mod format;
mod paint;
mod picture;
mod sarif;
mod summary;
mod text;
mod value;

pub use diagnosis::{Code, Diagnosis, Included, Place, Remark, Severity, Turn};
pub use format::{Format, put_document, put_found, put_results, without_refusals};
pub use paint::Paint;
pub use summary::{Outcome, put_summary};
pub use text::{Source, place_of, put_diagnosis};
