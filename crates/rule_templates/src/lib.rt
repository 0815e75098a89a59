//! Rule templates: the Smack rules that each package gets, written once with placeholders for the package's labels.
//!
//! The placeholders follow those of Tizen's security-manager. The default template and the placeholder `~AUTHOR~` are
//! this project's profile.
#![tactic(auto)]

mod expansion;
mod labels;
mod lines;
mod parts;
mod placeholders;
mod processes;
mod templates;
mod usual;

pub use expansion::expand;
pub use labels::{author_label, read_only_label};
pub use lines::{Change, LineFault, TemplateLine, Word};
pub use placeholders::Placeholder;
pub use templates::{LINE_LIMIT, Template, TemplateRefusal};
pub use usual::USUAL_TEXT;
