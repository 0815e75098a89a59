//! The default template.

ghost use Rattle.std.specs.Prelude.{◌≡◌, IfOk};
ghost use Rattle.rule_templates.specs.Template.{template_text};
ghost use Rattle.rule_templates.specs.Usual.{usual_template, usual_text};

use crate::templates::{Template, TemplateRefusal};
use std::alloc::{AllocError, Global};

/// The text of the default template, which is this project's profile.
pub const USUAL_TEXT: &[u8] = b"System ~PROCESS~ rwxat
User ~PROCESS~ rwxat
~PROCESS~ System wx
~PROCESS~ User wx
~PROCESS~ User::Home rxl
System ~PATH_RW~ rwxat
~PROCESS~ ~PATH_RW~ rwxatl
System ~PATH_RO~ rwxat
~PROCESS~ ~PATH_RO~ rxl
~PROCESS~ ~AUTHOR~ rwxatl
";

impl Template {
    /// The default template, which is what [`USUAL_TEXT`] spells and is spelled as that text.
    pub fn usual(alloc: Global) -> Result<Template, AllocError>
        ensures usual { IfOk result (λ template. template ≡ usual_template) }
        ensures text { IfOk result (λ template. template_text template ≡ usual_text) }
    {
        match Template::read(alloc, USUAL_TEXT) {
            Ok(template) => Ok(template),
            Err(TemplateRefusal::Memory(error)) => Err(error),
            Err(_) => unreachable!(),
        }
    }
}
