//! The file `template`: a line for each line of the template.

ghost use Rattle.std.specs.Prelude.{◌≡◌, ◌++◌, ◌∷◌, [], Ok, is_some, IfOk, MatchOption, MatchResult};
ghost use Rattle.cynara_keys.specs.Text.{same_text};
ghost use Rattle.rule_templates.specs.declared.templates.TemplateRefusal.TheVariants.{Memory};
ghost use Rattle.set_text.specs.Template as word;
ghost use Rattle.set_text.specs.parts.Puts.{IsWrongLine, PutsLine};
ghost use Rattle.set_text.specs.parts.Reads.{RefusesFile, RefusesLine};

use crate::lines::{FileFault, LineFault};
use rule_templates::{Template, TemplateRefusal};
use std::alloc::{AllocError, Global};
use text_lines::split_at_newline;

/// Reads `template`. Its first line that is not in the one spelling of a template line, or one too many, is named.
pub fn read_template(alloc: Global, text: &[u8]) -> Result<Template, FileFault>
    ensures { MatchResult result (λ template. word.template_lines_of text.now ≡ Ok template)
        (λ fault. RefusesFile fault (word.template_lines_of text.now)) }
{
    let mut template = Template::empty(alloc);
    let mut rest = text;
    let mut number = 1u32;
    while !rest.is_empty() {
        let Some((line, after)) = split_at_newline(rest) else {
            return Err(FileFault::Line(number));
        };
        if let Err(fault) = push_line(alloc, &mut template, line) {
            return Err(fault.at(number));
        }
        number += 1;
        rest = after;
    }
    Ok(template)
}

// Puts a line behind those of the template, where it is in its one spelling and there is room for it.
fn push_line(alloc: Global, template: &mut Template, line: &[u8]) -> Result<(), LineFault>
    ensures { MatchResult result (λ done. PutsLine template.old line.now template.new)
        (λ fault. RefusesLine fault (word.read_template_line template.old line.now)) }
{
    match is_spelt(alloc, line) {
        Ok(true) => {}
        Ok(false) => return Err(LineFault::Wrong),
        Err(error) => return Err(LineFault::Memory(error)),
    }
    match template.push_line(line) {
        Ok(()) => Ok(()),
        Err(refusal) => match memory_of(refusal) {
            Some(error) => Err(LineFault::Memory(error)),
            None => Err(LineFault::Wrong),
        },
    }
}

// Whether the line is the one spelling of a template line.
fn is_spelt(alloc: Global, line: &[u8]) -> Result<bool, AllocError>
    ensures { IfOk result (λ is. is ≡ is_some (word.template_line_of line.now)) }
{
    let mut template = Template::empty(alloc);
    match template.push_line(line) {
        Ok(()) => {
            let text = template.text()?;
            Ok(is_line(&text, line))
        }
        Err(refusal) => match memory_of(refusal) {
            Some(error) => Err(error),
            None => Ok(false),
        },
    }
}

// Want of memory, where it is what was refused for.
fn memory_of(refusal: TemplateRefusal) -> Option<AllocError>
    ensures { MatchOption result (IsWrongLine refusal) (λ error. refusal ≡ Memory error) }
{
    match refusal {
        TemplateRefusal::Memory(error) => Some(error),
        TemplateRefusal::BadLine(_) => None,
        TemplateRefusal::BadPlaceholder(_) => None,
        TemplateRefusal::TooMany(_) => None,
    }
}

// Whether the text is the line with its newline.
fn is_line(text: &[u8], line: &[u8]) -> bool
    ensures { result ≡ same_text text.now (line.now ++ 10 ∷ []) }
{
    match text.split_last() {
        Some((last, front)) => *last == b'\n' && front == line,
        None => false,
    }
}
