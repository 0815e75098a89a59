//! Templates.

ghost use Rattle.rule_templates.specs.Limits.{most_template_lines};
ghost use Rattle.std.specs.Prelude.{◌≡◌, ◌≤◌, Some, List, Result, Ok, Err};
ghost use Rattle.std.specs.Prelude.{IsOk, IsTrue, IfOk, IfErr, OnOk, MatchOption, MatchResult};
ghost use Rattle.rule_templates.specs.declared.lines.TemplateLine.{TemplateLine};
ghost use Rattle.rule_templates.specs.declared.templates.TemplateRefusal.{TemplateRefusal};
ghost use Rattle.rule_templates.specs.TemplateLine.{word_of, line_with, line_of, is_kept_line};
ghost use Rattle.rule_templates.specs.Template.{with_front, with_line, template_of};
ghost use Rattle.rule_templates.specs.TemplateRead.{RefusesAs};
ghost use Rattle.rule_templates.specs.parts.Refusal.{RefusesFreely};

use crate::expansion::append_rules;
use crate::labels::PackageLabels;
use crate::lines::{LineFault, TemplateLine};
use crate::parts::{Parts, parts_of};
use crate::processes::process_labels;
use app_registry::{Ident, Registry};
use smack_rules::Rule;
use std::alloc::{AllocError, Global};
use std::marker::Model;
use text_lines::split_line;
use thiserror::Error;

/// The most lines of a template.
pub const LINE_LIMIT: u32 = 64;

/// Why a text is no template: its first wrong line, numbered from 1.
#[derive(Clone, Copy, Debug, PartialEq, Eq, Error)]
pub enum TemplateRefusal {
    #[error("line {0} is no rule: two labels or placeholders, and one or two words of the letters rwxatlb")]
    BadLine(u32),
    #[error("line {0} has a word that begins with ~ and is no placeholder")]
    BadPlaceholder(u32),
    #[error("line {0} is one too many: a template has at most 64 lines")]
    TooMany(u32),
    #[error("out of memory")]
    Memory(AllocError),
}

impl From<AllocError> for TemplateRefusal {
    ghost use Rattle.rule_templates.specs.declared.templates.TemplateRefusal.TheVariants.{Memory};

    ghost from_gives = { λ error refusal. refusal ≡ Memory error };

    fn from(error: AllocError) -> TemplateRefusal {
        TemplateRefusal::Memory(error)
    }
}

/// What the rules of each package are made from: at most 64 lines, each a rule whose labels may be placeholders.
#[derive(Debug, Drop)]
pub struct Template {
    lines: Vec<TemplateLine>,
}

impl Model for Template {
    ghost use Rattle.std.specs.Prelude.{List, IsTrue};
    ghost use Rattle.rule_templates.specs.declared.lines.TemplateLine.{TemplateLine};
    ghost use Rattle.rule_templates.specs.Template.{is_template};

    ghost Value = { List TemplateLine };

    ghost view = { λ template. template.lines.items };

    ghost invariant = { λ template. IsTrue (is_template template.lines.items) };
}

impl Template {
    ghost use Rattle.std.specs.Prelude.{ℕ, []};
    ghost use Rattle.std.specs.List.{list_all};
    ghost use Rattle.smack_rules.specs.RuleText.{rules_of};
    ghost use Rattle.app_registry.specs.Registry.{RegistryLists};
    ghost use Rattle.rule_templates.specs.TemplateLine.{is_fixed_line};
    ghost use Rattle.rule_templates.specs.Template.{is_template, is_full, template_text, with_one_more};
    ghost use Rattle.rule_templates.specs.TemplateRead.{ReadsAs, Pushes};
    ghost use Rattle.rule_templates.specs.Expansion.{expansion};

    /// The template without a line. Takes no memory.
    pub fn empty(alloc: Global) -> Template
        ensures { result ≡ [] }
    {
        Template {
            lines: Vec::new(alloc),
        }
    }

    /// Reads one more line and appends it. Refuses, with the number that the line would have, what `read` refuses, and
    /// then the template stays as it was.
    pub fn push_line(&mut self, line: &[u8]) -> Result<(), TemplateRefusal>
        ensures { Pushes self.old result self.new (with_one_more self.old line.now) }
    {
        let number = self.lines.len() as u32 + 1;
        let parts = test_line(line, number)?;
        match parts.keep(*self.lines.allocator()) {
            Ok(line) => self.lines.push(line).map_err(AllocError::from)?,
            Err(error) => return Err(TemplateRefusal::Memory(error)),
        }
        Ok(())
    }

    /// Reads a template: a line a rule, whose words are parted by spaces or tabs. Refuses, at the first wrong line, a
    /// line of another form, a line that would be right but for a word that begins with `~` and is no placeholder, and
    /// a 65th line.
    pub fn read(alloc: Global, text: &[u8]) -> Result<Template, TemplateRefusal>
        ensures read { ReadsAs result (template_of text.now) }
        // A text that a template was written as is read as that template.
        ensures canonical { (lines : List TemplateLine) → IsTrue (is_template lines)
            → text.now ≡ template_text lines → ReadsAs result (Ok lines) }
        // Without placeholders, a package gets the rules that the text has as a rule text.
        ensures rules { IfOk result (λ template. IsTrue (list_all is_fixed_line template)
            → (registry : RegistryLists) (name : List ℕ) → rules_of text.now ≡ Ok (expansion template registry name)) }
    {
        match Template::read_lines(alloc, text) {
            Ok(template) => Ok(template),
            Err(refusal) => Err(before_memory(refusal, text)),
        }
    }

    /// Reads a template. Memory may be wanting before a wrong line is met.
    fn read_lines(alloc: Global, text: &[u8]) -> Result<Template, TemplateRefusal>
        ensures { MatchResult result (λ template. template_of text.now ≡ Ok template)
            (λ refusal. RefusesFreely refusal (template_of text.now)) }
    {
        let mut lines = Vec::new(alloc);
        let mut rest = text;
        let mut number = 0u32;
        while let Some((line, after)) = split_line(rest) {
            number += 1;
            let line = test_line(line, number)?.keep(alloc)?;
            lines.push(line).map_err(AllocError::from)?;
            rest = after;
        }
        Ok(Template { lines })
    }

    /// The text of the template: each line with its words parted by one space, a newline behind it. It reads back as
    /// this template, and a text that this call wrote is read and written as it was.
    pub fn text(&self) -> Result<Vec<u8>, AllocError>
        ensures text { IfOk result (λ text. text.items ≡ template_text self.now) }
        ensures again { IfOk result (λ text. template_of text.items ≡ Ok self.now) }
    {
        let mut text = Vec::new(*self.lines.allocator());
        for line in &self.lines {
            line.append_to(&mut text)?;
        }
        Ok(text)
    }

    /// An equal template.
    pub fn copy(&self) -> Result<Template, AllocError>
        ensures { IfOk result (λ template. template ≡ self.now) }
    {
        let mut lines = Vec::with_capacity(*self.lines.allocator(), self.lines.len())?;
        for line in &self.lines {
            lines.push(line.copy()?)?;
        }
        Ok(Template { lines })
    }

    /// Whether a further line would be one too many.
    pub fn is_full(&self) -> bool
        ensures { result ≡ is_full self.now }
    {
        self.lines.len() as u32 + 1 > LINE_LIMIT
    }

    /// The allocator of the template's memory, for what is made beside it.
    pub fn allocator(&self) -> Global {
        *self.lines.allocator()
    }

    /// The rules that the template gives for a package of the registry: its lines in order, each placeholder replaced
    /// by the package's label. In a hybrid package a line with `~PROCESS~` gives a rule for each application. A line
    /// with `~AUTHOR~` is left out without an author.
    pub fn rules_for(&self, registry: &Registry, package: &Ident) -> Result<Vec<Rule>, AllocError>
        ensures { IfOk result (λ rules. rules.items ≡ expansion self.now registry.now «package».now) }
    {
        let alloc = *self.lines.allocator();
        let labels = PackageLabels::of(alloc, package, registry.author_of(package))?;
        let processes = process_labels(alloc, registry.installs_of(package))?;
        let mut rules = Vec::with_capacity(alloc, self.lines.len())?;
        for line in &self.lines {
            append_rules(&mut rules, &labels, &processes, line)?;
        }
        Ok(rules)
    }
}

/// The refusal of a text, or its first wrong line where memory was wanting before that was met. Takes no memory.
fn before_memory(refusal: TemplateRefusal, text: &[u8]) -> TemplateRefusal
    requires { RefusesFreely refusal (template_of text.now) }
    ensures { RefusesAs result (template_of text.now) }
{
    match refusal {
        TemplateRefusal::Memory(_) => match fault_of(text) {
            Some(fault) => fault,
            None => refusal,
        },
        fault => fault,
    }
}

/// The first wrong line of a text. Takes no memory.
fn fault_of(text: &[u8]) -> Option<TemplateRefusal>
    ensures { MatchOption result (IsOk (template_of text.now)) (λ fault. template_of text.now ≡ Err fault) }
{
    let mut rest = text;
    let mut number = 0u32;
    while let Some((line, after)) = split_line(rest) {
        number += 1;
        if let Err(fault) = test_line(line, number) {
            return Some(fault);
        }
        rest = after;
    }
    None
}

/// Tests the line that has this number. Takes no memory.
fn test_line(line: &[u8], number: u32) -> Result<Parts<'_>, TemplateRefusal>
    ensures words { IfOk result (λ parts.
        line_of line.now ≡ line_with (word_of parts.subject.now) (word_of parts.object.now) (Some parts.change)) }
    ensures within { OnOk result (number ≤ most_template_lines) }
    // Whatever lines come later.
    ensures refused { IfErr result (λ refusal. (later : Result (List TemplateLine) TemplateRefusal)
        → with_line number (line_of line.now) later ≡ Err refusal) }
{
    match parts_of(line) {
        Ok(parts) => {
            if number > LINE_LIMIT {
                return Err(TemplateRefusal::TooMany(number));
            }
            Ok(parts)
        }
        Err(LineFault::Form) => Err(TemplateRefusal::BadLine(number)),
        Err(LineFault::UnknownPlaceholder) => Err(TemplateRefusal::BadPlaceholder(number)),
    }
}
