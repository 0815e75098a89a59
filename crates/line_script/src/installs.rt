//! The lines that install, behind their first word.

ghost use Rattle.std.specs.Prelude.{◌≡◌, Some, MatchResult, IfOk};
ghost use Rattle.line_script.specs.Grammar.{install_at, names_at};
ghost use Rattle.script_words.specs.WordForms.{name_at};
ghost use Rattle.line_script.specs.Turn.{AsksRequest};
ghost use Rattle.script_words.specs.Reading.{Gives, Refuses};

use crate::steps::Step;
use app_registry::{Install, NameSet};
use cynara_keys::{Name, NameRefusal};
use desk_state::Command;
use script_words::{LineRefusal, Words, author_word, ident_word, scope_word};
use std::alloc::{AllocError, Global};

/// `install PACKAGE AUTHOR APP SCOPE` and any number of privileges, or the same behind `hybrid`, into a hybrid package.
#[tactic(auto, unfolding(crate::specs::Grammar::install_at))]
#[inline(never)]
pub(crate) fn install_line<'a>(
    alloc: Global,
    words: &mut Words<'a>,
    hybrid: bool,
) -> Result<Step<'a>, LineRefusal>
    ensures step { Gives result (install_at hybrid words.old) }
    ensures asked { IfOk result AsksRequest }
{
    let package = ident_word(alloc, words)?;
    let author = author_word(alloc, words)?;
    let app = ident_word(alloc, words)?;
    let scope = scope_word(words)?;
    let privileges = name_words(alloc, words)?;
    let privileges = NameSet::of(privileges).map_err(LineRefusal::Memory)?;
    let install = Install {
        package,
        author,
        app,
        scope,
        privileges,
        hybrid,
    };
    Step::of_command(alloc, Command::Install { install })
}

/// The names that are left on the line.
fn name_words(alloc: Global, words: &mut Words) -> Result<Vec<Name>, LineRefusal>
    ensures { MatchResult result
        (λ names. names_at words.old ≡ Some names.items)
        (λ refusal. Refuses refusal (names_at words.old)) }
{
    let mut names = Vec::new(alloc);
    while let Some(text) = words.next() {
        match read_name(alloc, text) {
            Ok(name) => names
                .push(name)
                .map_err(AllocError::from)
                .map_err(LineRefusal::Memory)?,
            Err(refusal) => return Err(refusal),
        }
    }
    Ok(names)
}

fn read_name(alloc: Global, text: &[u8]) -> Result<Name, LineRefusal>
    ensures { Gives result (name_at text.now) }
{
    match Name::read(alloc, text) {
        Ok(name) => Ok(name),
        Err(NameRefusal::Memory(error)) => Err(LineRefusal::Memory(error)),
        Err(_) => Err(LineRefusal::Syntax),
    }
}
