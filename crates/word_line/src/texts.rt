// What clap tells a person of the words. No clause speaks of these texts.
use crate::grammar::program;
use clap::Command;
use std::alloc::{AllocError, Global};

/// The help of the program: the forms of its command line, and a line on what each command does.
pub fn help_text(alloc: Global) -> Result<String, AllocError> {
    let forms = forms_text(&program(alloc)?, alloc)?;
    let mut command = program(alloc)?.override_usage(forms.as_str());
    command.render_help()
}

/// What is wrong with words that spell no line: the help where there are none, else which places of its command have
/// no word, which word has no place, or that no command has this name, and which names are near; and that `--help`
/// tells more. It is empty where they spell a line. The words stand in it as they are.
pub fn fault_text<'a>(alloc: Global, words: &'a [String]) -> Result<String, AllocError> {
    if words.is_empty() {
        return help_text(alloc);
    }
    let command = program(alloc)?;
    match command.try_get_matches_from(words) {
        Ok(_) => Ok(String::new(alloc)),
        Err(error) => format!(in alloc; "{error}\nFor more information, try '--help'.\n"),
    }
}

/// The form of the command of this name. It is empty where there is none.
pub fn form_text(alloc: Global, name: &str) -> Result<String, AllocError> {
    let mut text = String::new(alloc);
    let top = program(alloc)?;
    if let Some(command) = top.find_subcommand(name) {
        text.push_str("Usage: ")?;
        push_form(&mut text, command)?;
    }
    Ok(text)
}

// The form of each command, a line each, set below one another behind clap's `Usage: `.
fn forms_text(top: &Command<'_>, alloc: Global) -> Result<String, AllocError> {
    let mut text = String::new(alloc);
    for command in top.get_subcommands() {
        if !text.is_empty() {
            text.push_str("\n       ")?;
        }
        push_form(&mut text, command)?;
    }
    Ok(text)
}

// Adds the command's name, and the name of each of its places.
fn push_form(text: &mut String, command: &Command<'_>) -> Result<(), AllocError> {
    let name = command.get_name();
    write!(text, "privilege {name}")?;
    for argument in command.get_arguments() {
        let place = argument.get_id();
        write!(text, " <{place}>")?;
    }
    Ok(())
}
