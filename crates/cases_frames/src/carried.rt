// A message that is carried as a command or told as a refusal.
use crate::hearing::{decoded, framed_text};
use cases_words::{Failure, put_ok, put_some};
use desk_state::{Command, Refusal};
use std::alloc::{AllocError, Global};
use wire_messages::{Framed, Heard, Message, command_of, message_of, refused_of};

// The one message as text, and no text where there is no message.
fn message_text(alloc: Global, list: &[Message]) -> Result<String, Failure> {
    let [message] = list else {
        return Ok(String::new(alloc));
    };
    Ok(format!(in alloc; "{:?}", message)?)
}

fn put_found<T: Drop>(
    list: &mut Vec<T>,
    value: Result<Option<T>, AllocError>,
) -> Result<(), Failure> {
    match value {
        Ok(value) => put_some(list, value),
        Err(error) => Err(Failure::Memory(error)),
    }
}

// Puts the command of the one message, if it is one.
fn put_command(list: &mut Vec<Command>, framed: &[Framed]) -> Result<(), Failure> {
    let [framed] = framed else {
        return Err(Failure::Refused);
    };
    put_found(list, command_of(&framed.message))
}

// Puts the messages that carry the commands.
fn put_messages(list: &mut Vec<Message>, commands: &[Command]) -> Result<(), Failure> {
    for command in commands {
        put_ok(list, message_of(command))?;
    }
    Ok(())
}

// The message that carries the command of the one message, as text, and no text where it is none.
fn carried(alloc: Global, framed: &[Framed]) -> Result<String, Failure> {
    let mut commands = Vec::new(alloc);
    put_command(&mut commands, framed)?;
    let mut list = Vec::new(alloc);
    put_messages(&mut list, &commands)?;
    message_text(alloc, &list)
}

fn put_refusal(list: &mut Vec<Message>, refusal: &Refusal) -> Result<(), Failure> {
    if let Refusal::Memory(_) = refusal {
        return Err(Failure::Refused);
    }
    put_ok(list, refused_of(refusal))
}

// Puts the message that tells the refusal of the one message, if it tells one.
fn put_told(list: &mut Vec<Message>, framed: &[Framed]) -> Result<(), Failure> {
    let [framed] = framed else {
        return Err(Failure::Refused);
    };
    match &framed.message {
        Message::Refused { refusal } => put_refusal(list, refusal),
        _ => Ok(()),
    }
}

// That message as text, and no text where it is none.
fn told(alloc: Global, framed: &[Framed]) -> Result<String, Failure> {
    let mut list = Vec::new(alloc);
    put_told(&mut list, framed)?;
    message_text(alloc, &list)
}

/// What the message is, by what it is made of again.
pub fn kind_of_message(alloc: Global, heard: Heard, frame: &[u8]) -> Result<&'static str, Failure> {
    let list = decoded(alloc, heard, frame)?;
    let text = framed_text(alloc, &list)?;
    let carried = carried(alloc, &list)?;
    let told = told(alloc, &list)?;
    if carried.as_str() == text.as_str() && told.is_empty() {
        return Ok("a command");
    }
    if told.as_str() == text.as_str() && carried.is_empty() {
        return Ok("a refusal");
    }
    if told.is_empty() && carried.is_empty() {
        return Ok("another message");
    }
    Ok("carried otherwise")
}
