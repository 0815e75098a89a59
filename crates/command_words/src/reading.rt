// Reading the words of the command line.
ghost use Rattle.std.specs.Prelude.{◌≡◌, None, Some, true, IfOk, option_map};
ghost use Rattle.std.specs.List.{list_any, position};
ghost use Rattle.std.specs.String.{string_bytes};
ghost use Rattle.cynara_keys.specs.Name.{name_fault};
ghost use Rattle.smack_rules.specs.Label.{label_fault};
ghost use Rattle.command_words.specs.Commands.{is_option, command_of};
ghost use Rattle.command_words.specs.Commands.{serve_of, watch_of, sample_of, allowed_of};
ghost use Rattle.command_words.specs.Commands.{agent_of, access_of, names_of};
ghost use Rattle.command_words.specs.Commands.{ReadsCommand, IsUnknown, KeepsBounds};
ghost use Rattle.command_words.specs.Faults.{NamesFault, first_wrong, number_wrong};
ghost use Rattle.command_words.specs.Faults.{agent_wrong, access_wrong, names_wrong};
ghost use Rattle.command_words.specs.parts.Names.{ReadsNames};
ghost use Rattle.command_words.specs.parts.Lines.{command_in, wrong_in};
ghost use Rattle.command_words.specs.declared.commands.Command.TheVariants.{Check, Simple};
ghost use Rattle.command_words.specs.declared.word_faults.WordFault.TheVariants as fault;

use crate::commands::{AskedNames, Command, CommandRefusal};
use crate::numbers::number_within;
use crate::word_faults::WordFault;
use cynara_keys::{Kind, Name, NameRefusal, name_fault};
use smack_rules::{Label, Modes, label_fault};
use std::alloc::{AllocError, Global};
use word_line::{Line, LineRefusal, read_line};

impl Command {
    /// Reads the words behind the program's name. `Unknown` exactly where they name no command, with the first fault in
    /// this order: a word begins with `-`, they are the words of no line, a word is no number, label, modes, name or
    /// answer in its place. `Memory` may come at any words of which none begins with `-`.
    pub fn read(alloc: Global, words: &[String]) -> Result<Command, CommandRefusal>
        ensures command { ReadsCommand result (command_of words.now) }
        ensures option { list_any is_option words.now ≡ true → IsUnknown result }
        ensures bounds { IfOk result KeepsBounds }
        ensures fault { NamesFault result (first_wrong words.now) }
    {
        if let Some(place) = first_option(words) {
            return Err(CommandRefusal::Unknown(WordFault::Dash { place }));
        }
        match read_line(alloc, words) {
            Ok(line) => read_values(alloc, &line),
            Err(LineRefusal::NoLine) => Err(CommandRefusal::Unknown(WordFault::NoLine)),
            Err(LineRefusal::Memory(error)) => Err(CommandRefusal::Memory(error)),
        }
    }
}

// The command of a line, whose words are read each in its place.
fn read_values(alloc: Global, line: &Line) -> Result<Command, CommandRefusal>
    ensures command { ReadsCommand result (command_in line.now) }
    ensures bounds { IfOk result KeepsBounds }
    ensures fault { NamesFault result (wrong_in line.now) }
{
    match line {
        Line::Local => Ok(Command::Local),
        Line::SmackLoad => Ok(Command::SmackLoad),
        Line::Admin => Ok(Command::Admin),
        Line::Serve { workers } => read_serve(workers.as_bytes()),
        Line::Watch { workers } => read_watch(workers.as_bytes()),
        Line::Sample { count } => read_sample(count.as_bytes()),
        Line::Agent { kind, answer } => read_agent(kind.as_bytes(), answer.as_bytes()),
        Line::SmackAccess {
            subject,
            object,
            modes,
        } => read_access(
            alloc,
            subject.as_bytes(),
            object.as_bytes(),
            modes.as_bytes(),
        ),
        Line::Check {
            client,
            session,
            user,
            privilege,
        } => read_check(
            alloc,
            client.as_bytes(),
            session.as_bytes(),
            user.as_bytes(),
            privilege.as_bytes(),
        ),
        Line::Simple {
            client,
            session,
            user,
            privilege,
        } => read_simple(
            alloc,
            client.as_bytes(),
            session.as_bytes(),
            user.as_bytes(),
            privilege.as_bytes(),
        ),
    }
}

// The place of the first word that begins with a dash.
fn first_option(words: &[String]) -> Option<usize>
    ensures { result ≡ position is_option words.now }
{
    words.iter().position(|word| is_option(word))
}

fn is_option(word: &String) -> bool
    ensures { result ≡ is_option word.now }
{
    word.as_bytes().first() == Some(&b'-')
}

fn read_serve(workers: &[u8]) -> Result<Command, CommandRefusal>
    ensures command { ReadsCommand result (serve_of workers.now) }
    ensures bounds { IfOk result KeepsBounds }
    ensures fault { NamesFault result (number_wrong 1 64 workers.now) }
{
    match number_within(workers, 1, 64) {
        Some(workers) => Ok(Command::Serve { workers }),
        None => Err(CommandRefusal::Unknown(number_fault(1, 64))),
    }
}

fn read_watch(workers: &[u8]) -> Result<Command, CommandRefusal>
    ensures command { ReadsCommand result (watch_of workers.now) }
    ensures bounds { IfOk result KeepsBounds }
    ensures fault { NamesFault result (number_wrong 1 64 workers.now) }
{
    match number_within(workers, 1, 64) {
        Some(workers) => Ok(Command::Watch { workers }),
        None => Err(CommandRefusal::Unknown(number_fault(1, 64))),
    }
}

fn read_sample(count: &[u8]) -> Result<Command, CommandRefusal>
    ensures command { ReadsCommand result (sample_of count.now) }
    ensures bounds { IfOk result KeepsBounds }
    ensures fault { NamesFault result (number_wrong 1 1000 count.now) }
{
    match number_within(count, 1, 1_000) {
        Some(count) => Ok(Command::Sample { count }),
        None => Err(CommandRefusal::Unknown(number_fault(1, 1_000))),
    }
}

// The second word is no number of this range.
fn number_fault(least: u32, most: u32) -> WordFault
    ensures { result ≡ fault.Number 1 least most }
{
    WordFault::Number {
        place: 1,
        least,
        most,
    }
}

fn read_agent(kind: &[u8], answer: &[u8]) -> Result<Command, CommandRefusal>
    ensures command { ReadsCommand result (agent_of kind.now answer.now) }
    ensures bounds { IfOk result KeepsBounds }
    ensures fault { NamesFault result (agent_wrong kind.now answer.now) }
{
    let Some(kind) = number_within(kind, 2, 65_533) else {
        return Err(CommandRefusal::Unknown(number_fault(2, 65_533)));
    };
    let Some(allowed) = read_answer(answer) else {
        return Err(CommandRefusal::Unknown(WordFault::Answer { place: 2 }));
    };
    Ok(Command::Agent {
        kind: Kind(kind as u16),
        allowed,
    })
}

fn read_answer(answer: &[u8]) -> Option<bool>
    ensures { result ≡ allowed_of answer.now }
{
    if answer == b"allow".as_slice() {
        return Some(true);
    }
    if answer == b"deny".as_slice() {
        return Some(false);
    }
    None
}

// `smack-access`, behind the first word. The words are tested before memory is asked for.
fn read_access(
    alloc: Global,
    subject: &[u8],
    object: &[u8],
    modes: &[u8],
) -> Result<Command, CommandRefusal>
    ensures command { ReadsCommand result (access_of subject.now object.now modes.now) }
    ensures bounds { IfOk result KeepsBounds }
    ensures fault { NamesFault result (access_wrong subject.now object.now modes.now) }
{
    if let Some(fault) = label_fault(subject) {
        return Err(CommandRefusal::Unknown(WordFault::Label { place: 1, fault }));
    }
    if let Some(fault) = label_fault(object) {
        return Err(CommandRefusal::Unknown(WordFault::Label { place: 2, fault }));
    }
    let Some(asked) = Modes::read(modes) else {
        return Err(CommandRefusal::Unknown(WordFault::Modes { place: 3 }));
    };
    if !asked.is_request() {
        return Err(CommandRefusal::Unknown(WordFault::NoRequest { place: 3 }));
    }
    copy_labels(alloc, subject, object, asked).map_err(CommandRefusal::Memory)
}

// The command with its labels copied from the words.
fn copy_labels(
    alloc: Global,
    subject: &[u8],
    object: &[u8],
    asked: Modes,
) -> Result<Command, AllocError>
    requires subject { label_fault subject.now ≡ None }
    requires object { label_fault object.now ≡ None }
    ensures { IfOk result (λ command. command ≡ Command.SmackAccess subject.now object.now asked) }
{
    Ok(Command::SmackAccess {
        subject: Label::of(alloc, subject)?,
        object: Label::of(alloc, object)?,
        asked,
    })
}

fn read_check(
    alloc: Global,
    client: &[u8],
    session: &[u8],
    user: &[u8],
    privilege: &[u8],
) -> Result<Command, CommandRefusal>
    ensures command { ReadsCommand result (option_map Check (names_of client.now session.now user.now privilege.now)) }
    ensures bounds { IfOk result KeepsBounds }
    ensures fault { NamesFault result (names_wrong client.now session.now user.now privilege.now) }
{
    match read_names(alloc, client, session, user, privilege) {
        Ok(asked) => Ok(Command::Check(asked)),
        Err(refusal) => Err(refusal),
    }
}

fn read_simple(
    alloc: Global,
    client: &[u8],
    session: &[u8],
    user: &[u8],
    privilege: &[u8],
) -> Result<Command, CommandRefusal>
    ensures command { ReadsCommand result (option_map Simple (names_of client.now session.now user.now privilege.now)) }
    ensures bounds { IfOk result KeepsBounds }
    ensures fault { NamesFault result (names_wrong client.now session.now user.now privilege.now) }
{
    match read_names(alloc, client, session, user, privilege) {
        Ok(asked) => Ok(Command::Simple(asked)),
        Err(refusal) => Err(refusal),
    }
}

// The names behind the first word. They are tested before memory is asked for.
fn read_names(
    alloc: Global,
    client: &[u8],
    session: &[u8],
    user: &[u8],
    privilege: &[u8],
) -> Result<AskedNames, CommandRefusal>
    ensures names { ReadsNames result (names_of client.now session.now user.now privilege.now) }
    ensures fault { NamesFault result (names_wrong client.now session.now user.now privilege.now) }
{
    if let Some(fault) = name_fault(client) {
        return Err(CommandRefusal::Unknown(WordFault::Name { place: 1, fault }));
    }
    if let Some(fault) = name_fault(session) {
        return Err(CommandRefusal::Unknown(WordFault::Name { place: 2, fault }));
    }
    if let Some(fault) = name_fault(user) {
        return Err(CommandRefusal::Unknown(WordFault::Name { place: 3, fault }));
    }
    if let Some(fault) = name_fault(privilege) {
        return Err(CommandRefusal::Unknown(WordFault::Name { place: 4, fault }));
    }
    copy_names(alloc, client, session, user, privilege).map_err(CommandRefusal::Memory)
}

// The names, copied from the words.
fn copy_names(
    alloc: Global,
    client: &[u8],
    session: &[u8],
    user: &[u8],
    privilege: &[u8],
) -> Result<AskedNames, AllocError>
    requires client { name_fault client.now ≡ None }
    requires session { name_fault session.now ≡ None }
    requires user { name_fault user.now ≡ None }
    requires privilege { name_fault privilege.now ≡ None }
    ensures { IfOk result (λ names. names ≡ record {
      client = client.now;
      session = session.now;
      user = user.now;
      privilege = privilege.now;
    }) }
{
    Ok(AskedNames {
        client: copy_name(alloc, client)?,
        session: copy_name(alloc, session)?,
        user: copy_name(alloc, user)?,
        privilege: copy_name(alloc, privilege)?,
    })
}

// The name with these bytes.
fn copy_name(alloc: Global, bytes: &[u8]) -> Result<Name, AllocError>
    requires { name_fault bytes.now ≡ None }
    ensures { IfOk result (λ name. name ≡ bytes.now) }
{
    match Name::read(alloc, bytes) {
        Ok(name) => Ok(name),
        Err(NameRefusal::Memory(error)) => Err(error),
        Err(_) => unreachable!(),
    }
}
