// The calls of a case.
use crate::answers::answer_text;
use cases_words::Failure;
use cynara_client::Client;
use cynara_keys::{Name, Question};
use link_ports::MemDial;
use std::alloc::{AllocError, Global};

fn name(alloc: Global, letter: u8) -> Result<Name, Failure> {
    Ok(Name::read(alloc, &[letter])?)
}

// The question of a letter: whether the client of that name may use `p` for `u`.
fn question(alloc: Global, letter: u8) -> Result<Question, Failure> {
    let client = name(alloc, letter)?;
    let user = name(alloc, b'u')?;
    let privilege = name(alloc, b'p')?;
    let (client, user, privilege) = (client.as_slice(), user.as_slice(), privilege.as_slice());
    Ok(Question::of(alloc, client, user, privilege)?)
}

fn call(
    alloc: Global,
    client: &mut Client<&mut MemDial>,
    text: &mut String,
    word: &str,
) -> Result<(), Failure> {
    match word.as_bytes() {
        [b't', ..] => tell(client, word),
        [b'c', session, letter] => {
            let session = name(alloc, *session)?;
            let question = question(alloc, *letter)?;
            let answer = client.check(&session, &question);
            put(text, answer_text(alloc, &answer)?)
        }
        [b's', session, letter] => {
            let session = name(alloc, *session)?;
            let question = question(alloc, *letter)?;
            let answer = client.simple_check(&session, &question);
            put(text, answer_text(alloc, &answer)?)
        }
        _ => Err(Failure::Words),
    }
}

fn put(text: &mut String, answer: String) -> Result<(), Failure> {
    text.push_str(answer.as_str())?;
    Ok(text.push(' ')?)
}

fn tell(client: &mut Client<&mut MemDial>, word: &str) -> Result<(), Failure> {
    let Some(number) = word.strip_prefix('t') else {
        return Err(Failure::Words);
    };
    match number.parse::<u64>() {
        Ok(commit) => {
            client.tell(commit);
            Ok(())
        }
        Err(_) => Err(Failure::Words),
    }
}

fn made(alloc: Global, dial: &mut MemDial, entries: u32) -> Result<Client<&mut MemDial>, Failure> {
    if entries == 0 || entries > 4096 {
        return Err(Failure::Words);
    }
    Ok(Client::new(alloc, dial, entries)?)
}

// What each of the calls answers.
fn each_answer(
    alloc: Global,
    client: &mut Client<&mut MemDial>,
    calls: &str,
) -> Result<String, Failure> {
    let mut text = String::new(alloc);
    for word in calls.split(',') {
        call(alloc, client, &mut text, word)?;
    }
    Ok(text)
}

/// What the calls answer.
pub fn answers(
    alloc: Global,
    dial: &mut MemDial,
    entries: u32,
    calls: &str,
) -> Result<String, Failure> {
    let mut client = made(alloc, dial, entries)?;
    let text = each_answer(alloc, &mut client, calls);
    // proof: handed on to be dropped; dropped in place its parts, which hold a borrow, would be taken one by one
    drop(client);
    text
}
