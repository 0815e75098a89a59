// A script that is sent to a service, line by line.
ghost use Rattle.std.specs.Prelude.{◌≡◌};
ghost use Rattle.line_script.specs.Block.{outside};
ghost use Rattle.script_words.specs.declared.places.Place.TheVariants.{Admin};
ghost use Rattle.admin_runs.specs.AdminRun as words;

use crate::reply_lines::put_replies;
use crate::step_messages::message_of_step;
use admin_client::{AdminLink, AdminRefusal};
use desk_ports::{Bytes, Failed, Sink, Source, write_all};
use line_script::{LineRefusal, Place, Reader, Step};
use link_ports::Dial;
use run_endings::{Ending, note_text};
use script_notes::note_refusal;
use script_replies::{note_script_line, read_next_line};
use std::alloc::Global;
use text_lines::LineReader;
use wire_messages::Message;

/// Where the reading of a script stands, and room for an answer.
#[derive(Drop)]
pub(crate) struct AdminScript {
    alloc: Global,
    pub reader: Reader,
    answer: Bytes,
}

impl AdminScript {
    ghost use Rattle.admin_client.specs.Sending.{with_dial};
    ghost use Rattle.run_endings.specs.Outside.{sink_seen};
    ghost use Rattle.text_lines.specs.LineReader.{EndsReading};
    ghost use Rattle.script_replies.specs.NextLine.{counts_source};
    ghost use Rattle.admin_runs.specs.ReplyLine.{replies_text};
    ghost use Rattle.admin_runs.specs.parts.Talk.{Talks, WritesText, SendsMessage, SendsStep};
    ghost use Rattle.admin_runs.specs.parts.Line.{SendsLine, Turns};

    /// A script before its first line. Takes no memory.
    pub(crate) fn new(alloc: Global) -> AdminScript
        ensures { result.reader ≡ outside Admin }
    {
        AdminScript {
            alloc,
            reader: Reader::new(alloc, Place::Admin),
            answer: Bytes::new(alloc),
        }
    }

    /// Reads the next line, if one is left, sends what it asks for, and writes the answer.
    pub(crate) fn send_next<S: Source, K: Sink, N: Dial>(
        &mut self,
        lines: &mut LineReader,
        link: &mut AdminLink<N>,
        source: &mut S,
        sink: &mut K,
        dial: &mut N,
    ) -> Result<bool, Ending>
        ensures turn { Turns (Talks N.Link.faults N.Link.marks N.Link.traffic N.faults N.dials N.given_back
            (with_dial dial.old link.old) (with_dial dial.new link.new)
            (sink_seen K.taken K.faults sink.old) (sink_seen K.taken K.faults sink.new))
            self.old.reader self.new.reader (S.left source.old) (S.left source.new) lines.old lines.new result }
        ensures ended { EndsReading (S.left source.old) (S.left source.new) lines.old lines.new }
        ensures source { S.faults source.new ≡ counts_source result (S.faults source.old) }
    {
        match read_next_line(self.alloc, lines, source, sink) {
            Ok(true) => match self.send_line(lines.line(), lines.number(), link, sink, dial) {
                Ok(()) => Ok(true),
                Err(ending) => Err(ending),
            },
            Ok(false) => Ok(false),
            Err(ending) => Err(ending),
        }
    }

    // Sends what the line with this number asks for.
    fn send_line<K: Sink, N: Dial>(
        &mut self,
        line: &[u8],
        number: u32,
        link: &mut AdminLink<N>,
        sink: &mut K,
        dial: &mut N,
    ) -> Result<(), Ending>
        ensures { SendsLine (Talks N.Link.faults N.Link.marks N.Link.traffic N.faults N.dials N.given_back
            (with_dial dial.old link.old) (with_dial dial.new link.new)
            (sink_seen K.taken K.faults sink.old) (sink_seen K.taken K.faults sink.new))
            self.old.reader self.new.reader line.now number result }
    {
        let spot = self.reader.spot();
        match self.reader.line(line) {
            Ok(step) => {
                let sent = self.send_step(&step, number, link, sink, dial);
                // Handed on by value, it is not gone through variant by variant here.
                drop(step);
                sent
            }
            Err(LineRefusal::Syntax) => {
                note_script_line(self.alloc, number, spot, line, sink);
                Err(Ending::Line(number))
            }
            Err(LineRefusal::Memory(_)) => Err(Ending::Memory),
        }
    }

    // Sends the message of a step of the line with this number, where it has one, and writes the answer.
    fn send_step<K: Sink, N: Dial>(
        &mut self,
        step: &Step<'_>,
        number: u32,
        link: &mut AdminLink<N>,
        sink: &mut K,
        dial: &mut N,
    ) -> Result<(), Ending>
        ensures step { SendsStep (Talks N.Link.faults N.Link.marks N.Link.traffic N.faults N.dials N.given_back
            (with_dial dial.old link.old) (with_dial dial.new link.new)
            (sink_seen K.taken K.faults sink.old) (sink_seen K.taken K.faults sink.new)) step.now result }
        ensures reader { self.new.reader ≡ self.old.reader }
    {
        match message_of_step(self.alloc, step) {
            Ok(Some(message)) => {
                let sent = self.exchange(&message, number, link, sink, dial);
                drop(message);
                sent
            }
            Ok(None) => Ok(()),
            Err(_) => Err(Ending::Memory),
        }
    }

    // Sends the message of the line with this number, and writes what comes back.
    fn exchange<K: Sink, N: Dial>(
        &mut self,
        message: &Message,
        number: u32,
        link: &mut AdminLink<N>,
        sink: &mut K,
        dial: &mut N,
    ) -> Result<(), Ending>
        ensures sent { SendsMessage (Talks N.Link.faults N.Link.marks N.Link.traffic N.faults N.dials N.given_back
            (with_dial dial.old link.old) (with_dial dial.new link.new)
            (sink_seen K.taken K.faults sink.old) (sink_seen K.taken K.faults sink.new)) message.now result }
        ensures reader { self.new.reader ≡ self.old.reader }
    {
        match link.send(dial, message) {
            Ok(replies) => self.write_replies(message, number, &replies, sink),
            Err(refusal) => {
                note_unanswered(self.alloc, number, refusal, sink);
                Err(ending_of(refusal))
            }
        }
    }

    // Writes the replies to the message of the line with this number, and tells which rule it broke.
    fn write_replies<K: Sink>(
        &mut self,
        message: &Message,
        number: u32,
        replies: &[Message],
        sink: &mut K,
    ) -> Result<(), Ending>
        ensures written { WritesText (replies_text message.now replies.now)
            (sink_seen K.taken K.faults sink.old) (sink_seen K.taken K.faults sink.new) result }
        ensures reader { self.new.reader ≡ self.old.reader }
    {
        self.answer.clear();
        match put_replies(message, replies, &mut self.answer) {
            Ok(()) => match write_all(sink, self.answer.as_slice()) {
                Ok(()) => {
                    note_reply(self.alloc, number, replies, sink);
                    Ok(())
                }
                Err(Failed) => Err(Ending::Sink),
            },
            Err(_) => Err(Ending::Memory),
        }
    }
}

// Tells what a person is to know of these replies to the line with this number. One that is refused has one reply.
fn note_reply<K: Sink>(alloc: Global, number: u32, replies: &[Message], sink: &mut K)
    ensures taken { K.taken sink.new ≡ K.taken sink.old }
    ensures count { K.faults sink.new ≡ K.faults sink.old }
{
    match replies.first() {
        Some(Message::Refused { refusal }) => note_refusal(alloc, number, refusal, sink),
        Some(Message::StoreFault) => note_store_fault(alloc, number, sink),
        Some(Message::StoreDamaged { .. }) => note_store_damage(alloc, number, sink),
        _ => {}
    }
}

// Tells that the store of the service failed at the line with this number.
fn note_store_fault<K: Sink>(alloc: Global, number: u32, sink: &mut K)
    ensures taken { K.taken sink.new ≡ K.taken sink.old }
    ensures count { K.faults sink.new ≡ K.faults sink.old }
{
    note_text(
        format!(in alloc;
            "privilege: line {number}: the store of the service failed; whether this command is kept, the next one settles: ask before it is sent again"
        ),
        sink,
    );
}

// Tells that the store of the service was found damaged at the line with this number.
fn note_store_damage<K: Sink>(alloc: Global, number: u32, sink: &mut K)
    ensures taken { K.taken sink.new ≡ K.taken sink.old }
    ensures count { K.faults sink.new ≡ K.faults sink.old }
{
    note_text(
        format!(in alloc;
            "privilege: line {number}: another program damaged the store of the service; docs/use/GUIDE.md, \"Status 8\", says what to do"
        ),
        sink,
    );
}

// Tells why the message of the line with this number has no answer.
fn note_unanswered<K: Sink>(alloc: Global, number: u32, refusal: AdminRefusal, sink: &mut K)
    ensures taken { K.taken sink.new ≡ K.taken sink.old }
    ensures count { K.faults sink.new ≡ K.faults sink.old }
{
    if let AdminRefusal::Memory(_) = refusal {
        return;
    }
    note_text(
        format!(in alloc; "privilege: line {number}: {refusal}"),
        sink,
    );
}

// How a run ends at a message without an answer.
fn ending_of(refusal: AdminRefusal) -> Ending
    ensures { result ≡ words.ending_of refusal }
{
    match refusal {
        AdminRefusal::Unavailable => Ending::Net,
        AdminRefusal::BadReply(_) => Ending::Reply,
        AdminRefusal::TooLong(length) => Ending::TooLong(length),
        AdminRefusal::Memory(_) => Ending::Memory,
    }
}
