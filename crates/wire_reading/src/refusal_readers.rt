// The refusal of a command, read from the front of what is left of a frame.
ghost use Rattle.std.specs.Prelude.{◌≡◌};
ghost use Rattle.wire_fields.specs.Left.{Gives};
ghost use Rattle.wire_fields.specs.Format.{made};
ghost use Rattle.wire_fields.specs.Refused.{no_text, zero_value, value_below, yes_value, which, counted_of, read_rule};
ghost use Rattle.wire_fields.specs.Refused.{refused, plain};

use cynara_keys::{Counted, Kind};
use desk_state::Refusal;
use std::alloc::Global;
use wire_fields::readers::{author, bucket, ident};
use wire_fields::{Fields, Rule, WireRefusal};

/// Reads the rule that a command broke: its number, and what that rule speaks of.
pub fn refusal(alloc: Global, fields: &mut Fields) -> Result<Refusal, WireRefusal>
    ensures { Gives result fields.new (refused.read fields.old) }
{
    let place = fields.place();
    let number = fields.number1()?;
    match Rule::of(number) {
        Some(rule) => refusal_by(alloc, rule, fields),
        None => Err(WireRefusal::BadField(place)),
    }
}

// the text and the value of a refusal by the rule
fn refusal_by(alloc: Global, rule: Rule, fields: &mut Fields) -> Result<Refusal, WireRefusal>
    ensures { Gives result fields.new (read_rule rule fields.old) }
{
    match rule {
        Rule::Reserved => reserved(alloc, fields),
        Rule::LayoutThere => layout_there(fields),
        Rule::NoLayout => no_layout(fields),
        Rule::NoBucket => no_bucket(alloc, fields),
        Rule::RootBucket => root_bucket(fields),
        Rule::BadKind => bad_kind(fields),
        Rule::UnknownUser => unknown_user(fields),
        Rule::OtherPackage => other_package(alloc, fields),
        Rule::OtherAuthor => other_author(alloc, fields),
        Rule::OtherHybrid => other_hybrid(fields),
        Rule::NotInstalled => not_installed(fields),
        Rule::Limit => limit(fields),
        Rule::Cycle => cycle(alloc, fields),
    }
}

fn reserved(alloc: Global, fields: &mut Fields) -> Result<Refusal, WireRefusal>
    ensures { Gives result fields.new (read_rule Rule.Reserved fields.old) }
{
    let name = bucket(alloc, fields)?;
    zero(fields)?;
    Ok(Refusal::Reserved(name))
}

fn layout_there(fields: &mut Fields) -> Result<Refusal, WireRefusal>
    ensures { Gives result fields.new (read_rule Rule.LayoutThere fields.old) }
{
    nothing_more(fields)?;
    Ok(Refusal::LayoutThere)
}

fn no_layout(fields: &mut Fields) -> Result<Refusal, WireRefusal>
    ensures { Gives result fields.new (read_rule Rule.NoLayout fields.old) }
{
    nothing_more(fields)?;
    Ok(Refusal::NoLayout)
}

fn no_bucket(alloc: Global, fields: &mut Fields) -> Result<Refusal, WireRefusal>
    ensures { Gives result fields.new (read_rule Rule.NoBucket fields.old) }
{
    let name = bucket(alloc, fields)?;
    zero(fields)?;
    Ok(Refusal::NoBucket(name))
}

fn root_bucket(fields: &mut Fields) -> Result<Refusal, WireRefusal>
    ensures { Gives result fields.new (read_rule Rule.RootBucket fields.old) }
{
    nothing_more(fields)?;
    Ok(Refusal::RootBucket)
}

fn bad_kind(fields: &mut Fields) -> Result<Refusal, WireRefusal>
    ensures { Gives result fields.new (read_rule Rule.BadKind fields.old) }
{
    empty(fields)?;
    Ok(Refusal::BadKind(Kind(kind_value(fields)?)))
}

fn unknown_user(fields: &mut Fields) -> Result<Refusal, WireRefusal>
    ensures { Gives result fields.new (read_rule Rule.UnknownUser fields.old) }
{
    empty(fields)?;
    Ok(Refusal::UnknownUser(uid_value(fields)?))
}

fn other_package(alloc: Global, fields: &mut Fields) -> Result<Refusal, WireRefusal>
    ensures { Gives result fields.new (read_rule Rule.OtherPackage fields.old) }
{
    let name = ident(alloc, fields)?;
    zero(fields)?;
    Ok(Refusal::OtherPackage(name))
}

fn other_author(alloc: Global, fields: &mut Fields) -> Result<Refusal, WireRefusal>
    ensures { Gives result fields.new (read_rule Rule.OtherAuthor fields.old) }
{
    let name = author(alloc, fields)?;
    zero(fields)?;
    Ok(Refusal::OtherAuthor(name))
}

fn other_hybrid(fields: &mut Fields) -> Result<Refusal, WireRefusal>
    ensures { Gives result fields.new (read_rule Rule.OtherHybrid fields.old) }
{
    empty(fields)?;
    Ok(Refusal::OtherHybrid(yes_value(fields)?))
}

fn not_installed(fields: &mut Fields) -> Result<Refusal, WireRefusal>
    ensures { Gives result fields.new (read_rule Rule.NotInstalled fields.old) }
{
    nothing_more(fields)?;
    Ok(Refusal::NotInstalled)
}

fn limit(fields: &mut Fields) -> Result<Refusal, WireRefusal>
    ensures { Gives result fields.new (read_rule Rule.Limit fields.old) }
{
    let counted = counted(fields)?;
    Ok(Refusal::Limit(counted, fields.number8()?))
}

fn cycle(alloc: Global, fields: &mut Fields) -> Result<Refusal, WireRefusal>
    ensures { Gives result fields.new (read_rule Rule.Cycle fields.old) }
{
    let name = bucket(alloc, fields)?;
    zero(fields)?;
    Ok(Refusal::Cycle(name))
}

// an empty text and a value of 0
fn nothing_more(fields: &mut Fields) -> Result<(), WireRefusal>
    ensures { Gives result fields.new (made (λ x. tt) plain fields.old) }
{
    empty(fields)?;
    zero(fields)
}

fn empty(fields: &mut Fields) -> Result<(), WireRefusal>
    ensures { Gives result fields.new (made (λ x. tt) no_text fields.old) }
{
    let place = fields.place();
    let text = fields.text()?;
    if !text.is_empty() {
        return Err(WireRefusal::BadField(place));
    }
    Ok(())
}

fn zero(fields: &mut Fields) -> Result<(), WireRefusal>
    ensures { Gives result fields.new (made (λ x. tt) zero_value fields.old) }
{
    let place = fields.place();
    if fields.number8()? != 0 {
        return Err(WireRefusal::BadField(place));
    }
    Ok(())
}

fn kind_value(fields: &mut Fields) -> Result<u16, WireRefusal>
    ensures { Gives result fields.new ((value_below 65536).read fields.old) }
{
    let place = fields.place();
    let value = fields.number8()?;
    if value >= 65536 {
        return Err(WireRefusal::BadField(place));
    }
    Ok(value as u16)
}

fn uid_value(fields: &mut Fields) -> Result<u32, WireRefusal>
    ensures { Gives result fields.new ((value_below 4294967296).read fields.old) }
{
    let place = fields.place();
    let value = fields.number8()?;
    if value >= 4_294_967_296 {
        return Err(WireRefusal::BadField(place));
    }
    Ok(value as u32)
}

// 1 for yes, 0 for no
fn yes_value(fields: &mut Fields) -> Result<bool, WireRefusal>
    ensures { Gives result fields.new (yes_value.read fields.old) }
{
    let place = fields.place();
    match fields.number8()? {
        0 => Ok(false),
        1 => Ok(true),
        _ => Err(WireRefusal::BadField(place)),
    }
}

// the word of what a limit counts
fn counted(fields: &mut Fields) -> Result<Counted, WireRefusal>
    ensures { Gives result fields.new (which.read fields.old) }
{
    let place = fields.place();
    let text = fields.text()?;
    match counted_of(text) {
        Some(counted) => Ok(counted),
        None => Err(WireRefusal::BadField(place)),
    }
}

fn counted_of(text: &[u8]) -> Option<Counted>
    ensures { result ≡ counted_of text.now }
{
    if text == b"commits".as_slice() {
        Some(Counted::Commits)
    } else if text == b"users".as_slice() {
        Some(Counted::Users)
    } else if text == b"packages".as_slice() {
        Some(Counted::Packages)
    } else if text == b"installs".as_slice() {
        Some(Counted::Installs)
    } else if text == b"grants".as_slice() {
        Some(Counted::Grants)
    } else if text == b"buckets".as_slice() {
        Some(Counted::Buckets)
    } else if text == b"policies".as_slice() {
        Some(Counted::Policies)
    } else {
        None
    }
}
