// The answers to lines on levels and audits.
ghost use Rattle.std.specs.Prelude.{◌≡◌, ◌++◌, true, None, IfOk, OnOk, OnErr};
ghost use Rattle.std.specs.Option.{option_to_list};
ghost use Rattle.cynara_keys.specs.Field.{field_of, field_fault};
ghost use Rattle.line_answers.specs.Answers.{level_answer_text};
ghost use Rattle.line_answers.specs.parts.Appending.{Lengthens};
ghost use Rattle.policy_levels.specs.Levels.{exact_name, levels_in};
ghost use Rattle.script_replies.specs.Levels.{level_refusal_text, names_level_rule, level_row_text, level_rows_text};
ghost use Rattle.script_replies.specs.Levels.{clients_in, privileges_in};
ghost use Rattle.script_replies.specs.Levels.{pair_text, pair_rows_text, audit_among, audit_reply};

use app_registry::NameSet;
use cynara_keys::{Key, Name, NameRefusal};
use desk_ports::Bytes;
use desk_state::{Desk, Refusal};
use effective_audit::{AuditRefusal, Pair, audit};
use line_answers::{LevelAnswer, LineAnswer, RuleBroken, print};
use policy_levels::{LevelRefusal, LevelRow, levels_of};
use std::alloc::{AllocError, Global};

/// Prints the rule that a request for a level breaks. Want of memory is none.
pub fn print_level_refusal(refusal: &LevelRefusal, out: &mut Bytes) -> Result<(), AllocError>
    ensures ok { OnOk result (out.new ≡ out.old ++ level_refusal_text refusal.now) }
    ensures rule { OnOk result (names_level_rule refusal.now ≡ true) }
    ensures err { OnErr result (out.new ≡ out.old) }
{
    match refusal {
        LevelRefusal::NoLayout => print_no_layout(out),
        LevelRefusal::UnknownUser(uid) => print_unknown_user(*uid, out),
        LevelRefusal::NotAdministrator(kind) => {
            print_level(&LevelAnswer::NotAdministrator { kind: *kind }, out)
        }
        LevelRefusal::Memory(error) => Err(*error),
    }
}

fn print_level(answer: &LevelAnswer<'_>, out: &mut Bytes) -> Result<(), AllocError>
    ensures ok { OnOk result (out.new ≡ out.old ++ level_answer_text answer.now) }
    ensures err { OnErr result (out.new ≡ out.old) }
{
    print(&LineAnswer::OfLevels(*answer), out)
}

fn print_no_layout(out: &mut Bytes) -> Result<(), AllocError>
    ensures ok { OnOk result (out.new ≡ out.old ++ level_refusal_text LevelRefusal.NoLayout) }
    ensures err { OnErr result (out.new ≡ out.old) }
{
    let refusal = Refusal::NoLayout;
    let broken = RuleBroken::of(&refusal)?;
    print(&LineAnswer::Refused(broken), out)
}

fn print_unknown_user(uid: u32, out: &mut Bytes) -> Result<(), AllocError>
    ensures ok { OnOk result (out.new ≡ out.old ++ level_refusal_text (LevelRefusal.UnknownUser uid)) }
    ensures err { OnErr result (out.new ≡ out.old) }
{
    let refusal = Refusal::UnknownUser(uid);
    let broken = RuleBroken::of(&refusal)?;
    print(&LineAnswer::Refused(broken), out)
}

/// Prints the levels that the user of this number has set, a line each, and how many they are.
pub fn print_levels(alloc: Global, desk: &Desk, uid: u32, out: &mut Bytes) -> Result<(), AllocError>
    ensures ok { OnOk result (out.new ≡ out.old ++ level_rows_text (levels_in desk.now.database uid)) }
    ensures err { OnErr result (out.new ≡ out.old) }
{
    let rows = levels_of(alloc, desk, uid)?;
    print_level_rows(&rows, out)
}

fn print_level_rows(rows: &[LevelRow], out: &mut Bytes) -> Result<(), AllocError>
    ensures ok { OnOk result (out.new ≡ out.old ++ level_rows_text rows.now) }
    ensures err { OnErr result (out.new ≡ out.old) }
{
    let start = out.len();
    let printed = append_level_rows(rows, out);
    if printed.is_err() {
        out.truncate(start);
    }
    printed
}

fn append_level_rows(rows: &[LevelRow], out: &mut Bytes) -> Result<(), AllocError>
    ensures ok { OnOk result (out.new ≡ out.old ++ level_rows_text rows.now) }
    ensures err { OnErr result (Lengthens out.old out.new) }
{
    for row in rows {
        print_level_row(row, out)?;
    }
    let count = rows.len() as u64;
    print_level(&LevelAnswer::Levels { count }, out)
}

fn print_level_row(row: &LevelRow, out: &mut Bytes) -> Result<(), AllocError>
    ensures ok { OnOk result (out.new ≡ out.old ++ level_row_text row.now) }
    ensures err { OnErr result (out.new ≡ out.old) }
{
    let answer = LevelAnswer::Set {
        client: row.client.as_slice(),
        privilege: row.privilege.as_slice(),
        level: row.level,
    };
    print_level(&answer, out)
}

// ---- audits

/// Prints the pairs of an application and a privilege that are allowed to a user, among those that installs name, a
/// line each, and how many they are; or that there are too many to ask about.
pub fn print_audit(
    alloc: Global,
    desk: &Desk,
    user: &Name,
    out: &mut Bytes,
) -> Result<(), AllocError>
    ensures ok { OnOk result (out.new ≡ out.old ++ audit_reply desk.now user.now) }
    ensures err { OnErr result (out.new ≡ out.old) }
{
    let rows = desk.registry().manifest_rows()?;
    let clients = NameSet::of(clients_in(alloc, &rows)?)?;
    let privileges = NameSet::of(privileges_in(alloc, &rows)?)?;
    print_audit_among(
        alloc,
        desk,
        user,
        clients.as_slice(),
        privileges.as_slice(),
        out,
    )
}

fn print_audit_among(
    alloc: Global,
    desk: &Desk,
    user: &Name,
    clients: &[Name],
    privileges: &[Name],
    out: &mut Bytes,
) -> Result<(), AllocError>
    ensures ok { OnOk result (out.new ≡ out.old ++ audit_among desk.now user.now clients.now privileges.now) }
    ensures err { OnErr result (out.new ≡ out.old) }
{
    match audit(alloc, desk.database(), user, clients, privileges) {
        Ok(pairs) => print_pairs(&pairs, out),
        Err(AuditRefusal::TooMany(product)) => {
            print_level(&LevelAnswer::TooMany { product }, out)
        }
        Err(AuditRefusal::Memory(error)) => Err(error),
    }
}

fn print_pairs(pairs: &[Pair], out: &mut Bytes) -> Result<(), AllocError>
    ensures ok { OnOk result (out.new ≡ out.old ++ pair_rows_text pairs.now) }
    ensures err { OnErr result (out.new ≡ out.old) }
{
    let start = out.len();
    let printed = append_pairs(pairs, out);
    if printed.is_err() {
        out.truncate(start);
    }
    printed
}

fn append_pairs(pairs: &[Pair], out: &mut Bytes) -> Result<(), AllocError>
    ensures ok { OnOk result (out.new ≡ out.old ++ pair_rows_text pairs.now) }
    ensures err { OnErr result (Lengthens out.old out.new) }
{
    for pair in pairs {
        print_pair(pair, out)?;
    }
    let count = pairs.len() as u64;
    print_level(&LevelAnswer::Pairs { count }, out)
}

fn print_pair(pair: &Pair, out: &mut Bytes) -> Result<(), AllocError>
    ensures ok { OnOk result (out.new ≡ out.old ++ pair_text pair.now) }
    ensures err { OnErr result (out.new ≡ out.old) }
{
    let answer = LevelAnswer::Allowed {
        client: pair.client.as_slice(),
        privilege: pair.privilege.as_slice(),
    };
    print_level(&answer, out)
}

// The applications that the keys name, by their labels.
fn clients_in(alloc: Global, keys: &[Key]) -> Result<Vec<Name>, AllocError>
    ensures { IfOk result (λ names. names.items ≡ clients_in keys.now) }
{
    let mut names = Vec::new(alloc);
    for key in keys {
        let name = exact_name(alloc, key.client())?;
        push_name(&mut names, name)?;
    }
    Ok(names)
}

// The privileges that the keys name.
fn privileges_in(alloc: Global, keys: &[Key]) -> Result<Vec<Name>, AllocError>
    ensures { IfOk result (λ names. names.items ≡ privileges_in keys.now) }
{
    let mut names = Vec::new(alloc);
    for key in keys {
        let name = exact_name(alloc, key.privilege())?;
        push_name(&mut names, name)?;
    }
    Ok(names)
}

// Appends the name, if it is one.
fn push_name(names: &mut Vec<Name>, name: Option<Name>) -> Result<(), AllocError>
    ensures { OnOk result (names.new.items ≡ names.old.items ++ option_to_list name) }
{
    let Some(name) = name else {
        return Ok(());
    };
    names.push(name)?;
    Ok(())
}

// The name that the text of a key's field is. `None` for the wildcard.
fn exact_name(alloc: Global, text: &[u8]) -> Result<Option<Name>, AllocError>
    requires { field_fault text.now ≡ None }
    ensures { IfOk result (λ name. name ≡ exact_name (field_of text.now)) }
{
    if text == b"*".as_slice() {
        return Ok(None);
    }
    match Name::read(alloc, text) {
        Ok(name) => Ok(Some(name)),
        Err(NameRefusal::Memory(error)) => Err(error),
        Err(_) => unreachable!(),
    }
}
