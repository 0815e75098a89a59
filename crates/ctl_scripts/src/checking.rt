// A script is tried before it is given out.
ghost use Rattle.std.specs.Prelude.{◌≡◌, IfOk};
ghost use Rattle.ctl_scripts.specs.Export as word;

use crate::scripts::script_of;
use ctl_run::{Ran, RunFault, run_script};
use desk_ports::{Bytes, FileSet, SetFile};
use desk_state::Desk;
use set_text::write;
use std::alloc::{AllocError, Global};

/// Why there is no script of a state.
#[derive(Clone, Copy)]
pub enum ExportRefusal {
    /// The line of this number would be longer than a line of a script may be.
    LongLine(u32),
    /// The script would be longer than one may be.
    LongScript,
    /// The script, run in memory on a device before its first command, leads to another state. This tells of a mistake
    /// of the program.
    Differs,
    Memory(AllocError),
}

/// The script of the state, which was run in memory on a device before its first command, and led to the same files but
/// for `stamp`, which counts the commands.
#[tactic(auto, using(crate::proofs::Making::makes))]
pub fn checked_script(alloc: Global, desk: &Desk) -> Result<Bytes, ExportRefusal>
    ensures { IfOk result (λ script. word.MakesDevice script desk.now) }
{
    let script = match script_of(alloc, desk) {
        Ok(script) => script,
        Err(error) => return Err(ExportRefusal::Memory(error)),
    };
    let fresh = match Desk::fresh(alloc) {
        Ok(fresh) => fresh,
        Err(error) => return Err(ExportRefusal::Memory(error)),
    };
    match run_script(alloc, fresh, script.as_slice()) {
        Ok(ran) => match leads_to(alloc, desk, &ran) {
            Ok(true) => Ok(script),
            Ok(false) => Err(ExportRefusal::Differs),
            Err(error) => Err(ExportRefusal::Memory(error)),
        },
        Err(RunFault::Syntax(line)) => Err(ExportRefusal::LongLine(line)),
        Err(RunFault::TooLong) => Err(ExportRefusal::LongScript),
        Err(RunFault::Memory(error)) => Err(ExportRefusal::Memory(error)),
    }
}

// Whether the run led to the files of the state, but for `stamp`.
fn leads_to(alloc: Global, desk: &Desk, ran: &Ran) -> Result<bool, AllocError>
    ensures { IfOk result (λ same. same ≡ word.are_same (word.files_of desk.now) (word.files_of ran.now.desk)) }
{
    let wanted = write(alloc, desk)?;
    let made = write(alloc, &ran.desk)?;
    Ok(are_same(&wanted, &made))
}

// Whether two sets have the same files but for `stamp`.
fn are_same(one: &FileSet, other: &FileSet) -> bool
    ensures { result ≡ word.are_same one.now other.now }
{
    all_same(one.as_slice(), other.as_slice())
}

fn all_same(one: &[SetFile], other: &[SetFile]) -> bool
    ensures { result ≡ word.are_same one.now other.now }
{
    if one.len() == other.len() {
        return pairs_same(one, other);
    }
    false
}

fn pairs_same(one: &[SetFile], other: &[SetFile]) -> bool
    ensures { result ≡ word.pairs_same one.now other.now }
{
    one.iter().zip(other).all(|pair| is_same(pair.0, pair.1))
}

fn is_same(one: &SetFile, other: &SetFile) -> bool
    ensures { result ≡ word.is_same one.now other.now }
{
    one.name == other.name && (is_stamp(one) || one.bytes.as_slice() == other.bytes.as_slice())
}

fn is_stamp(file: &SetFile) -> bool
    ensures { result ≡ word.is_stamp file.now }
{
    file.name.as_slice() == b"stamp".as_slice()
}
