// The lines of the generated script, without their newlines.
ghost use Rattle.std.specs.Prelude.{◌≡◌, ◌++◌, OnOk};
ghost use Rattle.sample_runs.specs.Lines.{numbered, install_line, deny_line, check_line};

use desk_ports::Bytes;
use itoa::Buffer;
use std::alloc::AllocError;

/// Replaces the bytes by the line that installs the application with this number.
#[tactic(auto, unfolding(crate::specs::Lines::install_line))]
pub fn put_install(app: u32, line: &mut Bytes) -> Result<(), AllocError>
    ensures { OnOk result (line.new ≡ install_line app) }
{
    line.clear();
    put(b"install pkg", app / 2, line)?;
    put(b" - app", app, line)?;
    put(b" * p", app % 7, line)?;
    put(b" q", app % 5, line)
}

/// Replaces the bytes by the line that denies the guest the application's first privilege.
#[tactic(auto, unfolding(crate::specs::Lines::deny_line))]
pub fn put_deny(app: u32, line: &mut Bytes) -> Result<(), AllocError>
    ensures { OnOk result (line.new ≡ deny_line app) }
{
    line.clear();
    put(b"set ADMIN User::Pkg::pkg", app / 2, line)?;
    put(b" 5004 p", app % 7, line)?;
    line.append(b" deny")
}

/// Replaces the bytes by the line that asks for the application's first privilege and this user.
#[tactic(auto, unfolding(crate::specs::Lines::check_line))]
pub fn put_check(app: u32, user: u32, line: &mut Bytes) -> Result<(), AllocError>
    ensures { OnOk result (line.new ≡ check_line app user) }
{
    line.clear();
    put(b"check User::Pkg::pkg", app / 2, line)?;
    put(b" ", user, line)?;
    put(b" p", app % 7, line)
}

// Appends a text, and behind it a number in decimal.
fn put(text: &[u8], number: u32, line: &mut Bytes) -> Result<(), AllocError>
    ensures { OnOk result (line.new ≡ line.old ++ numbered text.now number) }
{
    line.append(text)?;
    line.append(Buffer::new().format(number).as_bytes())
}
