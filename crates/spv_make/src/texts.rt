//! The setup and the commands.
ghost use Rattle.std.specs.Prelude.{◌≡◌, ◌≤◌, IfOk};
ghost use Rattle.spv_make.specs.Inputs.{rounds_for, setup_for, commands_for};

use spv_base::{NoMemory, Text};
use std::alloc::Global;

/// How many invocations the workgroup has.
const INVOCATIONS: u32 = 64;

/// How many events each invocation has.
fn rounds_for(n: u32) -> u32
    requires { n ≤ 64 }
    ensures { result ≡ rounds_for n }
{
    9 + 56 * n
}

/// The text of the setup.
pub fn setup_for(alloc: Global, n: u32) -> Result<Text, NoMemory>
    requires { n ≤ 64 }
    ensures { IfOk result (λ text. text ≡ setup_for n) }
{
    let rounds = rounds_for(n);
    let text = format!(in alloc; "spvdbg-setup 1\nbuffer 0 0 zero 256\nrounds {rounds}\n")?;
    Ok(Text::from_vec(text.into_bytes()))
}

/// The text of the commands.
pub fn commands_for(alloc: Global, n: u32) -> Result<Text, NoMemory>
    requires { n ≤ 64 }
    ensures { IfOk result (λ text. text ≡ commands_for n) }
{
    let stops = "continue\n".repeat(alloc, n as usize)?;
    let end = INVOCATIONS * rounds_for(n);
    let text = format!(in alloc;
        "info\nbreak 4\n{stops}print acc\ngoto {end}\nrcontinue\nprint acc\nback 1024\nprint acc\ngoto 0\nquit\n"
    )?;
    Ok(Text::from_vec(text.into_bytes()))
}
