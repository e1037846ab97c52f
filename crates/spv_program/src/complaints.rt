//! What the program says on standard error where it gave up: what failed, with which file, past which limit.
use spv_app::Status;
use spv_app::limits::{BINARY_LIMIT, INPUT_LIMIT, SETUP_LIMIT};
use spv_arguments::{Request, read};
use std::alloc::Global;
use std::fmt;

/// Why the program gave up, by the statuses from 5 to 10.
#[derive(Clone, Copy)]
pub enum Complaint<'a> {
    /// This file can't be read.
    FileFault(&'a str),
    ReadFault,
    WriteFault,
    NoMemory,
    InputTooLong,
    /// This module has too many bytes.
    ModuleTooLong(&'a str),
    /// This setup has too many bytes.
    SetupTooLong(&'a str),
}

impl fmt::Display for Complaint<'_> {
    fn fmt<W: fmt::Write>(&self, f: &mut fmt::Formatter<W>) -> fmt::Result {
        match self {
            Complaint::FileFault(name) => write!(f, "spvdbg: cannot read the file {name}"),
            Complaint::ReadFault => write!(f, "spvdbg: cannot read standard input"),
            Complaint::WriteFault => write!(f, "spvdbg: cannot write standard output"),
            Complaint::NoMemory => write!(f, "spvdbg: out of memory"),
            Complaint::InputTooLong => {
                write!(
                    f,
                    "spvdbg: standard input has more than {INPUT_LIMIT} bytes"
                )
            }
            Complaint::ModuleTooLong(name) => {
                write!(
                    f,
                    "spvdbg: the module {name} has more than {BINARY_LIMIT} bytes"
                )
            }
            Complaint::SetupTooLong(name) => {
                write!(
                    f,
                    "spvdbg: the setup {name} has more than {SETUP_LIMIT} bytes"
                )
            }
        }
    }
}

/// The names of the module and of the setup that the words give; empty where they give none.
pub fn names_in<'a>(alloc: Global, words: &'a [String]) -> (&'a str, &'a str) {
    match read(alloc, words) {
        Ok(Request::Debug { binary, setup }) => (binary, setup),
        Ok(Request::Check { binary }) | Ok(Request::Text { binary }) => (binary, ""),
        _ => ("", ""),
    }
}

/// Why the program gave up with a status; none below 5. The names of the module and of the setup, the name whose reading failed last
/// and the number of bytes that the last reading took say which file it was: a module is read no further than a block past its limit.
pub fn complaint_at<'a>(
    status: Status,
    names: (&'a str, &'a str),
    failed_name: &'a str,
    taken: u64,
) -> Option<Complaint<'a>> {
    match status {
        Status::Done | Status::Usage | Status::ModuleRefused | Status::SetupRefused => None,
        Status::FileFault => Some(Complaint::FileFault(failed_name)),
        Status::ReadFault => Some(Complaint::ReadFault),
        Status::WriteFault => Some(Complaint::WriteFault),
        Status::NoMemory => Some(Complaint::NoMemory),
        Status::InputTooLong => Some(Complaint::InputTooLong),
        Status::FileTooLong if taken > SETUP_LIMIT => { Some(Complaint::SetupTooLong(names.1)) }
        Status::FileTooLong => Some(Complaint::ModuleTooLong(names.0)),
    }
}

#[cfg(test)]
mod tests {
    use super::*;
    use std::test::Fail;

    #[test]
    fn names_what_failed(rt: HostRuntime) -> Result<(), Fail> {
        let alloc = rt.alloc();
        let mut words = Vec::new(alloc);
        for word in ["spvdbg", "debug", "a.spv", "--", "a.setup"] {
            words.push(String::from_str(alloc, word)?)?;
        }
        let names = names_in(alloc, words.as_slice());
        let rows: [(Status, u64, &str); 11] = [
            (Status::Done, 0, ""),
            (Status::Usage, 0, ""),
            (Status::ModuleRefused, 0, ""),
            (Status::SetupRefused, 0, ""),
            (Status::FileFault, 0, "spvdbg: cannot read the file x"),
            (Status::ReadFault, 9, "spvdbg: cannot read standard input"),
            (
                Status::WriteFault,
                9,
                "spvdbg: cannot write standard output",
            ),
            (Status::NoMemory, 9, "spvdbg: out of memory"),
            (
                Status::InputTooLong,
                9,
                "spvdbg: standard input has more than 16777216 bytes",
            ),
            (
                Status::FileTooLong,
                4_198_400,
                "spvdbg: the module a.spv has more than 4194304 bytes",
            ),
            (
                Status::FileTooLong,
                67_108_865,
                "spvdbg: the setup a.setup has more than 67108864 bytes",
            ),
        ];
        for (status, taken, text) in rows {
            let said = match complaint_at(status, names, "x", taken) {
                Some(complaint) => format!(in alloc; "{complaint}")?,
                None => String::new(alloc),
            };
            assert_eq!(rt; said.as_str(), text);
        }
        Ok(())
    }
}
