//! The edge of the program: files of the system, and readers and writers that fail.
ghost use Rattle.std.specs.Prelude.{◌<◌, ◌-◌, ◌^◌};

use spv_base::{Files, FromRead, RealFiles, Sink, Source, ToWrite};
use std::io::{self, Read, Write};
use std::{fs, rt};

/// Says what reading a file of a line `NAME LIMIT` gives.
fn report_file<R: rt::Files + Print + AllocGlobal>(
    rt: &R,
    files: &mut RealFiles<R>,
    line: &str,
) -> io::Result<()>
    requires { files.old.faults < 2 ^ 64 - 1 }
{
    print!(rt; "{line}: ")?;
    let (name, limit) = line.split_once(' ').unwrap_or((line, ""));
    match files.read_all(rt.alloc(), name, limit.parse().unwrap_or(0)) {
        Ok(bytes) => io::writer(rt).write_all(&bytes)?,
        Err(error) => print!(rt; "{error}")?,
    }
    let (taken, faults) = (files.taken(), files.faults());
    println!(rt;
        ", taken {taken}, faults {faults} [{}]",
        files.failed_name()
    )
}

/// Says what reading files of the system gives, one after the other.
pub fn report_files<R: rt::Files + Print + AllocGlobal>(rt: &R) -> io::Result<()> {
    println!(rt; "files")?;
    let lines = fs::read_to_string(rt, "files")?;
    let mut files = RealFiles::new(rt.alloc(), rt);
    for line in lines.lines() {
        if files.faults() < u64::MAX {
            report_file(rt, &mut files, line)?;
        }
    }
    Ok(())
}

/// Gives the byte 7 at a call, and fails at every second one.
#[derive(Drop)]
struct Sevens {
    calls: u8,
}

impl Read for Sevens {
    fn read(&mut self, buf: &mut [u8]) -> io::Result<usize> {
        self.calls = self.calls.wrapping_add(1);
        if self.calls % 2 == 0 {
            return Err(io::ErrorKind::Other.into());
        }
        let count = buf.len().min(1);
        buf[..count].fill(7);
        Ok(count)
    }
}

/// Says what a reader gives that fails at every second call.
pub fn report_reads<R: Print>(rt: &R) -> io::Result<()> {
    println!(rt; "reads")?;
    let mut input = FromRead::new(Sevens { calls: 0 });
    let mut buf = [0; 2];
    for _call in 0..4 {
        if input.faults() < u64::MAX {
            match input.read(&mut buf) {
                Ok(count) => print!(rt; "{count} of {} {}", buf[0], buf[1])?,
                Err(_) => print!(rt; "failed")?,
            }
            println!(rt; ", faults {}", input.faults())?;
        }
    }
    Ok(())
}

/// Takes two bytes at a call, and nothing once it has four; it fails at a piece that begins with a zero.
#[derive(Drop)]
struct Four<'a> {
    bytes: &'a mut Vec<u8>,
}

impl Write for Four<'_> {
    fn write(&mut self, buf: &[u8]) -> io::Result<usize> {
        if buf.first() == Some(&b'0') {
            return Err(io::ErrorKind::Other.into());
        }
        let room = 4usize.saturating_sub(self.bytes.len());
        let count = buf.len().min(room).min(2);
        self.bytes.extend_from_slice(&buf[..count])?;
        Ok(count)
    }

    fn flush(&mut self) -> io::Result<()> {
        Ok(())
    }
}

/// Says what a writer takes of each piece.
fn report_pieces<R: Print>(rt: &R, bytes: &mut Vec<u8>) -> io::Result<()> {
    let mut out = ToWrite::new(Four { bytes });
    for piece in ["", "01", "12345", "345", "5"] {
        if out.faults() < u64::MAX {
            match out.write(piece.as_bytes()) {
                Ok(count) => print!(rt; "{count} of [{piece}]")?,
                Err(_) => print!(rt; "failed at [{piece}]")?,
            }
            println!(rt; ", faults {}", out.faults())?;
        }
    }
    Ok(())
}

/// Says what a writer takes that has room for four bytes.
pub fn report_writes<R: Print + AllocGlobal>(rt: &R) -> io::Result<()> {
    println!(rt; "writes")?;
    let mut bytes = Vec::new(rt.alloc());
    report_pieces(rt, &mut bytes)?;
    io::writer(rt).write_all(&bytes)?;
    println!(rt; "")
}
