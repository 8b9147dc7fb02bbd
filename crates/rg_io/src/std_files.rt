//! The trusted edge to the files of the system (docs/architecture.md).

ghost use Rattle.std.specs.Prelude.{◌≡◌, ◌≤◌, ◌<◌, ◌++◌, ◌∷◌, [], length, take};
ghost use Rattle.std.specs.Prelude.{IfOk, OnOk, OnErr};
ghost use Rattle.rg_io.specs.Content.{Rose, one_more};
ghost use Rattle.rg_io.specs.Files.{Begins, Reads, NothingLeft};
ghost use Rattle.rg_io.specs.Untold.{untold_files};

use crate::begun::Begun;
use crate::calls::count_fault;
use crate::failed::Failed;
use crate::files::Files;
use crate::pieces::read_piece;
use std::fs::File;
use std::io::Read;
use std::marker::Model;
use std::rt::Files as SystemFiles;

/// The files of the system. They tell nothing of their content; contracts see the count of faults
/// and the names that were begun.
/// A file is closed at its end: where standard input was closed before the start, the file has its
/// descriptor, and must not be read as the input.
#[derive(Drop)]
pub struct StdFiles<R: SystemFiles> {
    system: R,
    file: Option<R::File>,
    faults: u64,
    begun: Begun,
}

impl<R: SystemFiles> Model for StdFiles<R> {
    ghost use Rattle.rg_io.specs.Untold.{SystemFiles as Seen};

    ghost Value = { Seen };

    ghost view = { λ s. record { faults = s.faults; begun = s.begun.names } };
}

impl<R: SystemFiles> StdFiles<R> {
    /// No file is begun.
    pub fn new(system: R) -> StdFiles<R>
        ensures { result ≡ record { faults = 0; begun = [] } }
    {
        StdFiles {
            system,
            file: None,
            faults: 0,
            begun: Begun::new(),
        }
    }
}

// Reads on in the file that was begun, and closes it at its end.
fn read_on<F: Read + Drop>(file: &mut Option<F>, buf: &mut [u8]) -> Result<usize, Failed>
    requires { 0 < length buf.old }
    ensures within { IfOk result (λ n. n ≤ length buf.new) }
    ensures buffer_kept { OnErr result (buf.new ≡ buf.old) }
{
    let Some(open) = file else {
        return Ok(0);
    };
    let n = read_piece(open, buf)?;
    if n == 0 {
        *file = None;
    }
    Ok(n)
}

impl<R: SystemFiles> Files for StdFiles<R> {
    ghost faults = { λ s. s.faults };

    ghost begun = { λ s. s.begun };

    ghost told = { untold_files };

    fn begin(&mut self, name: &str) -> Result<(), Failed>
        ensures begun { OnOk result (
            Begins (untold_files self.old) name.now (untold_files self.new)) }
        ensures named { self.new.begun ≡ self.old.begun ++ name.now ∷ [] }
        ensures failed { OnErr result (Rose self.old.faults self.new.faults) }
        ensures kept { OnErr result (untold_files self.new ≡ untold_files self.old) }
        ensures never_falls { self.old.faults ≤ self.new.faults }

        ensures same { OnOk result (self.new.faults ≡ self.old.faults) }
        ensures counted { OnErr result (self.new.faults ≡ one_more self.old.faults) }
    {
        self.begun = self.begun.and(name.as_bytes());
        match File::open(&self.system, name) {
            Ok(file) => {
                self.file = Some(file);
                Ok(())
            }
            Err(_) => Err(count_fault(&mut self.faults)),
        }
    }

    fn read(&mut self, buf: &mut [u8]) -> Result<usize, Failed>
        requires { 0 < length buf.old }
        ensures within { IfOk result (λ n. n ≤ length buf.new) }
        ensures read { IfOk result (λ n.
            Reads (untold_files self.old) (untold_files self.new) (take n buf.new)) }
        ensures end { IfOk result (λ n. n ≡ 0 → NothingLeft (untold_files self.old)) }
        ensures begins_none { self.new.begun ≡ self.old.begun }
        ensures failed { OnErr result (Rose self.old.faults self.new.faults) }
        ensures kept { OnErr result (untold_files self.new ≡ untold_files self.old) }
        ensures buffer_kept { OnErr result (buf.new ≡ buf.old) }
        ensures never_falls { self.old.faults ≤ self.new.faults }

        ensures same { OnOk result (self.new ≡ self.old) }
        ensures counted { OnErr result (self.new ≡
            record self.old { faults = one_more self.old.faults }) }
    {
        match read_on(&mut self.file, buf) {
            Ok(n) => Ok(n),
            Err(_) => Err(count_fault(&mut self.faults)),
        }
    }
}
