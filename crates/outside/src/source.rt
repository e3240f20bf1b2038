// Where a log's bytes come from.
use std::fs::File;
use std::io::{Read, Result};
use std::rt::{HostRuntime, Stdin};

// Standard input, or a file that was opened by its name.
#[derive(Drop)]
pub enum Source {
    Input(Stdin),
    Opened(File),
}

impl Read for Source {
    fn read(&mut self, buf: &mut [u8]) -> Result<usize> {
        match self {
            Source::Input(input) => input.read(buf),
            Source::Opened(file) => file.read(buf),
        }
    }
}

// The name that this program's descriptor of this number has among the files.
pub(crate) fn descriptor_path(rt: &HostRuntime, number: u32) -> Result<String> {
    Ok(format!(in rt.alloc(); "/proc/self/fd/{number}")?)
}
