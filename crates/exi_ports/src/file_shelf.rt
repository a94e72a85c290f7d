ghost use Rattle.std.specs.Prelude.{◌≡◌, ◌≤◌, ◌<◌, None, IfOk, length, vec_len};
ghost use Rattle.exi_ports.specs.Edge.{Reads, faults_after_fetch};
ghost use Rattle.exi_ports.specs.Ports.{IsWithin};

use crate::shelf::{Fetch, Shelf};
use exi_names::{Octets, Txt};
use std::alloc::{AllocError, Global};
use std::fs::File;
use std::io::Read;
use std::rt::Files;

/// How many bytes one read asks for at most.
const CHUNK: usize = 65_536;

/// The files of the system, by their paths.
///
/// It tells neither its files nor the names asked. Each error of the system is a fault: an absent or unreadable
/// file and a directory are `Failed`.
#[derive(Drop)]
pub struct FileShelf<'a, R: Files> {
    /// Opens the files.
    pub rt: &'a R,
    /// How many fetches failed.
    pub faults: u64,
}

impl<'a, R: Files> FileShelf<'a, R> {
    /// A shelf with no fault so far.
    pub fn new(rt: &'a R) -> FileShelf<'a, R>
        ensures { result.faults ≡ 0 }
    {
        FileShelf { rt, faults: 0 }
    }

    /// Counts a fault where the answer is one.
    fn counted(&mut self, answer: Fetch) -> Fetch
        ensures same { result ≡ answer }
        ensures counts { self.new.faults ≡ faults_after_fetch self.old.faults answer }
        ensures later { self.old.faults ≤ self.new.faults }
    {
        if matches!(answer, Fetch::Failed) {
            self.faults = self.faults.saturating_add(1);
        }
        answer
    }
}

impl<'a, R: Files> Shelf for FileShelf<'a, R> {
    ghost files = { λ _. None };

    ghost asked = { λ _. None };

    ghost faults = { λ s. s.faults };

    /// Reads the file to its end, or until more than `most` bytes were read.
    fn fetch(&mut self, alloc: Global, name: &Txt, most: u64) -> Fetch {
        let answer = fetch_file(self.rt, alloc, name, most);
        self.counted(answer)
    }
}

/// Opens a file and reads it.
fn fetch_file<R: Files>(rt: &R, alloc: Global, name: &Txt, most: u64) -> Fetch
    ensures within { IsWithin most result }
{
    let Ok(mut file) = File::open(rt, name.as_str()) else {
        return Fetch::Failed;
    };
    let Ok(mut chunk) = new_chunk(alloc) else {
        return Fetch::Memory;
    };
    read_all(alloc, &mut file, &mut chunk, most)
}

/// Room for what one read gives.
fn new_chunk(alloc: Global) -> Result<Vec<u8>, AllocError>
    ensures { IfOk result (λ chunk. vec_len chunk ≡ CHUNK) }
{
    vec![in alloc; 0u8; CHUNK]
}

/// Reads a source to its end, chunk by chunk, unless it has more than `most` bytes left; no more than `most`
/// are kept.
fn read_all<S: Read>(alloc: Global, source: &mut S, chunk: &mut [u8], most: u64) -> Fetch
    requires { 0 < length chunk.old }
    ensures read { Reads (S.remaining source.old) most result }
    ensures within { IsWithin most result }
{
    let mut all = Vec::new(alloc);
    while all.len() as u64 <= most {
        let room = (most - all.len() as u64)
            .saturating_add(1)
            .min(chunk.len() as u64) as usize;
        match source.read(&mut chunk[..room]) {
            Ok(0) => return Fetch::Bytes(Octets::from_vec(all)),
            Ok(count) => {
                if count as u64 > most - all.len() as u64 {
                    return Fetch::TooLong;
                }
                if all.extend_from_slice(&chunk[..count]).is_err() {
                    return Fetch::Memory;
                }
            }
            Err(_) => return Fetch::Failed,
        }
    }
    Fetch::TooLong
}
