ghost use Rattle.std.specs.Prelude.{◌≡◌, ◌≤◌, ◌++◌, ◌∷◌, ◌⊎◌, [], Some, Contains, OnOk, OnErr, IsErrOf, IfOk};
ghost use Rattle.std.specs.Option.{option_copied};
ghost use Rattle.exi_names.specs.Events.{Rose};
ghost use Rattle.exi_ports.specs.Ports.{file_at, IsAnswer, Fetched, Asks};
ghost use Rattle.exi_ports.specs.Memory.{FailsAt};

use crate::shelf::{Fetch, Shelf};
use exi_names::{Octets, Txt};
use std::alloc::{AllocError, Global};
use std::marker::Model;

/// Files in memory, which are known by the first entry of a name, and of which the told fetches fail.
///
/// Fetches are counted from 1; one that answers `Memory` is not counted. A fetch fails exactly where its number
/// was told or no file has the name.
#[derive(Debug, Drop)]
pub struct MemShelf {
    files: Vec<(Txt, Octets)>,
    asked: Vec<Txt>,
    fail: Vec<u64>,
    calls: u64,
    faults: u64,
}

impl Model for MemShelf {
    ghost use Rattle.exi_ports.specs.Memory.{ShelfState};

    ghost Value = { ShelfState };

    ghost view = { λ s. record { files = s.files.items; asked = s.asked.items; fail = s.fail.items; calls = s.calls; faults = s.faults } };
}

impl MemShelf {
    ghost use Rattle.exi_ports.specs.Memory.{ShelfState};

    /// A shelf with no file.
    pub fn new(alloc: Global) -> MemShelf
        ensures { result ≡ record { files = []; asked = []; fail = []; calls = 0; faults = 0 } }
    {
        MemShelf {
            files: Vec::new(alloc),
            asked: Vec::new(alloc),
            fail: Vec::new(alloc),
            calls: 0,
            faults: 0,
        }
    }

    /// Puts a file on the shelf, behind those that are there.
    ///
    /// # Errors
    ///
    /// No memory; the shelf is as before.
    pub fn add_file(&mut self, name: Txt, bytes: Octets) -> Result<(), AllocError>
        ensures ok { OnOk result (self.new ≡ record self.old { files = self.old.files ++ (name, bytes) ∷ [] }) }
        ensures err { OnErr result (self.new ≡ self.old) }
    {
        self.files.push((name, bytes))?;
        Ok(())
    }

    /// Lets the fetch with this number fail too.
    ///
    /// # Errors
    ///
    /// No memory; the shelf is as before.
    pub fn fail_at(&mut self, call: u64) -> Result<(), AllocError>
        ensures ok { OnOk result (self.new ≡ record self.old { fail = self.old.fail ++ call ∷ [] }) }
        ensures err { OnErr result (self.new ≡ self.old) }
    {
        self.fail.push(call)?;
        Ok(())
    }

    /// The names asked so far, in order.
    pub fn asked(&self) -> &[Txt]
        ensures { result.now ≡ self.now.asked }
    {
        &self.asked
    }

    /// How many fetches were counted.
    pub fn calls(&self) -> u64
        ensures { result ≡ self.now.calls }
    {
        self.calls
    }

    /// How many fetches failed.
    pub fn faults(&self) -> u64
        ensures { result ≡ self.now.faults }
    {
        self.faults
    }
}

impl Shelf for MemShelf {
    ghost use Rattle.exi_ports.specs.Memory.{IsFault, after_fetch};

    ghost files = { λ s. Some s.files };

    ghost asked = { λ s. Some s.asked };

    ghost faults = { λ s. s.faults };

    fn fetch(&mut self, alloc: Global, name: &Txt, most: u64) -> Fetch
        ensures found { Fetched (Some self.old.files) name.now most result }
        ensures same { Some self.new.files ≡ Some self.old.files }
        ensures asks { Asks (Some self.old.asked) name.now result (Some self.new.asked) }
        ensures later { self.old.faults ≤ self.new.faults }
        ensures failed { result ≡ Fetch.Failed → Rose self.old.faults self.new.faults }
        ensures memory { result ≡ Fetch.Memory → self.new.faults ≡ self.old.faults }

        // This shelf tells more.
        ensures after { self.new ≡ after_fetch self.old name.now result }
        ensures fails { FailsAt (IsFault self.old name.now) result }
    {
        let Ok(noted) = name.copy() else {
            return Fetch::Memory;
        };
        let call = self.calls.saturating_add(1);
        let answer = answer(alloc, &self.files, &self.fail, call, name, most);
        if matches!(answer, Fetch::Memory) {
            return answer;
        }
        if self.asked.push(noted).is_err() {
            return Fetch::Memory;
        }
        self.calls = call;
        if matches!(answer, Fetch::Failed) {
            self.faults = self.faults.saturating_add(1);
        }
        answer
    }
}

/// What is answered for a name at this call, with the bytes copied.
fn answer(
    alloc: Global,
    files: &[(Txt, Octets)],
    fail: &[u64],
    call: u64,
    name: &Txt,
    most: u64,
) -> Fetch
    ensures found { IsAnswer (file_at files.now name.now) most result }
    ensures fails { FailsAt (Contains fail.now call ⊎ (file_at files.now name.now ≡ None)) result }
{
    if fail.contains(&call) {
        return Fetch::Failed;
    }
    match find(files, name) {
        None => Fetch::Failed,
        Some(bytes) if bytes.as_slice().len() as u64 > most => Fetch::TooLong,
        Some(bytes) => match Octets::of(alloc, bytes.as_slice()) {
            Ok(copy) => Fetch::Bytes(copy),
            Err(AllocError) => Fetch::Memory,
        },
    }
}

/// The bytes under the first entry of a name.
fn find<'a>(files: &'a [(Txt, Octets)], name: &Txt) -> Option<&'a Octets>
    ensures { option_copied result ≡ file_at files.now name.now }
{
    for (held, bytes) in files {
        if name.same(held) {
            return Some(bytes);
        }
    }
    None
}
