// What stands under each name of a disk in memory. An entry stays once it is there, so that a file comes back with no
// need of memory, and a name stays hurt after its file was removed.
ghost use Rattle.std.specs.Prelude.{◌≡◌, Some, None, IfNone, IfSome, OnOk, OnErr, IsTrue, ◌↔◌};
ghost use Rattle.std.specs.Option.{option_copied};
ghost use Rattle.std.specs.FinMap as map;
ghost use Rattle.std.specs.BTreeMap.{get_by_text};
ghost use Rattle.fj_outside.specs.Holdings.{Exists, IsInUse, IsFree, out_of, given, without};
ghost use Rattle.fj_outside.specs.Table.{files_of, held_of, hurt_by};

use crate::by_name::{put, swap};
use crate::memory_file::MemoryFile;
use std::alloc::{AllocError, Global};
use std::collections::BTreeMap;

/// Where the file of a name is.
#[derive(Drop)]
pub enum Slot {
    Home(MemoryFile),
    InUse,
    /// It was removed, or was never there.
    Gone,
}

/// What stands under a name.
#[derive(Drop)]
pub struct Entry {
    pub slot: Slot,
    /// Whether the file was last given back with a count of faults that is not 0.
    pub hurt: bool,
}

pub type Table = BTreeMap<String, Entry>;

/// Whether a name is hurt.
fn is_hurt(table: &Table, name: &str) -> bool
    ensures { result ≡ hurt_by (get_by_text table.now name.now) }
{
    match table.get(name) {
        Some(entry) => entry.hurt,
        None => false,
    }
}

/// The file of a name that is at home.
pub fn home_file<'a>(table: &'a Table, name: &str) -> Option<&'a MemoryFile>
    ensures { option_copied result ≡ map.get (files_of table.now.entries) name.now }
{
    match table.get(name) {
        Some(entry) => match &entry.slot {
            Slot::Home(file) => Some(file),
            Slot::InUse | Slot::Gone => None,
        },
        None => None,
    }
}

/// Whether there is a file of that name, at home or out.
pub fn is_there(table: &Table, name: &str) -> bool
    ensures { IsTrue result ↔ Exists (held_of table.now.entries) name.now }
{
    match table.get(name) {
        Some(entry) => match entry.slot {
            Slot::Home(_) => true,
            Slot::InUse => true,
            Slot::Gone => false,
        },
        None => false,
    }
}

/// Takes out a file that is at home. It takes no memory.
pub fn take_home(table: &mut Table, name: &str) -> Option<MemoryFile>
    requires { IsFree (held_of table.old.entries) name.now }
    ensures none { IfNone result ((map.get (files_of table.old.entries) name.now ≡ None) × (held_of table.new.entries ≡ held_of table.old.entries)) }
    ensures some { IfSome result (λ file. (map.get (files_of table.old.entries) name.now ≡ Some file)
        × (held_of table.new.entries ≡ out_of (held_of table.old.entries) name.now)) }
{
    if home_file(table, name).is_none() {
        return None;
    }
    let taken = Entry {
        slot: Slot::InUse,
        hurt: is_hurt(table, name),
    };
    match swap(table, name, taken) {
        Some(entry) => {
            let Entry { slot, hurt: _ } = entry;
            match slot {
                Slot::Home(file) => Some(file),
                Slot::InUse | Slot::Gone => unreachable!(),
            }
        }
        None => unreachable!(),
    }
}

/// Makes room for a new file, which is out. Want of memory changes nothing.
pub fn make_out(alloc: Global, table: &mut Table, name: &str) -> Result<(), AllocError>
    ensures ok { OnOk result (held_of table.new.entries ≡ out_of (held_of table.old.entries) name.now) }
    ensures err { OnErr result (held_of table.new.entries ≡ held_of table.old.entries) }
{
    let made = Entry {
        slot: Slot::InUse,
        hurt: is_hurt(table, name),
    };
    put(alloc, table, name, made)?;
    Ok(())
}

/// Takes a file back that is out; `sound` where its count of faults is 0. It takes no memory.
pub fn give_home(table: &mut Table, name: &str, file: MemoryFile, sound: bool)
    requires { IsInUse (held_of table.old.entries) name.now }
    ensures { held_of table.new.entries ≡ given (held_of table.old.entries) name.now file sound }
{
    let back = Entry {
        slot: Slot::Home(file),
        hurt: !sound,
    };
    match swap(table, name, back) {
        Some(_) => (),
        None => unreachable!(),
    }
}

/// Puts or replaces a file at home. Want of memory changes nothing.
pub fn add_home(
    alloc: Global,
    table: &mut Table,
    name: &str,
    file: MemoryFile,
) -> Result<(), AllocError>
    requires { IsFree (held_of table.old.entries) name.now }
    ensures ok { OnOk result (held_of table.new.entries ≡ record (held_of table.old.entries) { files = map.insert (files_of table.old.entries) name.now file }) }
    ensures err { OnErr result (held_of table.new.entries ≡ held_of table.old.entries) }
{
    let added = Entry {
        slot: Slot::Home(file),
        hurt: is_hurt(table, name),
    };
    put(alloc, table, name, added)?;
    Ok(())
}

/// Removes a file that is at home.
pub fn remove_home(table: &mut Table, name: &str)
    requires exists { Exists (held_of table.old.entries) name.now }
    requires free { IsFree (held_of table.old.entries) name.now }
    ensures { held_of table.new.entries ≡ without (held_of table.old.entries) name.now }
{
    let gone = Entry {
        slot: Slot::Gone,
        hurt: is_hurt(table, name),
    };
    match swap(table, name, gone) {
        Some(_) => (),
        None => unreachable!(),
    }
}
