// A case, as it lies in its folder.
use std::alloc::Global;
use std::io::ErrorKind;
use std::rt::Files;
use std::{fs, io};

/// A file by its name.
#[derive(Drop)]
pub struct NamedFile {
    pub name: String,
    pub bytes: Vec<u8>,
}

/// What a run is to print, its exit status, and all files that it is to leave.
#[derive(Drop)]
pub struct Expected {
    pub output: Vec<u8>,
    pub status: String,
    pub files: Vec<NamedFile>,
}

/// Words and a deck, the files that lie there before, and what is expected.
#[derive(Drop)]
pub struct Case {
    pub words: Vec<String>,
    pub deck: Vec<u8>,
    pub files: Vec<NamedFile>,
    pub expected: Expected,
}

/// The path of a part of the case of that name.
fn path_of(alloc: Global, name: &str, part: &str) -> io::Result<String> {
    Ok(format!(in alloc; "decks/{}/{}", name, part)?)
}

/// The bytes of a part of the case of that name.
fn bytes_of<R: Files + AllocGlobal>(
    rt: &R,
    alloc: Global,
    name: &str,
    part: &str,
) -> io::Result<Vec<u8>> {
    fs::read(rt, path_of(alloc, name, part)?.as_str())
}

/// The lines of a part of the case of that name.
fn lines_of<R: Files + AllocGlobal>(
    rt: &R,
    alloc: Global,
    name: &str,
    part: &str,
) -> io::Result<Vec<String>> {
    let text = fs::read_to_string(rt, path_of(alloc, name, part)?.as_str())?;
    let mut lines = Vec::new(alloc);
    for line in text.as_str().lines() {
        lines.push(String::from_str(alloc, line)?)?;
    }
    Ok(lines)
}

/// The files of a folder of the case of that name; none where there is no such folder.
fn files_of<R: Files + AllocGlobal + Clone + Drop>(
    rt: &R,
    alloc: Global,
    name: &str,
    part: &str,
) -> io::Result<Vec<NamedFile>> {
    let mut files = Vec::new(alloc);
    let entries = match fs::read_dir(rt, path_of(alloc, name, part)?.as_str()) {
        Err(e) if e.kind() == ErrorKind::NotFound => return Ok(files),
        entries => entries?,
    };
    for entry in entries {
        let entry = entry?;
        let name = String::from_str(alloc, entry.file_name())?;
        let bytes = fs::read(rt, entry.path())?;
        files.push(NamedFile { name, bytes })?;
    }
    Ok(files)
}

/// The case of that name.
pub fn read_case<R: Files + AllocGlobal + Clone + Drop>(
    rt: &R,
    alloc: Global,
    name: &str,
) -> io::Result<Case> {
    let words = lines_of(rt, alloc, name, "words")?;
    let deck = bytes_of(rt, alloc, name, "deck")?;
    let files = files_of(rt, alloc, name, "files")?;
    let output = bytes_of(rt, alloc, name, "expected/output")?;
    let status = fs::read_to_string(rt, path_of(alloc, name, "expected/status")?.as_str())?;
    let left = files_of(rt, alloc, name, "expected/files")?;
    Ok(Case {
        words,
        deck,
        files,
        expected: Expected {
            output,
            status,
            files: left,
        },
    })
}
