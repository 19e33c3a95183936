// Files in memory. No clause can say what a file holds, so no library has these functions, and each
// program reads its own files.
use std::fs;
use std::fs::File;
use std::io::Read;

// The whole of a file, in memory of the file's own size; `fs::read` would take more as it goes on.
fn read_whole(rt: &HostRuntime, path: &str) -> anyhow::Result<Vec<u8>> {
    let mut file = File::open(rt, path)?;
    let room = usize::try_from(file.metadata()?.len())?;
    let mut bytes = Vec::with_capacity(rt.alloc(), room)?;
    file.read_to_end(&mut bytes)?;
    Ok(bytes)
}

// One line says of which file and why.
pub(crate) fn complain<T>(rt: &HostRuntime, path: &str, e: anyhow::Error) -> anyhow::Result<T> {
    eprintln!(rt; "rerun: {path}: {e}")?;
    Err(e)
}

pub(crate) fn read_file(rt: &HostRuntime, path: &str) -> anyhow::Result<Vec<u8>> {
    read_whole(rt, path).or_else(|e| complain(rt, path, e))
}

pub(crate) fn read_text(rt: &HostRuntime, path: &str) -> anyhow::Result<String> {
    fs::read_to_string(rt, path).or_else(|e| complain(rt, path, e.into()))
}
