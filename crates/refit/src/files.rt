// The layer files of the current folder.
use folder::read_file;
use std::alloc::AllocError;
use std::{fs, io};

const MOST_LAYERS: u8 = 99;

// The bytes of `01.lay`, `02.lay` and so on, up to the first file that is not there.
pub(crate) fn read_layers(rt: &HostRuntime) -> io::Result<Vec<Vec<u8>>> {
    let mut layers = Vec::new(rt.alloc());
    for number in 1..=MOST_LAYERS {
        let name = format!(in rt.alloc(); "{number:02}.lay")?;
        let Some(bytes) = read_file(rt, name.as_str())? else {
            break;
        };
        layers.push(bytes).map_err(AllocError::from)?;
    }
    Ok(layers)
}

// Writes a file under another name first, so that under its own name it is always whole.
pub(crate) fn write_file(rt: &HostRuntime, name: &str, bytes: &Vec<u8>) -> io::Result<()> {
    let part = format!(in rt.alloc(); "{name}.part")?;
    fs::write(rt, part.as_str(), bytes)?;
    fs::rename(rt, part.as_str(), name)
}
