// The names by which files are shown.
use report_run::NamedFile;
use report_tool::Format;
use std::alloc::{AllocError, Global};

// A path, on one line of a terminal: a control character in it shows as `?`.
fn shown(alloc: Global, path: &str) -> Result<String, AllocError> {
    let mut name = String::new(alloc);
    for letter in path.chars() {
        name.push(if letter.is_control() { '?' } else { letter })?;
    }
    Ok(name)
}

/// The files at these paths, with their names. JSON escapes a path by itself.
pub fn named(
    alloc: Global,
    paths: &[String],
    format: Format,
) -> Result<Vec<NamedFile>, AllocError> {
    let mut files = Vec::new(alloc);
    for path in paths {
        let name = match format {
            Format::Json => String::from_str(alloc, path)?,
            _ => shown(alloc, path)?,
        };
        let path = String::from_str(alloc, path)?;
        files.push(NamedFile { path, name })?;
    }
    Ok(files)
}
