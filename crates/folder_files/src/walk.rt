// The files in folders, level by level.
ghost use Rattle.std.specs.Prelude.{◌≡◌, ◌≤◌, ◌++◌, [], ◌∷◌, string_bytes, flat_map, ◌||◌, IfOk, IfSome, OnOk};
ghost use Rattle.folder_files.specs.Trees.{texts, path_in};
ghost use Rattle.folder_files.specs.Files.{file_by, folder_by, file_named, folder_named, files_by, folders_by, files_in, folders_in};
ghost use Rattle.folder_files.specs.Files.{files_below, levels, AreInOrder, AreFilesAt, AreFiles, is_folder, has_folder};
ghost use Rattle.folder_files.specs.Walks.{Adds, IsNextLevel, AddsFiles, IsWhole};

use crate::paths::{is_shown, path_in};
use crate::{Folders, Kind};
use std::alloc::{AllocError, Global};

/// Files that were found, and folders that are still to be gone through.
#[derive(Drop)]
pub struct Found {
    pub files: Vec<String>,
    pub folders: Vec<String>,
}

fn add_path<F: Folders>(found: &mut Found, path: String, tree: &mut F) -> Result<(), AllocError>
    ensures added { OnOk result (IfSome (F.tree tree.old) (λ t. Adds (file_by (t.kind (string_bytes path)) (string_bytes path))
        (folder_by (t.kind (string_bytes path)) (string_bytes path)) found.old found.new)) }
    ensures same { F.tree tree.new ≡ F.tree tree.old }
{
    match tree.kind(&path) {
        Kind::File => found.files.push(path)?,
        Kind::Folder => found.folders.push(path)?,
        Kind::Link | Kind::Other => (),
    }
    Ok(())
}

fn add_name<F: Folders>(
    alloc: Global,
    found: &mut Found,
    folder: &str,
    name: &str,
    tree: &mut F,
) -> Result<(), AllocError>
    ensures added { OnOk result (IfSome (F.tree tree.old) (λ t. Adds (file_named t folder.now name.now)
        (folder_named t folder.now name.now) found.old found.new)) }
    ensures same { F.tree tree.new ≡ F.tree tree.old }
{
    if !is_shown(name) {
        return Ok(());
    }
    let path = path_in(alloc, folder, name)?;
    add_path(found, path, tree)?;
    Ok(())
}

fn add_names<F: Folders>(
    alloc: Global,
    found: &mut Found,
    folder: &str,
    names: &[String],
    tree: &mut F,
) -> Result<(), AllocError>
    ensures added { OnOk result (IfSome (F.tree tree.old) (λ t.
        Adds (flat_map (file_named t folder.now) (texts names.now))
        (flat_map (folder_named t folder.now) (texts names.now)) found.old found.new)) }
    ensures same { F.tree tree.new ≡ F.tree tree.old }
{
    for i in 0..names.len() {
        add_name(alloc, found, folder, &names[i], tree)?;
    }
    Ok(())
}

fn add_folder<F: Folders>(
    alloc: Global,
    found: &mut Found,
    folder: &str,
    tree: &mut F,
) -> Result<(), AllocError>
    ensures added { OnOk result (IfSome (F.tree tree.old) (λ t. Adds (files_in t folder.now) (folders_in t folder.now)
        found.old found.new)) }
    ensures same { F.tree tree.new ≡ F.tree tree.old }
{
    let Some(names) = tree.names(folder)? else {
        found.files.push(String::from_str(alloc, folder)?)?;
        return Ok(());
    };
    add_names(alloc, found, folder, &names, tree)
}

fn add_folders<F: Folders>(
    alloc: Global,
    found: &mut Found,
    folders: &[String],
    tree: &mut F,
) -> Result<(), AllocError>
    ensures added { OnOk result (IfSome (F.tree tree.old) (λ t.
        Adds (flat_map (files_in t) (texts folders.now)) (flat_map (folders_in t) (texts folders.now))
        found.old found.new)) }
    ensures same { F.tree tree.new ≡ F.tree tree.old }
{
    for i in 0..folders.len() {
        add_folder(alloc, found, &folders[i], tree)?;
    }
    Ok(())
}

// The files so far, with those in the folders, and the folders in these.
fn next_level<F: Folders>(alloc: Global, found: Found, tree: &mut F) -> Result<Found, AllocError>
    ensures added { IfOk result (λ now. IfSome (F.tree tree.old) (λ t. IsNextLevel t found now)) }
    ensures same { F.tree tree.new ≡ F.tree tree.old }
{
    let Found { files, folders } = found;
    let mut now = Found {
        files,
        folders: Vec::new(alloc),
    };
    add_folders(alloc, &mut now, &folders, tree)?;
    Ok(now)
}

fn levels(all: bool) -> u8
    ensures { result ≡ levels all }
{
    if all { 64 } else { 1 }
}

fn files_below<F: Folders>(
    alloc: Global,
    folder: &str,
    all: bool,
    tree: &mut F,
) -> Result<Vec<String>, AllocError>
    ensures found { IfOk result (λ files. IfSome (F.tree tree.old)
        (λ t. texts files.items ≡ files_below t (levels all) (folder.now ∷ []))) }
    ensures same { F.tree tree.new ≡ F.tree tree.old }
{
    let mut found = Found {
        files: Vec::new(alloc),
        folders: itself(alloc, folder)?,
    };
    let mut left = levels(all);
    'levels: while left > 0 {
        found = next_level(alloc, found, tree)?;
        left -= 1;
    }
    Ok(found.files)
}

fn sorted(mut files: Vec<String>) -> Result<Vec<String>, AllocError>
    ensures { IfOk result (λ now. AreInOrder (texts files.items) now.items) }
{
    files.sort()?;
    Ok(files)
}

fn itself(alloc: Global, path: &str) -> Result<Vec<String>, AllocError>
    ensures { IfOk result (λ files. texts files.items ≡ path.now ∷ []) }
{
    let path = String::from_str(alloc, path)?;
    Ok(vec![in alloc; path]?)
}

fn is_folder(kind: Kind) -> bool
    ensures { result ≡ is_folder kind }
{
    match kind {
        Kind::Folder | Kind::Link => true,
        Kind::File | Kind::Other => false,
    }
}

// The files at a path of this kind.
fn files_at<F: Folders>(
    alloc: Global,
    kind: Kind,
    path: &str,
    all: bool,
    tree: &mut F,
) -> Result<Vec<String>, AllocError>
    ensures are { IfOk result (λ files. IfSome (F.tree tree.old) (λ t. AreFilesAt kind t all path.now files.items)) }
    ensures same { F.tree tree.new ≡ F.tree tree.old }
{
    if is_folder(kind) {
        let files = files_below(alloc, path, all, tree)?;
        sorted(files)
    } else {
        itself(alloc, path)
    }
}

fn either(one: bool, other: bool) -> bool
    ensures { result ≡ (one || other) }
{
    one || other
}

/// The files that paths stand for.
#[derive(Drop)]
pub struct Files {
    pub paths: Vec<String>,
    /// Whether one of the paths is a folder.
    pub has_folder: bool,
}

fn add_files<F: Folders>(
    alloc: Global,
    files: &mut Files,
    path: &str,
    all: bool,
    tree: &mut F,
) -> Result<(), AllocError>
    ensures added { OnOk result (IfSome (F.tree tree.old) (λ t. AddsFiles t all path.now files.old files.new)) }
    ensures same { F.tree tree.new ≡ F.tree tree.old }
{
    let kind = tree.kind(path);
    let mut more = files_at(alloc, kind, path, all, tree)?;
    files.paths.append(&mut more)?;
    files.has_folder = either(files.has_folder, is_folder(kind));
    Ok(())
}

/// The files that these paths stand for, one after another: of a folder those in it, in the order of their paths' bytes,
/// and if `all` is set those of the folders below, 64 levels deep at most; any other path stands for itself. Names that
/// begin with a dot, links to folders, devices, pipes and sockets in a folder are left out. A folder whose names cannot be
/// read is among the files.
pub fn files_of<F: Folders>(
    alloc: Global,
    paths: &[String],
    all: bool,
    tree: &mut F,
) -> Result<Files, AllocError>
    ensures { IfOk result (λ files. IfSome (F.tree tree.old) (λ t. IsWhole t all (texts paths.now) files)) }
{
    let mut files = Files {
        paths: Vec::new(alloc),
        has_folder: false,
    };
    for i in 0..paths.len() {
        add_files(alloc, &mut files, &paths[i], all, tree)?;
    }
    Ok(files)
}
