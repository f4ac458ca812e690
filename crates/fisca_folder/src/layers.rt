//! The files of a rule set's folder with those of reforms laid over.

ghost use Rattle.std.specs.Prelude.{◌≡◌, [], ◌∷◌, ℕ, suc, List, IfOk, MatchResult, OnOk, not, if◌then◌else◌};
ghost use Rattle.std.specs.List.{AllZip, filter, fold};
ghost use Rattle.fisca_folder.specs.Folder.{Folder, IsRefused};
ghost use Rattle.fisca_folder.specs.Layers.{first_layer, has_path, is_empty, laid_over, IsFirstRefused, IsLaid, IsLayerOf, Layer, told_in, with_layer};

use super::folder::{FolderFault, RuleFolder};
use super::reading::read_rules;
use super::told::{ToldPath, paths_told};
use fisca_params::SourceFile;
use std::alloc::{AllocError, Global};
use std::marker::Model;

/// The files of a rule set, and how their paths are told.
#[derive(Debug, Drop)]
pub struct LaidFiles {
    /// The files, by their paths in the folder of the rule set.
    pub files: Vec<SourceFile>,
    /// How their paths are told: the first that has a path says it.
    pub told: Vec<ToldPath>,
}

impl Model for LaidFiles {
    ghost use Rattle.fisca_folder.specs.Layers.{Laid};

    ghost Value = { Laid };

    ghost view = { λ l. record { files = l.files.items; told = l.told.items } };
}

/// Why the files of several folders could not be read.
#[derive(Debug, Drop)]
pub struct LayerFault {
    /// Which of the folders could not be read, from 0 on.
    pub folder: usize,
    /// Why not.
    pub fault: FolderFault,
}

/// Reads the files of a rule set in a folder, as by [`read_rules`], and then those of reforms, and lays these over, one reform after another, by their
/// paths: a file of a reform takes the place of that of the same path, and one that is empty takes it away. With a reform, the path of each file is told
/// in the folder that it is in.
///
/// Of the first folder whose files cannot be read it is told why, as by [`read_rules`]. `Memory` only where memory was refused.
///
/// This project's own rule.
pub fn read_layers<F: RuleFolder>(
    alloc: Global,
    rules: &F,
    reforms: &[F],
) -> Result<LaidFiles, LayerFault>
    ensures { (known : Folder) (others : List Folder) → F.says rules.now known → AllZip F.says reforms.now others → MatchResult result (IsLaid known others) (λ fault. IsFirstRefused (known ∷ others) fault.folder fault.fault) }
{
    match read_first(alloc, rules, reforms.is_empty()) {
        Ok(laid) => lay_all(alloc, laid, reforms),
        Err(fault) => Err(LayerFault { folder: 0, fault }),
    }
}

/// The files of a rule set's own folder, which is alone or has reforms beside it.
fn read_first<F: RuleFolder>(
    alloc: Global,
    rules: &F,
    is_alone: bool,
) -> Result<LaidFiles, FolderFault>
    ensures { (known : Folder) → F.says rules.now known → MatchResult result (λ laid. (layer : Layer) × IsLayerOf known layer × (laid ≡ first_layer is_alone layer)) (IsRefused known) }
{
    let files = read_rules(alloc, rules)?;
    let told = first_told(alloc, rules.name(), files.as_slice(), is_alone)?;
    Ok(LaidFiles { files, told })
}

/// How the paths of the files of a rule set's own folder are told: in it where it is not alone.
fn first_told(
    alloc: Global,
    name: &str,
    files: &[SourceFile],
    is_alone: bool,
) -> Result<Vec<ToldPath>, AllocError>
    ensures { IfOk result (λ told. told.items ≡ (if is_alone then [] else told_in (record { name = name.now; files = files.now }))) }
{
    if is_alone {
        Ok(Vec::new(alloc))
    } else {
        paths_told(alloc, name, files)
    }
}

/// Lays the files of reforms over these, one after another.
fn lay_all<F: RuleFolder>(
    alloc: Global,
    laid: LaidFiles,
    reforms: &[F],
) -> Result<LaidFiles, LayerFault>
    ensures { (others : List Folder) → AllZip F.says reforms.now others → MatchResult result (λ more. (layers : List Layer) × AllZip IsLayerOf others layers × (more ≡ fold with_layer laid layers)) (λ fault. (place : ℕ) × (fault.folder ≡ suc place) × IsFirstRefused others place fault.fault) }
{
    let mut laid = laid;
    let mut folder = 0;
    for reform in reforms {
        folder += 1;
        laid = match lay_folder(alloc, reform, laid) {
            Ok(laid) => laid,
            Err(fault) => return Err(LayerFault { folder, fault }),
        };
    }
    Ok(laid)
}

/// Lays the files of a reform over these.
fn lay_folder<F: RuleFolder>(
    alloc: Global,
    reform: &F,
    laid: LaidFiles,
) -> Result<LaidFiles, FolderFault>
    ensures { (known : Folder) → F.says reform.now known → MatchResult result (λ more. (layer : Layer) × IsLayerOf known layer × (more ≡ with_layer laid layer)) (IsRefused known) }
{
    let files = read_rules(alloc, reform)?;
    Ok(lay_files(alloc, reform.name(), files, laid)?)
}

/// Lays the files of the folder of this name over these.
fn lay_files(
    alloc: Global,
    name: &str,
    files: Vec<SourceFile>,
    laid: LaidFiles,
) -> Result<LaidFiles, AllocError>
    ensures { IfOk result (λ more. more ≡ with_layer laid (record { name = name.now; files = files.items })) }
{
    let LaidFiles {
        files: mut below,
        told: mut told_below,
    } = laid;
    let mut told = paths_told(alloc, name, files.as_slice())?;
    told.append(&mut told_below)?;
    lay_over(&mut below, files)?;
    Ok(LaidFiles { files: below, told })
}

/// Lays these files over others.
fn lay_over(files: &mut Vec<SourceFile>, layer: Vec<SourceFile>) -> Result<(), AllocError>
    ensures { OnOk result (files.new.items ≡ laid_over files.old.items layer.items) }
{
    let mut layer = layer;
    give_way(files, layer.as_slice());
    leave_empty_out(&mut layer);
    files.append(&mut layer)
}

/// Takes away the files whose paths a layer has.
fn give_way(files: &mut Vec<SourceFile>, layer: &[SourceFile])
    ensures { files.new.items ≡ filter (λ file. not (has_path file.path layer.now)) files.old.items }
{
    files.retain(|file| !has_path(layer, file.path()));
}

/// Takes away the files that are empty.
fn leave_empty_out(files: &mut Vec<SourceFile>)
    ensures { files.new.items ≡ filter (λ file. not (is_empty file)) files.old.items }
{
    files.retain(|file| !file.text().is_empty());
}

/// Whether one of these files has this path.
fn has_path(files: &[SourceFile], path: &str) -> bool
    ensures { result ≡ has_path path.now files.now }
{
    files.iter().any(|file| file.path() == path)
}
