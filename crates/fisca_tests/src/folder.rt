//! The rule files of a folder, over folders that a test makes up.

use fisca_folder::{FolderEntry, FolderFault, RuleFolder, read_layers, read_rules, told_path};
use std::alloc::{AllocError, Global};
use std::test::Fail;

/// A folder that a test makes up: the entries of each folder, those that are folders with a slash behind, and the bytes of
/// each file.
#[derive(Drop)]
struct Made {
    alloc: Global,
    folders: &'static [(&'static str, &'static [&'static str])],
    files: &'static [(&'static str, &'static [u8])],
}

impl RuleFolder for Made {
    ghost says = { λ _ _. ⊥ };

    fn name(&self) -> &str {
        "rules"
    }

    fn entries(&self, path: &str, most: usize) -> Result<Option<Vec<FolderEntry>>, AllocError> {
        for (folder, names) in self.folders {
            if *folder == path {
                let mut entries = Vec::new(self.alloc);
                for name in names.iter().take(most) {
                    let entry = match name.strip_suffix("/") {
                        Some(name) => FolderEntry::new(String::from_str(self.alloc, name)?, true),
                        None => FolderEntry::new(String::from_str(self.alloc, name)?, false),
                    };
                    entries.push(entry)?;
                }
                return Ok(Some(entries));
            }
        }
        Ok(None)
    }

    fn bytes(&self, path: &str, most: u64) -> Result<Option<Vec<u8>>, AllocError> {
        for (file, bytes) in self.files {
            if *file == path {
                let mut copy = Vec::new(self.alloc);
                for byte in bytes.iter() {
                    if (copy.len() as u64) < most {
                        copy.push(*byte)?;
                    }
                }
                return Ok(Some(copy));
            }
        }
        Ok(None)
    }
}

/// The paths and texts of the files that a folder is read into, or what is told and its status.
fn told<F: RuleFolder>(alloc: Global, folder: &F) -> Result<String, AllocError> {
    let mut text = String::new(alloc);
    match read_rules(alloc, folder) {
        Ok(files) => {
            for file in files.as_slice() {
                text.push_str(file.path())?;
                text.push('=')?;
                text.push_str(file.text())?;
                text.push(' ')?;
            }
            Ok(text)
        }
        Err(fault) => {
            let line = fault.line(alloc, "rules")?;
            let status = fault.status();
            format!(in alloc; "{line} ({status})")
        }
    }
}

#[test]
fn rule_files_are_read_in_order_of_their_paths(rt: HostRuntime) -> Result<(), Fail> {
    let folder = Made {
        alloc: rt.alloc(),
        folders: &[
            (
                "",
                &["variables/", "b.yaml", "parameters/", "c.py", "entities.py"],
            ),
            ("variables", &["d.yaml", "b.py", "a/", "b.PY"]),
            ("variables/a", &["z.py"]),
            (
                "parameters",
                &["c.yml", "b/", "b.yaml", "a.txt", "d.yaml/", "b!.yaml"],
            ),
            ("parameters/b", &["z.yaml", "a.yml", "a.YAML"]),
            ("parameters/d.yaml", &[]),
        ],
        files: &[
            ("parameters/b.yaml", b"1"),
            ("parameters/b!.yaml", b"2"),
            ("parameters/c.yml", b"3"),
            ("parameters/b/a.yml", b"4"),
            ("parameters/b/z.yaml", b"5"),
            ("entities.py", b"6"),
            ("variables/b.py", b"7"),
            ("variables/a/z.py", b"8"),
        ],
    };
    assert_eq!(rt;
        told(rt.alloc(), &folder)?.as_str(),
        "entities.py=6 parameters/b!.yaml=2 parameters/b.yaml=1 parameters/b/a.yml=4 parameters/b/z.yaml=5 parameters/c.yml=3 variables/a/z.py=8 variables/b.py=7 "
    );
    Ok(())
}

/// The paths and texts of the files of a folder with those of others laid over, each path as it is told, or what is told and which folder it is of.
fn laid(alloc: Global, rules: &Made, reforms: &[Made]) -> Result<String, AllocError> {
    let mut text = String::new(alloc);
    match read_layers(alloc, rules, reforms) {
        Ok(laid) => {
            for file in laid.files.as_slice() {
                text.push_str(told_path(laid.told.as_slice(), file.path()))?;
                text.push('=')?;
                text.push_str(file.text())?;
                text.push(' ')?;
            }
            Ok(text)
        }
        Err(told) => {
            let line = told.fault.line_below(alloc, "reform/")?;
            let folder = told.folder;
            format!(in alloc; "{line} ({folder})")
        }
    }
}

#[test]
fn the_files_of_reforms_are_laid_over_those_of_the_rules(rt: HostRuntime) -> Result<(), Fail> {
    let alloc = rt.alloc();
    let rules = Made {
        alloc,
        folders: &[
            ("", &["variables/"]),
            ("variables", &["a.py", "b.py", "c.py", "d.py"]),
        ],
        files: &[
            ("variables/a.py", b""),
            ("variables/b.py", b"1"),
            ("variables/c.py", b"2"),
            ("variables/d.py", b"3"),
        ],
    };
    assert_eq!(rt;
        laid(alloc, &rules, &[])?.as_str(),
        "variables/a.py= variables/b.py=1 variables/c.py=2 variables/d.py=3 "
    );
    let mut reforms = Vec::new(alloc);
    reforms.push(Made {
        alloc,
        folders: &[
            ("", &["variables/"]),
            ("variables", &["b.py", "c.py", "e.py"]),
        ],
        files: &[
            ("variables/b.py", b""),
            ("variables/c.py", b"4"),
            ("variables/e.py", b"5"),
        ],
    })?;
    reforms.push(Made {
        alloc,
        folders: &[("", &["variables/"]), ("variables", &["e.py"])],
        files: &[("variables/e.py", b"6")],
    })?;
    assert_eq!(rt;
        laid(alloc, &rules, reforms.as_slice())?.as_str(),
        "rules/variables/a.py= rules/variables/d.py=3 rules/variables/c.py=4 rules/variables/e.py=6 "
    );
    reforms.push(Made {
        alloc,
        folders: &[("", &["variables/"]), ("variables", &["e.py"])],
        files: &[("variables/e.py", b"\xff")],
    })?;
    assert_eq!(rt;
        laid(alloc, &rules, reforms.as_slice())?.as_str(),
        "fisca: reform/variables/e.py: cannot read (3)"
    );
    Ok(())
}

#[test]
fn a_file_where_a_folder_is_meant_is_left_out(rt: HostRuntime) -> Result<(), Fail> {
    let folder = Made {
        alloc: rt.alloc(),
        folders: &[
            ("", &["variables", "parameters/", "entities.py"]),
            ("parameters", &["variables", "a.yaml"]),
        ],
        files: &[
            ("parameters/a.yaml", b"1"),
            ("entities.py", b"2"),
            ("variables", b"3"),
        ],
    };
    assert_eq!(rt;
        told(rt.alloc(), &folder)?.as_str(),
        "entities.py=2 parameters/a.yaml=1 "
    );
    Ok(())
}

#[test]
fn the_first_fault_is_told(rt: HostRuntime) -> Result<(), Fail> {
    let none = Made {
        alloc: rt.alloc(),
        folders: &[],
        files: &[],
    };
    assert_eq!(rt;
        told(rt.alloc(), &none)?.as_str(),
        "fisca: cannot list rules (5)"
    );
    let below = Made {
        alloc: rt.alloc(),
        folders: &[("", &["parameters/"]), ("parameters", &["a.yaml", "b/"])],
        files: &[],
    };
    assert_eq!(rt;
        told(rt.alloc(), &below)?.as_str(),
        "fisca: cannot list rules (5)"
    );
    let unread = Made {
        alloc: rt.alloc(),
        folders: &[
            ("", &["parameters/"]),
            ("parameters", &["c.yaml", "b.yaml", "a.yaml"]),
        ],
        files: &[("parameters/a.yaml", b"1"), ("parameters/c.yaml", &[0xFF])],
    };
    assert_eq!(rt;
        told(rt.alloc(), &unread)?.as_str(),
        "fisca: parameters/b.yaml: cannot read (5)"
    );
    let no_text = Made {
        alloc: rt.alloc(),
        folders: &[
            ("", &["parameters/"]),
            ("parameters", &["b\n.yaml", "a.yaml"]),
        ],
        files: &[
            ("parameters/a.yaml", b"1"),
            ("parameters/b\n.yaml", &[0xC3, 0x28]),
        ],
    };
    assert_eq!(rt;
        told(rt.alloc(), &no_text)?.as_str(),
        "fisca: parameters/b\\x0a.yaml: cannot read (5)"
    );
    Ok(())
}

/// A folder in which each folder has as many folders as this, and one file.
#[derive(Drop)]
struct Endless {
    alloc: Global,
    folders: usize,
}

impl RuleFolder for Endless {
    ghost says = { λ _ _. ⊥ };

    fn name(&self) -> &str {
        "rules"
    }

    fn entries(&self, _path: &str, most: usize) -> Result<Option<Vec<FolderEntry>>, AllocError> {
        let mut entries = Vec::new(self.alloc);
        entries.push(FolderEntry::new(String::from_str(self.alloc, "a.yaml")?, false))?;
        for _ in 0..self.folders {
            if entries.len() < most {
                entries.push(FolderEntry::new(String::from_str(self.alloc, "parameters")?, true))?;
            }
        }
        Ok(Some(entries))
    }

    fn bytes(&self, _path: &str, _most: u64) -> Result<Option<Vec<u8>>, AllocError> {
        Ok(Some(Vec::new(self.alloc)))
    }
}

#[test]
fn folders_without_an_end_are_told(rt: HostRuntime) -> Result<(), Fail> {
    let once = Endless {
        alloc: rt.alloc(),
        folders: 1,
    };
    match read_rules(rt.alloc(), &once) {
        Ok(files) => assert_eq!(rt; files.len(), 8),
        Err(_) => assert!(rt; false, "eight levels end"),
    }
    let wide = Endless {
        alloc: rt.alloc(),
        folders: 10,
    };
    assert_eq!(rt;
        told(rt.alloc(), &wide)?.as_str(),
        "fisca: TooManyFiles (3)"
    );
    Ok(())
}

#[test]
fn each_fault_of_a_folder_has_its_status_and_line(rt: HostRuntime) -> Result<(), Fail> {
    let path = "parameters/a.yaml";
    let table = [
        (FolderFault::CannotList, 5, "fisca: cannot list rules"),
        (
            FolderFault::CannotRead {
                path: String::from_str(rt.alloc(), path)?,
            },
            5,
            "fisca: parameters/a.yaml: cannot read",
        ),
        (
            FolderFault::TooLong {
                path: String::from_str(rt.alloc(), path)?,
            },
            3,
            "fisca: parameters/a.yaml:1: TooLong",
        ),
        (FolderFault::TooManyFiles, 3, "fisca: TooManyFiles"),
        (FolderFault::Memory, 6, "fisca: out of memory"),
    ];
    for (fault, status, line) in table {
        assert_eq!(rt; fault.status(), status, "{line}");
        assert_eq!(rt; fault.line(rt.alloc(), "rules")?.as_str(), line);
    }
    Ok(())
}
