//! Files of a store that is refused, which other programs change between the calls that open it and
//! those that restore it.
use escrow_server::{InFiles, OpenStore, Outlook};
use std::process::Abort;
use std::{fs, io};

/// A database and its log: what is written there, or must be there. `None` means no file.
type Files = [Option<&'static str>; 2];

/// The folder of the store, its files, and others that are moved to their places.
const FOLDER: &str = "back";

const FILES: [&str; 2] = ["back/bank.db", "back/bank.db-wal"];

const OTHERS: [&str; 2] = ["back/file", "back/log"];

const NONE: Files = [None, None];

/// What is written at first, before both files are locked, and before they are restored; and what
/// is left then.
#[derive(Clone, Copy)]
struct Left {
    before: Files,
    locked: Files,
    later: Files,
    /// Whether other files are moved to the places of both, with what is written last.
    is_moved: bool,
    left: Files,
}

/// Both are made.
const BOTH_MADE: Left = Left {
    before: NONE,
    locked: [Some(""), Some("")],
    later: [None, Some("head")],
    is_moved: false,
    left: NONE,
};

/// What the program has made is removed. What another program made since it looked stays, and so
/// does what was moved to the place of a file.
const LEFT: [Left; 9] = [
    BOTH_MADE,
    // another program makes the database meanwhile, or both files; everything may be in the log
    Left {
        locked: [Some("store"), Some("")],
        left: [Some("store"), None],
        ..BOTH_MADE
    },
    Left {
        locked: [Some("store"), Some("log")],
        later: [None, Some("log and head")],
        left: [Some("store"), Some("log")],
        ..BOTH_MADE
    },
    Left {
        locked: [Some(""), Some("log")],
        later: [None, Some("log and head")],
        left: [Some(""), Some("log")],
        ..BOTH_MADE
    },
    // the database is made beside a log
    Left {
        before: [None, Some("log")],
        locked: [Some(""), None],
        later: [None, Some("log and head")],
        left: [None, Some("log")],
        ..BOTH_MADE
    },
    // the database existed, with its log or without, and so did an empty file
    Left {
        before: [Some("store"), None],
        locked: [None, Some("")],
        left: [Some("store"), None],
        ..BOTH_MADE
    },
    Left {
        before: [Some("store"), Some("log")],
        locked: NONE,
        later: [None, Some("log and head")],
        left: [Some("store"), Some("log")],
        ..BOTH_MADE
    },
    Left {
        before: [Some(""), None],
        locked: [None, Some("")],
        left: [Some(""), None],
        ..BOTH_MADE
    },
    // both are made, and others moved to their places
    Left {
        later: [Some("other"), Some("other")],
        is_moved: true,
        left: [Some("other"), Some("other")],
        ..BOTH_MADE
    },
];

/// Writes files.
fn write(rt: &HostRuntime, paths: [&str; 2], files: Files) -> io::Result<()> {
    for (path, text) in paths.iter().zip(files.iter()) {
        if let Some(text) = text {
            fs::write(rt, *path, *text)?;
        }
    }
    Ok(())
}

/// Writes other files, and moves them to the places of a store's.
fn move_in(rt: &HostRuntime, files: Files) -> io::Result<()> {
    write(rt, OTHERS, files)?;
    for (other, path) in OTHERS.iter().zip(FILES.iter()) {
        fs::rename(rt, *other, *path)?;
    }
    Ok(())
}

/// Asserts that a file has this content.
fn hold<T: Abort>(rt: &HostRuntime, to: &T, path: &str, text: &str) {
    let found = fs::read(rt, path).expect(to, "a file");
    assert_eq!(to; found.as_slice(), text.as_bytes(), "{path}");
}

/// Asserts that the folder has exactly these files.
fn stand<T: Abort>(rt: &HostRuntime, to: &T, files: Files) {
    let mut count = 0usize;
    for (path, text) in FILES.iter().zip(files.iter()) {
        if let Some(text) = text {
            hold(rt, to, *path, *text);
            count = count.saturating_add(1);
        }
    }
    let entries = fs::read_dir(rt, FOLDER).expect(to, "a folder");
    assert_eq!(to; entries.count(), count);
}

#[test]
fn put_back(rt: HostRuntime) {
    let [path, _] = FILES;
    let stores = InFiles { rt: &rt, path };
    for case in &LEFT {
        let _ = fs::remove_dir_all(&rt, FOLDER);
        fs::create_dir(&rt, FOLDER).expect(&rt, "a folder");
        write(&rt, FILES, case.before).expect(&rt, "files");
        let outlook = Outlook::look(&rt, path).expect(&rt, "an outlook");
        write(&rt, FILES, case.locked).expect(&rt, "files");
        let site = outlook.look_again(&rt);
        let later = if case.is_moved {
            move_in(&rt, case.later)
        } else {
            write(&rt, FILES, case.later)
        };
        later.expect(&rt, "files");
        stores.put_back(&site);
        stand(&rt, &rt, case.left);
    }
    fs::remove_dir_all(&rt, FOLDER).expect(&rt, "a folder");
}
