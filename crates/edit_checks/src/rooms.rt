// Rows run out: of a session, which has 192, and of a flat tree, which has 256.
use crate::kit::{KIT, flat_kit};
use crate::scripts::run;
use base::Manifest;
use edits::editable::Editable;
use manifests::index::{blank_row, index};
use sessions::session::Session;
use std::test::Fail;
use trees::entry::{Entry, FileMeta};
use trees::fault::Fault;

const FILE: Entry = Entry::File(FileMeta {
    mode: 0o644,
    size: 1,
    content: 1,
});

// Puts a file below `d` for each letter with each digit.
fn fill<T: Editable>(tree: &mut T, letters: &str, digits: &str) -> Result<(), Fault> {
    for letter in letters.bytes() {
        for digit in digits.bytes() {
            tree.put(&[b'd', b'/', letter, digit], FILE)?;
        }
    }
    Ok(())
}

// A need of two and of three, at a room of two, of one, and of two again.
const SESSION_LAST: &str = "\
room = 2
need etc/coin = 2
need etc/trays/t1 = 3
need etc/trays/t2 = 3
put etc/trays/t2 file 644 0 0 = t 20 3
mkdir etc/trays/t2 755 = t 20 3
chmod etc/trays/t1 600 = t 20 3
remove etc/trays/t1 = t 20 3
look etc/trays/t1 = file 644 5 b2
look etc/trays/t2 = t 10 3
room = 2
need etc/trays/t1 = 3
put d/z file 644 0 0 = done
room = 1
put etc/coin file 644 14 a2 = t 20 2
mkdir etc/x 755 = t 20 2
chmod etc/coin 600 = t 20 2
remove etc/coin = t 20 2
look etc/coin = file 644 12 a1
look etc/x = t 10 2
room = 1
remove d/z = done
room = 2
put etc/coin file 644 14 a2 = done
room = 0";

// Without room only that is granted which needs none, and every other fault comes first.
const SESSION_FULL: &str = "\
need d/z = 1
put d/z file 644 0 0 = t 20 1
mkdir d/z 755 = t 20 1
chmod etc/trays 700 = t 20 1
remove etc/trays/t1 = t 20 2
put etc/trays file 644 0 0 = t 12 3
mkdir etc/trays 755 = t 13 3
remove etc/trays = t 15 3
chmod var 700 = t 10 1
put etc/trays/t1/x file 644 0 0 = t 11 4
mkdir '' 755 = t 16 0
mkdir d/z 10000 = t 17 0
remove d/.. = p 2 1
put etc/coin file 600 1 c3 = done
chmod etc/coin 640 = done
look etc/coin = file 640 1 c3
remove etc/coin = done
next etc '' = trays
mkdir etc/coin 700 = done
room = 0
remove d/a0 = done
room = 1
chmod etc/trays 700 = done
room = 0";

#[test]
fn session_rows(rt: HostRuntime) -> Result<(), Fail> {
    let mut rows = [blank_row(); 8];
    let count = index(KIT.as_bytes(), &mut rows)?;
    let mut session = Session::open(Manifest::read(KIT.as_bytes(), &rows[..count])?);
    run(&rt, &mut session, "mkdir d 755 = done\nroom = 190")?;
    fill(&mut session, "abcdefghijklmnopqr", "0123456789")?;
    fill(&mut session, "s", "01234567")?;
    run(&rt, &mut session, SESSION_LAST)?;
    run(&rt, &mut session, SESSION_FULL)
}

// Only a path that is absent needs a row, and a row that was removed serves again.
const FLAT_LAST: &str = "\
room = 1
need d/z = 1
need etc/coin = 0
need var/x/y = 1
put d/z file 644 0 0 = done
room = 0
put d/z1 file 644 0 0 = t 20 1
mkdir d/z1 755 = t 20 1
look d/z1 = t 10 2
put etc/trays file 644 0 0 = t 12 3
mkdir etc/trays 755 = t 13 3
remove etc/trays = t 15 3
chmod d/z1 700 = t 10 2
put etc/coin/x file 644 0 0 = t 11 3
mkdir '' 755 = t 16 0
mkdir d/z1 10000 = t 17 0
remove d/.. = p 2 1
chmod etc/coin 600 = done
put etc/coin file 644 14 a2 = done
room = 0
remove etc/coin = done
room = 1
mkdir etc/coin 700 = done
room = 0
look etc/coin = dir 700";

#[test]
fn flat_rows(rt: HostRuntime) -> Result<(), Fail> {
    let mut tree = flat_kit(&rt)?;
    run(&rt, &mut tree, "room = 251\nmkdir d 755 = done")?;
    fill(&mut tree, "abcdefghijklmnopqrstuvwx", "0123456789")?;
    fill(&mut tree, "y", "012345678")?;
    run(&rt, &mut tree, FLAT_LAST)
}
