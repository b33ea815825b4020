// What becomes of a manifest's text. Each table is lent to the loop over it: one taken by value is dear to prove.
use reports::report::report_pile;
use std::process::Abort;
use std::test::Fail;

// The header, and the line of a root.
pub(crate) const HEAD: &str = "#mtree\n. type=dir mode=0755\n";

// A directory's line behind its path word.
pub(crate) const DIR: &str = " type=dir mode=0755\n";

// 215 bytes, whose last line begins at 148.
pub(crate) const KIT: &str =
    "#mtree\n. type=dir mode=0755\n./etc type=dir mode=0755\n./etc/coin type=file mode=0644 size=12 content=00000000000000a1\n./etc/trays type=dir mode=0755\n./etc/trays/t1 type=file mode=0644 size=5 content=00000000000000b2\n";

// The outcome where a listing is the text itself.
pub(crate) const SAME: &str = "";

// Checks what becomes of the text that pieces make.
pub(crate) fn judge(
    rt: &(impl Abort + AllocGlobal),
    pieces: &[&str],
    said: &str,
) -> Result<(), Fail> {
    let text = pieces.concat(rt.alloc())?;
    let wanted = if said.is_empty() { text.as_str() } else { said };
    match report_pile(rt.alloc(), text.as_bytes(), None)? {
        Ok(listing) => assert_eq!(rt; listing.as_slice(), wanted.as_bytes(), "{}", text),
        Err(line) => {
            let fault = line.as_str().trim_start_matches("refused base.mtree ");
            assert_eq!(rt; fault.trim_end(), wanted, "{}", text);
        }
    }
    Ok(())
}
