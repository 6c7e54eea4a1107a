// The command `check`.
use super::system::{Files, Named};
use super::{CODELESS, MODULE, answers, runs};
use std::test::Fail;

// An export section whose second name is not UTF-8, and a name section with a truncated name.
const MALFORMED: &[u8] =
    b"\0asm\x01\0\0\0\x07\x09\x02\x01a\0\0\x01\x80\0\0\0\x0a\x04name\x01\x03\x01\0\x05";

#[test]
fn reports_malformed_items(rt: HostRuntime) -> Result<(), Fail> {
    let alloc = rt.alloc();
    runs(&rt, alloc, &["check"], MODULE, (0, b"", b""))?;
    let text =
        b"standard input: 0x10: malformed UTF-8 encoding, in section export\nstandard input: 0x1f: unexpected end-of-file, in custom section \"name\"\n";
    runs(&rt, alloc, &["check"], MALFORMED, (1, text, b""))?;
    runs(&rt, alloc, &["check", "--quiet"], MALFORMED, (1, b"", b""))?;
    let text =
        b"standard input: 0xc: function section has non-zero count but code section is absent\n";
    runs(&rt, alloc, &["check", "-"], CODELESS, (1, text, b""))?;
    runs(&rt, alloc, &["check", "-q", "-"], CODELESS, (1, b"", b""))
}

#[test]
fn checks_several_files(rt: HostRuntime) -> Result<(), Fail> {
    let named = [
        Named {
            name: "good",
            bytes: MODULE,
            is_regular: true,
        },
        Named {
            name: "bad",
            bytes: CODELESS,
            is_regular: true,
        },
    ];
    let files = Files::new(b"", &named);
    let text = b"bad: 0xc: function section has non-zero count but code section is absent\n";
    answers(
        &rt,
        rt.alloc(),
        &["check", "bad", "good"],
        &files,
        (1, text, b""),
    )?;
    let said = b"pulleynavy: none: No such file or directory\n";
    answers(
        &rt,
        rt.alloc(),
        &["check", "good", "none"],
        &files,
        (3, b"", said),
    )?;
    let said = b"pulleynavy: broken: Is a directory\n";
    answers(
        &rt,
        rt.alloc(),
        &["check", "broken", "bad"],
        &files,
        (3, text, said),
    )
}
