// The command `list`.
use super::system::{Files, Named};
use super::{CODELESS, MODULE, answers, runs};
use std::test::Fail;

const LIST: &[u8] = b"version 0 8 1 module
section 3 10 12 1 function size=2
code 14 18 1 3 size=4
body 16 18 size=2 func[0]
custom 20 26 25 size=6 \"type\"
end 26
";

const OBJECTS: &[u8] =
    b"{\"event\":\"version\",\"range\":[0,8],\"num\":1,\"encoding\":\"module\",\"file\":\"-\"}
{\"event\":\"section\",\"range\":[10,12],\"id\":3,\"name\":\"function\",\"count\":1,\"file\":\"-\"}
{\"event\":\"section\",\"range\":[14,18],\"id\":10,\"name\":\"code\",\"count\":1,\"size\":3,\"file\":\"-\"}
{\"event\":\"body\",\"range\":[16,18],\"space\":\"func\",\"number\":0,\"file\":\"-\"}
{\"event\":\"section\",\"range\":[20,26],\"id\":0,\"name\":\"custom\",\"custom_name\":\"type\",\"data_offset\":25,\"file\":\"-\"}
{\"event\":\"end\",\"offset\":26,\"file\":\"-\"}
";

#[test]
fn lists_parts_with_names(rt: HostRuntime) -> Result<(), Fail> {
    let alloc = rt.alloc();
    runs(&rt, alloc, &["list"], MODULE, (0, LIST, b""))?;
    runs(&rt, alloc, &["list", "-"], MODULE, (0, LIST, b""))?;
    runs(&rt, alloc, &["list", "--json"], MODULE, (0, OBJECTS, b""))?;
    let text =
        b"version 0 8 1 module\nsection 3 10 12 1 function size=2\nfault 12 function section has non-zero count but code section is absent\n";
    runs(&rt, alloc, &["list"], CODELESS, (1, text, b""))?;
    // A malformed item does not change the status, and a name is escaped.
    let malformed = b"\0asm\x01\0\0\0\0\x03\x02a\"\x07\x02\x01\x05";
    let text =
        b"version 0 8 1 module\ncustom 10 13 13 size=3 \"a\\22\"\nsection 7 15 17 1 export size=2\nend 17\n";
    runs(&rt, alloc, &["list"], malformed, (0, text, b""))
}

const SEVERAL: &[u8] = b"one:
version 0 8 1 module
end 8
none:
broken:
-:
version 0 8 1 module
end 8
";

#[test]
fn lists_several_files(rt: HostRuntime) -> Result<(), Fail> {
    let one = [Named {
        name: "one",
        bytes: &MODULE[..8],
        is_regular: true,
    }];
    let files = Files::new(&MODULE[..8], &one);
    let said = b"pulleynavy: none: No such file or directory\npulleynavy: broken: Is a directory\n";
    let words = ["list", "one", "none", "broken", "-"];
    answers(&rt, rt.alloc(), &words, &files, (3, SEVERAL, said))
}
