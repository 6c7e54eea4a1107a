// What trees write at the lengths where the way to write it changes.
ghost use Rattle.std.specs.Prelude.{◌≡◌};
ghost use Rattle.wasm_output.specs.Tree.{has_line_feed};

use crate::tests::same_at;
use std::alloc::Global;
use std::process::Abort;
use std::test::Fail;
use wasm_io::BoundedSink;
use wasm_output::{Objects, TextLines, Tree};

// Bytes that are escaped, the escape in lines, and the one in JSON.
const ESCAPES: [(&'static str, &'static str, &'static str); 4] = [
    ("\"", "\\22", "\\\""),
    ("\\", "\\5c", "\\\\"),
    ("\n", "\\0a", "\\u000a"),
    // Plain in JSON.
    ("\x7f", "\\7f", "\x7f"),
];

// What is written: the name of a field with a number, a text, and bytes as digits.
#[derive(Clone, Copy)]
struct Case<'a> {
    name: &'a str,
    text: &'a str,
    bytes: &'a [u8],
}

// Returns whether a text has a line feed, which no line may.
fn breaks_line(text: &str) -> bool
    ensures { result ≡ has_line_feed text.now }
{
    text.as_bytes().contains(&b'\n')
}

fn write_fields<T: Tree>(case: &Case<'_>, out: &mut T) {
    let name = case.name;
    if breaks_line(name) {
        return;
    }
    out.line(1, "x");
    out.number(name, 7);
    out.quoted("text", case.text);
    out.begin_field("bytes");
    out.hexadecimals(case.bytes);
    out.end();
    out.write_out();
}

// Both trees write these lines.
fn is_written(
    rt: &impl Abort,
    alloc: Global,
    case: &Case<'_>,
    line: &str,
    object: &str,
) -> Result<(), Fail> {
    let mut lines = TextLines::new(alloc, BoundedSink::new(alloc, 1000)?);
    write_fields(case, &mut lines);
    same_at(
        rt,
        lines.into_output().written(),
        line.as_bytes(),
        &case.text,
    );
    let mut objects = Objects::new(alloc, BoundedSink::new(alloc, 1000)?);
    write_fields(case, &mut objects);
    same_at(
        rt,
        objects.into_output().written(),
        object.as_bytes(),
        &case.text,
    );
    Ok(())
}

#[test]
fn escapes_at_each_place(rt: HostRuntime) -> Result<(), Fail> {
    let plain = "abcdefghi";
    for (raw, in_lines, in_json) in &ESCAPES {
        for place in 0..=plain.len() {
            let (before, after) = plain.split_at(place);
            let text = format!(in rt.alloc(); "{before}{raw}{after}")?;
            let line = format!(in rt.alloc();
                "  x n=7 text=\"{before}{in_lines}{after}\" bytes=\n"
            )?;
            let object = format!(in rt.alloc();
                "{{\"level\":1,\"line\":\"x\",\"n\":7,\"text\":\"{before}{in_json}{after}\",\"bytes\":\"\"}}\n"
            )?;
            let case = Case {
                name: "n",
                text: &text,
                bytes: &[],
            };
            is_written(&rt, rt.alloc(), &case, &line, &object)?;
        }
    }
    Ok(())
}

#[test]
fn names_of_numbers_at_their_limit(rt: HostRuntime) -> Result<(), Fail> {
    let long = "n".repeat(rt.alloc(), 130)?;
    for size in [1, 7, 8, 127, 128, 129, 130] {
        let name = long.get(..size).ok_or("too short")?;
        let line = format!(in rt.alloc(); "  x {name}=7 text=\"\" bytes=\n")?;
        let object = format!(in rt.alloc();
            "{{\"level\":1,\"line\":\"x\",\"{name}\":7,\"text\":\"\",\"bytes\":\"\"}}\n"
        )?;
        is_written(
            &rt,
            rt.alloc(),
            &Case {
                name,
                text: "",
                bytes: &[],
            },
            &line,
            &object,
        )?;
    }
    let object = "{\"level\":1,\"line\":\"x\",\"a\\\"b\":7,\"text\":\"\",\"bytes\":\"\"}\n";
    is_written(
        &rt,
        rt.alloc(),
        &Case {
            name: "a\"b",
            text: "",
            bytes: &[],
        },
        "  x a\"b=7 text=\"\" bytes=\n",
        object,
    )
}

#[test]
fn digits_in_groups(rt: HostRuntime) -> Result<(), Fail> {
    let bytes: [u8; 4] = [0, 9, 0xa0, 0xff];
    let digits = "0009a0ff";
    for count in [0, 3, 4, 5, 8, 9] {
        let shown = bytes.repeat(rt.alloc(), count)?;
        let text = digits.repeat(rt.alloc(), count)?;
        let line = format!(in rt.alloc(); "  x n=7 text=\"\" bytes={text}\n")?;
        let object = format!(in rt.alloc();
            "{{\"level\":1,\"line\":\"x\",\"n\":7,\"text\":\"\",\"bytes\":\"{text}\"}}\n"
        )?;
        is_written(
            &rt,
            rt.alloc(),
            &Case {
                name: "n",
                text: "",
                bytes: &shown,
            },
            &line,
            &object,
        )?;
        // One less than whole groups.
        if let Some((_, shorter)) = shown.split_last() {
            let less = text.get(..text.len().saturating_sub(2)).ok_or("too short")?;
            let line = format!(in rt.alloc(); "  x n=7 text=\"\" bytes={less}\n")?;
            let object = format!(in rt.alloc();
                "{{\"level\":1,\"line\":\"x\",\"n\":7,\"text\":\"\",\"bytes\":\"{less}\"}}\n"
            )?;
            is_written(
                &rt,
                rt.alloc(),
                &Case {
                    name: "n",
                    text: "",
                    bytes: shorter,
                },
                &line,
                &object,
            )?;
        }
    }
    Ok(())
}

// Writes an empty text, or the digits of no bytes.
fn write_empty<T: Tree>(is_text: bool, out: &mut T) {
    if is_text {
        out.text("");
    } else {
        out.hexadecimals(&[]);
    }
}

// Writes nothing else on a line, then nothing more on one that is begun, then a field after it.
fn write_empty_lines<T: Tree>(is_text: bool, out: &mut T) {
    write_empty(is_text, out);
    out.end();
    out.line(1, "x");
    write_empty(is_text, out);
    out.end();
    write_empty(is_text, out);
    out.number("n", 7);
    out.write_out();
}

#[test]
fn empty_texts_begin_a_line(rt: HostRuntime) -> Result<(), Fail> {
    for is_text in [false, true] {
        let mut lines = TextLines::new(rt.alloc(), BoundedSink::new(rt.alloc(), 1000)?);
        write_empty_lines(is_text, &mut lines);
        let wanted = b"  \n  x\n   n=7\n";
        same_at(
            &rt,
            lines.into_output().written(),
            wanted.as_slice(),
            &is_text,
        );
        // In objects a text outside of a field is left out.
        let mut objects = Objects::new(rt.alloc(), BoundedSink::new(rt.alloc(), 1000)?);
        write_empty_lines(is_text, &mut objects);
        let wanted = b"{\"level\":1,\"line\":\"x\"}\n{\"n\":7}\n";
        same_at(
            &rt,
            objects.into_output().written(),
            wanted.as_slice(),
            &is_text,
        );
    }
    Ok(())
}

// Writes a field whose value is two texts.
fn write_texts<T: Tree>(first: &str, second: &str, out: &mut T) {
    if breaks_line(first) {
        return;
    }
    if breaks_line(second) {
        return;
    }
    out.line_field(1, "t");
    out.text(first);
    out.text(second);
    out.write_out();
}

// Texts that are written as they are in lines, and escaped in objects. They may be longer than a page.
#[test]
fn texts_of_any_length(rt: HostRuntime) -> Result<(), Fail> {
    let long = "n".repeat(rt.alloc(), 140_000)?;
    for size in [0, 1, 65_535, 65_536, 65_537, 140_000] {
        let first = long.get(..size).ok_or("too short")?;
        for (raw, _, in_json) in &ESCAPES {
            if *raw == "\n" {
                continue;
            }
            let second = format!(in rt.alloc(); "ab{raw}cdef{raw}")?;
            let line = format!(in rt.alloc(); "  t={first}{second}\n")?;
            let object = format!(in rt.alloc();
                "{{\"level\":1,\"t\":\"{first}ab{in_json}cdef{in_json}\"}}\n"
            )?;
            let mut lines = TextLines::new(rt.alloc(), BoundedSink::new(rt.alloc(), 150_000)?);
            write_texts(first, &second, &mut lines);
            same_at(&rt, lines.into_output().written(), line.as_bytes(), &size);
            let mut objects = Objects::new(rt.alloc(), BoundedSink::new(rt.alloc(), 150_000)?);
            write_texts(first, &second, &mut objects);
            same_at(
                &rt,
                objects.into_output().written(),
                object.as_bytes(),
                &size,
            );
        }
    }
    Ok(())
}
