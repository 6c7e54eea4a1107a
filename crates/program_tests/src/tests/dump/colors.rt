// Dumps with colors.
use crate::tests::same_at;
use std::alloc::Global;
use std::test::Fail;
use wasm_commands::Colored;
use wasm_io::{BoundedSink, Failed, Sink, write_all};

// What a sink with room for this many bytes has after this text was written through colors, and whether all was.
fn written(alloc: Global, room: usize, text: &[u8]) -> Result<(BoundedSink, bool), Fail> {
    let mut colored = Colored::new(BoundedSink::new(alloc, room)?, true);
    let whole = write_all(&mut colored, text).is_ok();
    Ok((colored.into_inner(), whole))
}

#[test]
fn colors_the_parts_of_lines(rt: HostRuntime) -> Result<(), Fail> {
    let rows: [(&[u8], &[u8]); 8] = [
        (b"", b""),
        (b"end 8\n", b"\x1b[0;1mend\x1b[0m 8\n"),
        (b"  8 a=1 2\n", b"\x1b[0m  \x1b[0;2m8\x1b[0m a=1 2\n"),
        (
            b"    frame a=\"b c\" d=\"\"\n",
            b"\x1b[0m    \x1b[0;1mframe\x1b[0m a=\x1b[0;32m\"b c\"\x1b[0m d=\x1b[0;32m\"\"\x1b[0m\n",
        ),
        (
            b"  fault 8 a \"b\": 2\nend 8\n",
            b"\x1b[0m  \x1b[0;1mfault\x1b[0;31m 8 a \"b\": 2\x1b[0m\n\x1b[0;1mend\x1b[0m 8\n",
        ),
        (b"  type=(a)\n", b"\x1b[0m  \x1b[0;1mtype\x1b[0m=(a)\n"),
        (b"a\n", b"\x1b[0;1ma\x1b[0m\n"),
        // An ESC is no color, and the next byte has its color again.
        (b"a \x1b[1m", b"\x1b[0;1ma\x1b[0m \x1b\\\x1b[0m[1m"),
    ];
    for (text, wanted) in rows {
        let (sink, whole) = written(rt.alloc(), 200, text)?;
        assert!(rt; whole);
        assert_eq!(rt; sink.written(), wanted);
    }
    Ok(())
}

// A sink that is full takes a prefix of the text with its colors.
#[test]
fn stops_where_the_other_sink_does(rt: HostRuntime) -> Result<(), Fail> {
    let wanted = b"\x1b[0;1mend\x1b[0m 8\n".as_slice();
    for room in 0..wanted.len() {
        let (sink, whole) = written(rt.alloc(), room, b"end 8\n")?;
        assert!(rt; !whole);
        assert!(rt; sink.failed());
        assert!(rt; wanted.starts_with(sink.written()));
    }
    Ok(())
}

// A sink that takes a few bytes a call.
#[derive(Drop)]
struct Slow {
    inner: BoundedSink,
    step: usize,
}

impl Sink for Slow {
    ghost use Rattle.std.specs.Prelude.{Some};

    ghost taken = { λ s. Some s.inner.bytes.items };

    ghost has_failed = { λ s. s.inner.failed };

    fn write(&mut self, buf: &[u8]) -> Result<usize, Failed> {
        self.inner.write(&buf[..buf.len().min(self.step.max(1))])
    }

    fn failed(&self) -> bool {
        self.inner.failed()
    }
}

// The bytes of a text with colors, each before a number that its color has. A sequence that is cut short is followed by another.
fn shades(alloc: Global, bytes: &[u8]) -> Result<Vec<u8>, Fail> {
    let mut shades = Vec::new(alloc);
    let mut color = 0_u8;
    let mut is_sequence = false;
    for place in 0..bytes.len() {
        let byte = bytes[place];
        let begins = byte == 0x1b && !bytes[place..].starts_with(b"\x1b\\");
        if begins {
            color = 0;
            is_sequence = true;
        } else if is_sequence && byte != 0x1b {
            color = color.wrapping_add(if byte == b'm' { 0 } else { byte });
            is_sequence = byte != b'm';
        } else {
            is_sequence = false;
            shades.push(byte)?;
            shades.push(color)?;
        }
    }
    Ok(shades)
}

// However many bytes the other sink takes at once, each byte of the text has its color.
#[test]
fn colors_through_a_slow_sink(rt: HostRuntime) -> Result<(), Fail> {
    let text = b"end 8\n  8 a=\"b c\" 2 \x1b[1m\n  fault 8 a \"b\": 2\nfunc[0]\n".as_slice();
    let (whole, _) = written(rt.alloc(), 1000, text)?;
    let wanted = shades(rt.alloc(), whole.written())?;
    for step in 1..60 {
        let inner = BoundedSink::new(rt.alloc(), 1000)?;
        let mut colored = Colored::new(Slow { inner, step }, true);
        assert!(rt; write_all(&mut colored, text).is_ok());
        let Slow { inner, .. } = colored.into_inner();
        let seen = shades(rt.alloc(), inner.written())?;
        same_at(&rt, seen.as_slice(), wanted.as_slice(), &step);
    }
    Ok(())
}
