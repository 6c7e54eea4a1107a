// All payloads of a stream.
use crate::parser::Parser;
use crate::payload::{Chunk, Payload};
use std::marker::Model;
use wasm_base::Result;

/// An iterator over the payloads of a stream in memory, in order.
///
/// It ends after `Payload::End`, and after the first error, which is one of `Parser::parse`. It never allocates.
///
/// ```rattle
/// let mut payloads = Parser::new(0).parse_all(b"\0asm\x01\0\0\0\xff");
/// assert!(rt; matches!(payloads.next(), Some(Ok(Payload::Version { num: 1, .. }))));
/// let found = payloads.next().and_then(|payload| payload.err());
/// assert_eq!(rt; found, Some(Error::new(Fault::MalformedSectionId, 8)));
/// assert!(rt; payloads.next().is_none());
/// ```
#[derive(Drop)]
pub struct ParseAll<'a> {
    parser: Parser,
    bytes: &'a [u8],
    ended: bool,
}

impl<'a> Model for ParseAll<'a> {
    ghost use Rattle.wasm_parser.specs.ParseAll.{Walk};

    ghost Value = { Walk };

    ghost view = { λ s. record { state = s.parser; bytes = s.bytes.now; ended = s.ended } };
}

impl<'a> ParseAll<'a> {
    ghost use Rattle.std.specs.Prelude.{◌≡◌};
    ghost use Rattle.wasm_parser.specs.ParseAll.{walk_over};

    // Returns a walk over these bytes, from the parser's offset on.
    pub(crate) fn over(parser: Parser, bytes: &'a [u8]) -> Self
        ensures { result ≡ walk_over parser bytes.now }
    {
        ParseAll {
            parser,
            bytes,
            ended: false,
        }
    }
}

impl<'a> Iterator for ParseAll<'a> {
    ghost use Rattle.std.specs.Iterator.{at_most};
    ghost use Rattle.wasm_parser.specs.ParseAll.{NextPayload, most_payloads};

    type Item = Result<Payload<'a>>;

    // Proved: after `End` or a fault `parse_all` returns nothing, whatever its parser was
    ghost next_gives = { NextPayload };

    ghost remaining = { λ s. at_most (most_payloads s) };

    fn next(&mut self) -> Option<Result<Payload<'a>>> {
        if self.ended {
            return None;
        }
        match self.parser.parse(self.bytes, true) {
            Ok(Chunk::Parsed { consumed, payload }) => {
                self.bytes = &self.bytes[consumed..];
                self.ended = consumed == 0;
                Some(Ok(payload))
            }
            Ok(Chunk::NeedMoreData(_)) => unreachable!(),
            Err(e) => {
                self.ended = true;
                Some(Err(e))
            }
        }
    }
}
