//! Texts of words and numbers, written to a sink piece by piece with no memory.
#![tactic(auto)]

ghost use Rattle.std.specs.Prelude.{flat_map};
ghost use Rattle.text_pieces.specs.Pieces.{piece_text};
ghost use Rattle.tube_io.specs.Sends.{Sends};

use itoa::Buffer;
use tube_io::{Sink, WriteFault, write_all};

/// A piece of a text.
#[derive(Clone, Copy)]
pub enum Piece<'a> {
    /// These bytes.
    Text(&'a [u8]),
    /// A number in decimal digits, with `-` before a negative one.
    Number(i64),
    /// A number that is never negative, in decimal digits.
    Count(u64),
}

/// Writes one piece. After an error, which is a failed write, a prefix of its text was taken.
pub fn write_piece<K: Sink>(sink: &mut K, piece: Piece) -> Result<(), WriteFault>
    ensures { Sends K.written K.flushed K.faults (piece_text piece.entry) sink.old sink.new result }
{
    match piece {
        Piece::Text(text) => write_all(sink, text),
        Piece::Number(n) => {
            let mut digits = Buffer::new();
            write_all(sink, digits.format(n).as_bytes())
        }
        Piece::Count(n) => {
            let mut digits = Buffer::new();
            write_all(sink, digits.format(n).as_bytes())
        }
    }
}

/// Writes pieces one after the other. After an error, which is a failed write, a prefix of their text was taken.
pub fn write_pieces<K: Sink>(sink: &mut K, pieces: &[Piece]) -> Result<(), WriteFault>
    ensures { Sends K.written K.flushed K.faults (flat_map piece_text pieces.now) sink.old sink.new result }
{
    for piece in pieces {
        match write_piece(sink, *piece) {
            Ok(()) => {}
            Err(fault) => return Err(fault),
        }
    }
    Ok(())
}

#[cfg(test)]
mod tests {
    use super::*;
    use tube_io::SureSink;

    #[test]
    fn prints_words_and_numbers(rt: HostRuntime) {
        let pieces = [
            Piece::Text(b"gate "),
            Piece::Number(0),
            Piece::Text(b" "),
            Piece::Number(-9223372036854775808),
            Piece::Text(b" "),
            Piece::Number(9223372036854775807),
            Piece::Text(b" "),
            Piece::Count(18446744073709551615),
            Piece::Text(b"\n"),
        ];
        let text = b"gate 0 -9223372036854775808 9223372036854775807 18446744073709551615\n";
        let mut sink = SureSink::<80>::new();
        assert_eq!(rt; write_pieces(&mut sink, &pieces), Ok(()));
        assert_eq!(rt; sink.bytes(), text.as_slice());
        let mut small = SureSink::<30>::new();
        assert_eq!(rt; write_pieces(&mut small, &pieces), Err(WriteFault));
        assert_eq!(rt; small.bytes(), &text[..30]);
    }
}
