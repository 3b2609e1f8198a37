//! What the records of some texts are.

use crate::Rows;
use csv::ByteRecord;
use std::alloc::Global;
use std::test::Fail;

// The records of a text, each field followed by `|` and each record by `;`.
fn shown(alloc: Global, text: &[u8]) -> Result<Vec<u8>, Fail> {
    let mut rows = Rows::new(alloc, text);
    let mut row = ByteRecord::new(alloc);
    let mut out = Vec::new(alloc);
    for _ in 0..100 {
        if !rows.next(&mut row)? {
            return Ok(out);
        }
        for field in row.iter() {
            out.extend_from_slice(field)?;
            out.push(b'|')?;
        }
        out.push(b';')?;
    }
    let none: Option<Vec<u8>> = None;
    Ok(none.ok_or("more than 100 records")?)
}

#[test]
fn reads_records(rt: HostRuntime) -> Result<(), Fail> {
    let cases: [(&[u8], &[u8]); 9] = [
        (b"", b""),
        (b"a,b\nc\n", b"a|b|;c|;"),
        (b"a,b\nc", b"a|b|;c|;"),
        (b"\n\n a \n\n", b" a |;"),
        (b"\"x,y\",z\r\nq\n", b"x,y|z|;q|;"),
        (b"\"x\"\"y\"\n", b"x\"y|;"),
        (b"\xef\xbb\xbfa,b\n", b"a|b|;"),
        (b"  \n,\n", b"  |;||;"),
        (b"mission,1,10,5\n# note\n", b"mission|1|10|5|;# note|;"),
    ];
    for (text, want) in cases {
        let got = shown(rt.alloc(), text)?;
        assert_eq!(rt; got.as_slice(), want, "at {text:?}");
    }
    Ok(())
}
