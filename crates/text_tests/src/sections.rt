//! The text of a section read back, and texts that are none.

use int_interval::Interval;
use report_reader::{Line, SectionFault, read_section};
use std::test::Fail;
use tube_io::Text;
use tube_report::Verdict;

// A signal and a variable, a slice that runs backward, and the greatest numbers, under `spent`.
#[test]
fn reads_a_section(rt: HostRuntime) -> Result<(), Fail> {
    let text =
        b"section 1000000 spent\nsignal x\nslice 100000 0 -4000000000000000000 4000000000000000000\nvar b.y -7 -1\nend 1000000\n";
    let section = read_section(rt.alloc(), text)?;
    assert_eq!(rt;
        (section.number, section.verdict),
        (1_000_000, Verdict::Spent)
    );
    let widest = Interval::new(-4_000_000_000_000_000_000, 4_000_000_000_000_000_000);
    let want = vec![in rt.alloc();
        Line::Signal(Text::new(rt.alloc(), b"x")?),
        Line::Slice {
            from: 100_000,
            to: 0,
            range: widest.ok_or("bounds")?
        },
        Line::Var {
            name: Text::new(rt.alloc(), b"b.y")?,
            range: Interval::new(-7, -1).ok_or("bounds")?
        },
    ]?;
    assert!(rt; section.lines.as_slice() == want.as_slice());
    Ok(())
}

// Each text and the first line that breaks it.
#[test]
fn finds_the_first_line_that_breaks(rt: HostRuntime) {
    let cases: [(&[u8], u32); 16] = [
        (b"", 1),
        (b"section 1 settled", 1),
        (b"section 0 settled\nend 0\n", 1),
        (b"section 1000001 settled\nend 1000001\n", 1),
        (b"section 01 settled\nend 01\n", 1),
        (b"section 1 settled \nend 1\n", 1),
        (b"section 1 settled\n\nend 1\n", 2),
        (b"section 1 settled\nsignal min\nend 1\n", 2),
        (b"section 1 settled\ngate 0 -0 0\nend 1\n", 2),
        (b"section 1 settled\ngate 0 1 0\nend 1\n", 2),
        (b"section 1 settled\ngate 0 0 0\r\nend 1\n", 2),
        (b"section 1 settled\nbrief x 0 0 0\nend 1\n", 2),
        (b"section 1 settled\nend 1", 2),
        (b"section 1 settled\nend 2\n", 2),
        (b"section 1 settled\nsignal x\ngate 0 0\nend 1\n", 3),
        (b"section 1 settled\nsignal x\ngate 0 0 0\nend 1\nx\n", 5),
    ];
    for (text, line) in cases {
        assert!(rt; text.len() < 1000);
        assert_eq!(rt;
            read_section(rt.alloc(), text).err(),
            Some(SectionFault::BadSection(line)),
            "at {text:?}"
        );
    }
}
