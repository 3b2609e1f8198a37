//! A source that is read, and sources that are not of the form.

use crate::{PairFormFault, read_pair};
use std::test::Fail;

#[test]
fn reads_a_source(rt: HostRuntime) -> Result<(), Fail> {
    let source: &[u8] =
        b"pair +2 003\nab\nc\nd\noffset -5 +7\nlink 4 -0 60 x y v w\nlink 0 1 2 3 # [] \xff\nend\n";
    let form = read_pair(rt.alloc(), source)?;
    assert_eq!(rt; form.first, b"ab".as_slice());
    assert_eq!(rt; form.second, b"c\nd".as_slice());
    assert_eq!(rt; form.offset, (-5, 7));
    assert_eq!(rt; form.links.len(), 2);
    let link = &form.links[0];
    assert_eq!(rt; (link.tick, link.radii), (4, (0, 60)));
    assert_eq!(rt; link.first.x, b"x".as_slice());
    assert_eq!(rt; link.first.y, b"y".as_slice());
    assert_eq!(rt; link.second.x, b"v".as_slice());
    assert_eq!(rt; link.second.y, b"w".as_slice());
    assert_eq!(rt; form.links[1].second.y, b"\xff".as_slice());
    Ok(())
}

#[test]
fn refuses_other_sources(rt: HostRuntime) {
    let cases: [&[u8]; 14] = [
        b"",
        b"pair 1 1\na\nb\noffset 0 0\n",
        b"pair 1 1\na\nb\noffset 0 0\nend",
        b"pair 1 1\na\nb\noffset 0 0\nend\n\n",
        b"pair 1 1\na\nb\noffset 0 0\nend\nlink 4 60 60 x y x y\n",
        b"pair  1 1\na\nb\noffset 0 0\nend\n",
        b"pair 1 1 \na\nb\noffset 0 0\nend\n",
        b"pair -1 1\na\nb\noffset 0 0\nend\n",
        b"pair 1 2\na\nb\noffset 0 0\nend\n",
        b"pair 1 1\na b\noffset 0 0\nend\n",
        b"pair 1 9\na\nb\noffset 0 0\nend\n",
        b"pair 1 1\na\nb\noffset 0\nend\n",
        b"pair 1 1\na\nb\noffset 0 0\nlink 4 60 60 x y x\nend\n",
        b"pair 1 1\na\nb\noffset 0 0\nlink 4 60 60 x y  x\nend\n",
    ];
    for source in cases {
        assert_eq!(rt;
            read_pair(rt.alloc(), source).err(),
            Some(PairFormFault::Form),
            "at {source:?}"
        );
    }
}
