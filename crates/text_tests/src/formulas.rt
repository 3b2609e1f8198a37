//! Texts that are formulas with their canonical texts, and texts that are none with the place of their first fault, which no report tells.

use expr_text::{ExprFault, parse, print};
use std::test::Fail;

#[test]
fn prints_what_it_reads(rt: HostRuntime) -> Result<(), Fail> {
    let cases: [(&[u8], &[u8]); 8] = [
        (b"min(x,b1.y)*x<=-3", b"(min(x,b1.y)*x)<=(-3)"),
        (b" x = 007 ", b"x=7"),
        (b"a-b+c=0", b"((a-b)+c)=0"),
        (b"a-(b-c)=0", b"(a-(b-c))=0"),
        (b"a+b*c>=d", b"(a+(b*c))>=d"),
        (b"-a*-b<--c", b"((-a)*(-b))<(-(-c))"),
        (b"((sqr(x)))>max(abs(x),1+2)", b"sqr(x)>max(abs(x),(1+2))"),
        (b"minimum=absent", b"minimum=absent"),
    ];
    for (text, canonical) in cases {
        assert!(rt; text.len() < 100);
        match parse(rt.alloc(), text) {
            Ok(relation) => {
                assert_eq!(rt; print(rt.alloc(), &relation)?.as_slice(), canonical);
            }
            Err(fault) => assert!(rt; false, "{text:?}: {fault:?}"),
        }
    }
    Ok(())
}

#[test]
fn finds_the_first_fault(rt: HostRuntime) {
    let cases: [(&[u8], u32); 18] = [
        (b"   ", 3),
        (b"x+1", 3),
        (b"(x", 2),
        (b"x= ", 3),
        (b"x+*2=1", 2),
        (b"x=+1", 2),
        (b"x=>1", 2),
        (b"x< =1", 3),
        (b"x<1<2", 3),
        (b"(x=1)", 2),
        (b"x=1 2", 4),
        (b"1x=2", 1),
        (b"x.xy=1", 3),
        (b"sqr x=1", 4),
        (b"min(x,y,z)=1", 7),
        (b"x\t=1", 1),
        (b"x=1234567890123456789", 2),
        (b"x+aaaaaaaaaaaaaaaaaaaaaaaaaaaaaaaaa=1", 2),
    ];
    for (text, place) in cases {
        assert!(rt; text.len() < 100);
        match parse(rt.alloc(), text) {
            Ok(_) => assert!(rt; false, "{text:?} is read"),
            Err(fault) => assert_eq!(rt; fault, ExprFault::Text(place), "at {text:?}"),
        }
    }
}
