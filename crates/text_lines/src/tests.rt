//! The lines of a text.
use crate::next_line;

#[test]
fn lines(rt: HostRuntime) {
    let mut rest: &[u8] = b"a\r\n\n#\r\nb\r";
    for want in ["a\r", "", "#\r", "b\r"] {
        assert!(rt; !rest.is_empty());
        let (line, after) = next_line(rest);
        assert_eq!(rt; line, want.as_bytes());
        rest = after;
    }
    assert!(rt; rest.is_empty());
}
