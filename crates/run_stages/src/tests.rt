//! Which texts are read as tables.
use crate::is_table;

#[test]
fn tables_by_their_first_line(rt: HostRuntime) {
    let texts = [
        ("table 1\n", true),
        ("table 1", true),
        ("\r\ntable 1", true),
        ("\n \t\r\n# chart 1\n\t table 1\n", true),
        ("table# 1", true),
        ("table", true),
        ("table\r\n", true),
        ("table(", true),
        ("table\u{e9}", true),
        ("# table\nchart 1\n", false),
        ("chart 1\ntable 1\n", false),
        ("tables 1\n", false),
        ("table1\n", false),
        ("table_ 1\n", false),
        ("Table 1\n", false),
        ("tabl\n", false),
        ("ta ble 1\n", false),
        ("\r#\ntable 1\n", false),
        ("? table 1\n", false),
        ("\n\n", false),
        ("", false),
    ];
    for (text, expected) in texts {
        assert!(rt; is_table(text.as_bytes()) == expected, "{text}");
    }
}
