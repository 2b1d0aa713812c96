//! Words over a chart, and the tokens of a line.
use super::describe::chart_of;
use super::table::{Asked, check};
use std::test::Fail;

/// A chart of two inputs of which the second is assumed to be at most 3 above the first.
const PAIRS: &str =
    "chart 2\ninput a -5 5\ninput b -1000000 1000000\nassume b <= a + 3\noutput o 0\nstate S start\n";

/// A chart of one input.
const ALARM: &str = "chart 1\ninput v 0 10\noutput alarm 0\nstate Low start\n";

/// The same where something is assumed.
const ASSUMED: &str = "chart 2\ninput v 0 10\nassume v >= 6\noutput alarm 0\nstate Low start\n";

/// Words over the chart of two inputs.
const WORDS: &str = "
 | empty
/ # $ \u{e9}/\r/\t/ | empty
1 2 | [1, 2]
1 2//- 3 -04 # a comment\r/0 0/ | [1, 2][-3, -4][0, 0]
1-2/-0 003/ | [1, -2][0, 3]
0 0/0 $/ | 2 Byte
0 0\r\r/ | 1 Byte
//0 -1000000/0 -1000001/ | 4 limit Literal
gives 1000000000000/ | 1 Form
gives 1000000000001/ | 1 limit Literal
/{32:a} | 2 Form
/{33:a} | 2 limit NameBytes
{1024:0 } | 1 Form
{1025:0 } | 1 limit Tokens
{32:( not } | 1 Form
{32:( not }( | 1 limit Nesting
1/ | 1 Form
1 2/1 2 3/ | 2 Form
1 -/ | 1 Form
1 - - 2/ | 1 Form
+1 2/ | 1 Form
1, 2/ | 1 Form
a b/ | 1 Form
chart 2/1 2/ | 1 Form
0 0 0 0 0 0 0/ | 1 Form
5 -1000000/-5 -2/ | [5, -1000000][-5, -2]
6 0/ | 1 OutOfBox
5 0/-6 -9/ | 2 OutOfBox
2 5/ | [2, 5]
2 6/ | 1 OutOfBox
1000001 $/ | 1 Byte
{1025:1000001 } | 1 limit Literal
{1025:( } | 1 limit Tokens
{65:( 9 9 } | 1 limit Nesting
9 9 9/ | 1 Form
1000001/$/ | 1 limit Literal
{1025:0 }/1000001/ | 1 limit Tokens
{65:(}/{1025:0 } | 1 limit Nesting
0/{65:(} | 1 Form
9 0/0/ | 1 OutOfBox
0/9 0/ | 1 Form
";

/// The tokens of a line with their places.
const TOKENS: &str = "
 | empty
 \t # $\r | empty
on\ts1>= 007,-(_a!=12b\r | Name 0-2, Name 3-5, Symbol(190) 5-7, Number(7) 8-11, Symbol(44) 11-12, Symbol(45) 12-13, Symbol(40) 13-14, Name 14-16, Symbol(161) 16-18, Number(12) 18-20, Name 20-21
<==>*+) | Symbol(188) 0-2, Symbol(61) 2-3, Symbol(62) 3-4, Symbol(42) 4-5, Symbol(43) 5-6, Symbol(41) 6-7
1000000 | Number(1000000) 0-7
gives 1000000000000 | Name 0-5, Number(1000000000000) 6-19
{32:a} | Name 0-32
a ! b | 1 Byte
a\rb | 1 Byte
a/ | 1 Byte
1000001 | 1 limit Literal
1000001 gives 1 | 1 limit Literal
{33:a} | 1 limit NameBytes
{33:a} 1000001 | 1 limit NameBytes
{1025:+} | 1 limit Tokens
{32:not(}( | 1 limit Nesting
";

#[test]
fn words(rt: HostRuntime) -> Result<(), Fail> {
    let pairs = chart_of(rt.alloc(), PAIRS)?;
    check(&rt, rt.alloc(), &Asked::Word(&pairs), "", WORDS)?;
    let alarm = chart_of(rt.alloc(), ALARM)?;
    check(
        &rt,
        rt.alloc(),
        &Asked::Word(&alarm),
        "",
        "10/ | [10]\n11/ | 1 OutOfBox\n5/ | [5]\n",
    )?;
    let assumed = chart_of(rt.alloc(), ASSUMED)?;
    check(
        &rt,
        rt.alloc(),
        &Asked::Word(&assumed),
        "",
        "6/ | [6]\n5/ | 1 OutOfBox\n",
    )?;
    Ok(())
}

#[test]
fn tokens(rt: HostRuntime) -> Result<(), Fail> {
    check(&rt, rt.alloc(), &Asked::Tokens, "", TOKENS)?;
    Ok(())
}
