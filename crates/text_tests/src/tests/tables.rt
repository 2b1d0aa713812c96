//! What texts read as, and the first line and check that refuses a text that is no table; the first difference of
//! two signatures.
use super::table::{Asked, check, text_of};
use impl_table::{Table, Unfit, fits, read_table};
use lin_form::Signature;
use std::alloc::{AllocError, Global};
use std::test::Fail;

/// Texts and what is wanted of each.
const TEXTS: &str = "
table 1/input v 0 10/output o/state S gives 5/ | 1 1 1 0 [5]
# of one state/\r/table 1 # version/input v -3 -3/input w 0 1/output o/output p/state S gives -1000000000000 0/ | 2 2 1 0 [-1000000000000, 0]
table 1/input v 0 1/output o/state S gives 0/row S gives 1 go S/row S when not v = 1 or v < 0 gives - 7 go S/ | 1 1 1 2 [0]
 | 1 Version
/# nothing/ | 3 Version
table 2/ | 1 Version
chart 1/ | 1 Version
input v 0 10/ | 1 Version
table $/ | 1 Byte
table 1/table 1/ | 2 NoSuchLine
table 1/memory n 0 1 0/ | 2 NoSuchLine
table 1/output o/input v 0 1/ | 3 Misplaced
table 1/output o/input v 0/ | 3 Misplaced
table 1/input v 0/ | 2 Form
table 1/output o 0/ | 2 Form
table 1/output state/ | 2 Form
table 1/input v 0 1/output o/state S gives/ | 4 Form
table 1/input v 0 1/output o/state S gives 1 2/ | 4 Form
table 1/input v 0 1/output o/state S gives 1/row S when gives 1 go S/ | 5 Form
table 1/input v 0 1/output o/state S gives 1/row S when v > 0 gives go S/ | 5 Form
table 1/input v 0 1/output o/state S gives 1/row S gives 1/ | 5 Form
table 1/input v 0 1/output o/state S gives 1/row S gives 1 go S S/ | 5 Form
table 1/input v 0 1000001/ | 2 limit Literal
table 1/output o/state S gives 1000000000001/ | 3 limit Literal
table 1/input v 0 1/input v 2 1/ | 3 Double
table 1/input v 0 1/output v/ | 3 Double
table 1/input v 0 1/output o/state S gives 1/state S gives 2/ | 5 Double
table 1/input v 0 1/output o/state v gives 1/ | 1 1 1 0 [1]
table 1/input v 0 1/output o/state S gives 1/row T when o > 0 gives 1 go U/ | 5 Unknown
table 1/input v 0 1/output o/state S gives 1/row S when o > 0 gives 1 go S/ | 5 Unknown
table 1/input v 0 1/output o/state S gives 1/row S gives 1 go U/ | 5 Unknown
table 1/input v 2 1/ | 2 Range
table 1/input a 0 0/input b 0 0/input c 0 0/input d 0 0/input e 0 0/input f 0 0/input g 0 0/ | 8 limit Inputs
table 1/output a/output b/output c/output d/output e/output f/output g/output h/output i/ | 10 limit Outputs
table 1/input v 0 1/output o/ | 4 Missing
table 1/input v 0 1/state S gives/ | 4 Missing
table 1/output o/state S gives 1/ | 4 Missing
table 1/input v 0 1/output o/state s gives 0/{4096:row s gives 0 go s/} | 1 1 1 4096 [0]
table 1/input v 0 1/output o/state s gives 0/{4097:row s gives 0 go s/} | 4101 limit Rows
table 1/input v 0 1/output o/{1025:state s@ gives 0/} | 1028 limit States
table 1/input v 0 1/output o/state s gives 0/row s when v > 0{63: or v > 0} gives 0 go s/ | 1 1 1 1 [0]
table 1/input v 0 1/output o/state s gives 0/row s when v > 0{64: or v > 0} gives 0 go s/ | 5 limit Comparisons
";

fn table(alloc: Global, written: &str) -> Result<Table, AllocError> {
    let text = text_of(alloc, written)?;
    match read_table(alloc, text.as_bytes()) {
        Ok(table) => Ok(table),
        Err(_) => Err(AllocError),
    }
}

#[test]
fn tables(rt: HostRuntime) -> Result<(), Fail> {
    check(&rt, rt.alloc(), &Asked::Table, "", TEXTS)?;
    let most = table(
        rt.alloc(),
        "table 1/input v 0 1/output o/{1024:state s@ gives 0/}",
    )?;
    assert_eq!(rt; most.states.len(), 1_024);
    Ok(())
}

fn fit(rt: &HostRuntime, model: &Signature, front: &str) -> Result<Result<(), Unfit>, AllocError> {
    let mut written = String::from_str(rt.alloc(), "table 1/")?;
    written.push_str(front)?;
    written.push_str("state S gives 0 0/")?;
    let other = table(rt.alloc(), written.as_str())?;
    Ok(fits(model, &other.signature))
}

#[test]
fn differences(rt: HostRuntime) -> Result<(), Fail> {
    let model = table(
        rt.alloc(),
        "table 1/input a 0 1/input b 0 1/output o/output p/state S gives 0 0/",
    )?;
    for (front, want) in [
        ("input a 0 1/input b 0 1/output o/output p/", Ok(())),
        ("input a 0 1/output p/output o/", Err(Unfit::Inputs)),
        (
            "input a 0 1/input c 0 1/output p/output o/",
            Err(Unfit::Input(1)),
        ),
        (
            "input a 0 1/input b 0 2/output p/output o/",
            Err(Unfit::Input(1)),
        ),
        (
            "input a -1 1/input c 0 2/output p/output o/",
            Err(Unfit::Input(0)),
        ),
        (
            "input a 0 1/input b 0 1/output p/output o/",
            Err(Unfit::Output(0)),
        ),
        (
            "input a 0 1/input b 0 1/output o/output q/",
            Err(Unfit::Output(1)),
        ),
    ] {
        let found = fit(&rt, &model.signature, front)?;
        assert_eq!(rt; found, want, "{front}");
    }
    let one = table(
        rt.alloc(),
        "table 1/input a 0 1/input b 0 1/output x/state S gives 0/",
    )?;
    let found = fits(&model.signature, &one.signature);
    assert_eq!(rt; found, Err(Unfit::Outputs));
    Ok(())
}
