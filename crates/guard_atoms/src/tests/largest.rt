//! Steps of a chart with as many states, values of memories and outputs as a chart may have, and eight states deep. The
//! replies were worked out by hand.
use chart_meaning::ChartPlan;
use chart_syntax::read_chart;
use lin_form::{Reply, Vector};
use std::test::Fail;

/// In s55 the states are nested down to s62, and s61 remembers its last child.
const TEXT: &str =
    "chart 3\ninput x 0 9\noutput a 0\noutput b 0\noutput c 0\noutput d 0\noutput e 0\noutput f 0\noutput g 0\n\
output h 0\nmemory m0 0 3 0\nmemory m1 0 3 1\nmemory m2 0 3 2\nmemory m3 0 3 3\nstate s0 start\nstate s1\n\
state s2\nstate s3\nstate s4\nstate s5\nstate s6\nstate s7\nstate s8\nstate s9\nstate s10\nstate s11\n\
state s12\nstate s13\nstate s14\nstate s15\nstate s16\nstate s17\nstate s18\nstate s19\nstate s20\n\
state s21\nstate s22\nstate s23\nstate s24\nstate s25\nstate s26\nstate s27\nstate s28\nstate s29\n\
state s30\nstate s31\nstate s32\nstate s33\nstate s34\nstate s35\nstate s36\nstate s37\nstate s38\n\
state s39\nstate s40\nstate s41\nstate s42\nstate s43\nstate s44\nstate s45\nstate s46\nstate s47\n\
state s48\nstate s49\nstate s50\nstate s51\nstate s52\nstate s53\nstate s54\nstate s55\n\
state s56 in s55 start\nstate s57 in s56 start\nstate s58 in s57 start\nstate s59 in s58 start\n\
state s60 in s59 start\nstate s61 in s60 start\nstate s62 in s61 start\nstate s63 in s61\n\
entry s62 do h = m0 + m1 + m2 + m3\nexit s0 do m0 = m0 + 1\n\
on s0 when x >= m3 and m0 + m1 + m2 + m3 = 6 do a = m0, b = m1, c = m2, d = m3, m3 = m3 - 1, m2 = 9, e = m2, f = m3, g = 1000 go s55\n\
on s62 when x = 5 do g = -1 go s63\non s55 when x = 6 do h = 0 go s61 history\n";

#[test]
fn steps_of_a_largest_chart(rt: HostRuntime) -> Result<(), Fail> {
    let alloc = rt.alloc();
    let chart = match read_chart(alloc, TEXT.as_bytes()) {
        Ok(chart) => chart,
        Err(error) => panic!(rt; "{error:?}"),
    };
    let plan = ChartPlan::new(alloc, chart)?;
    let five = Vector::from_slice(alloc, &[5]);
    let six = Vector::from_slice(alloc, &[6]);
    assert!(rt; plan.chart().signature.inputs.contains(&five));
    assert!(rt; plan.chart().signature.inputs.contains(&six));
    let first = plan.step(&plan.start(), &five);
    assert_eq!(rt;
        first.reply,
        Reply::from_slice(&[1, 1, 2, 3, 3, 2, 1000, 7])
    );
    let second = plan.step(&first.state, &five);
    assert_eq!(rt; second.reply, Reply::from_slice(&[1, 1, 2, 3, 3, 2, -1, 7]));
    let third = plan.step(&second.state, &six);
    assert_eq!(rt; third.reply, Reply::from_slice(&[1, 1, 2, 3, 3, 2, -1, 0]));
    assert_ne!(rt; third.state, second.state);
    Ok(())
}
